//! What the events do at their servers that are no requests.

ghost use Rattle.std.specs.Prelude.{◌≡◌, ◌≤◌, Ok, Some, length};
ghost use Rattle.std.specs.List.{AllByRecursion as Each};
ghost use Rattle.cat_model.specs.declared.request.Event.TheVariants as event;
ghost use Rattle.raft_model.specs.World.{numbered};
ghost use Rattle.cluster_rules.specs.Step.{events_in, receiver};
ghost use Rattle.cluster_requests.specs.Requests.{ended_all};
ghost use Rattle.cluster_works.specs.Acting.{ActsFrom, AreAwake, RestartsFrom};
ghost use Rattle.cluster_works.specs.Standing.{Stands};

use crate::moves::{end, mark, mark_step, seat, see};
use crate::watch::Watching;
use cat_model::Memory;
use cluster_order::Cut;
use cluster_replicas::Servers;
use cluster_requests::Requests;
use outside::Keeper;
use std::alloc::Global;

/// The election timeout of a server is over.
pub fn time_out<K: Keeper + Drop>(
    servers: &mut Servers<K>,
    requests: &mut Requests,
    alloc: Global,
    server: u32,
) -> Result<(), Cut>
    requires first { 1 ≤ server }
    requires last { server ≤ length servers.old.servers }
    ensures { ActsFrom server (event.Timeout server) servers.old requests.old servers.new requests.new result }
{
    let before = see(servers, server);
    let made = servers.timeout(alloc, server);
    let now = see(servers, server);
    seat(servers, server, before, now);
    end(requests, server, before, now, servers.agreed(), made)
}

/// A server that leads sends its heartbeat.
pub fn beat<K: Keeper + Drop>(
    servers: &mut Servers<K>,
    requests: &mut Requests,
    alloc: Global,
    server: u32,
) -> Result<(), Cut>
    requires first { 1 ≤ server }
    requires last { server ≤ length servers.old.servers }
    ensures { ActsFrom server (event.Beat server) servers.old requests.old servers.new requests.new result }
{
    let before = see(servers, server);
    let made = servers.beat(alloc, server);
    let now = see(servers, server);
    seat(servers, server, before, now);
    end(requests, server, before, now, servers.agreed(), made)
}

/// A message reaches the server to which it goes.
pub fn deliver<K: Keeper + Drop>(
    servers: &mut Servers<K>,
    requests: &mut Requests,
    alloc: Global,
    server: u32,
    number: u64,
) -> Result<(), Cut>
    requires first { 1 ≤ server }
    requires last { server ≤ length servers.old.servers }
    requires goes { receiver (numbered number servers.old.world.bag.packets) ≡ Some server }
    ensures { ActsFrom server (event.Deliver number) servers.old requests.old servers.new requests.new result }
{
    let before = see(servers, server);
    let made = servers.deliver(alloc, number);
    let now = see(servers, server);
    seat(servers, server, before, now);
    end(requests, server, before, now, servers.agreed(), made)
}

/// A call of a server's durable store is to fail.
pub fn fail_keep<K: Keeper + Drop>(
    servers: &mut Servers<K>,
    requests: &mut Requests,
    server: u32,
    nth: u32,
)
    requires first { 1 ≤ server }
    requires last { server ≤ length servers.old.servers }
    ensures { ActsFrom server (event.FailKeep server nth) servers.old requests.old servers.new requests.new (Ok tt) }
{
    let before = see(servers, server);
    servers.fail_keep(server, nth);
    let now = see(servers, server);
    mark_step(requests, server, before, now, servers.agreed());
}

// All that a server holds is to be closed, since it restarted in the event with this number. It is awake, so that its
// numbers are known, unless memory ran out for them.
fn end_held(requests: &mut Requests, watch: &Watching, server: u32, event: u64)
    requires event { event ≡ events_in requests.old.past }
    requires numbered { Each (λ h. h.question.number ≤ requests.old.asked) requests.old.held }
    requires awake { AreAwake watch.now server requests.old.held }
    ensures { requests.new ≡ ended_all server requests.old }
{
    if watch.covers(requests.asked()) {
        requests.end_among(server, event, watch.awake());
    } else {
        requests.end_all_of(server, event);
    }
}

/// A server stops and begins again. Its store failed exactly where it is halted then, also where it was before. All that
/// it holds is awake. Nothing changes also where the count of events no longer fits.
pub fn restart<K: Keeper + Drop>(
    servers: &mut Servers<K>,
    requests: &mut Requests,
    watch: &Watching,
    alloc: Global,
    server: u32,
) -> Result<(), Cut>
    requires first { 1 ≤ server }
    requires last { server ≤ length servers.old.servers }
    requires awake { AreAwake watch.now server requests.old.held }
    requires stands { Stands watch.now servers.old.world servers.old.servers requests.old }
    ensures { RestartsFrom server (event.Restart server) watch.now servers.old requests.old servers.new requests.new result }
{
    let Some(event) = requests.events() else {
        return Err(Cut::Before);
    };
    let before = see(servers, server);
    match servers.restart(alloc, server) {
        Ok(()) => {}
        Err(Memory) => return Err(Cut::Before),
    }
    let now = see(servers, server);
    mark(
        requests,
        server,
        now.halted,
        servers.agreed(),
        before.agreed,
    );
    end_held(requests, watch, server, event);
    Ok(())
}
