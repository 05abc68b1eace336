//! The marks of a step that a server's node made.

ghost use Rattle.std.specs.Prelude.{◌≡◌, ◌≤◌, length};
ghost use Rattle.raft_world.specs.Steps.{IsNumber};
ghost use Rattle.cluster_works.specs.Moving.{Ends, IsMarked, MarksStep, Seats, seen_of};

use cat_model::{Entry, Memory};
use cluster_order::Cut;
use cluster_replicas::Servers;
use cluster_requests::Requests;
use outside::Keeper;

/// What is seen of a server, and of the agreed log.
#[derive(Clone, Copy)]
pub struct Seen {
    /// Its durable store failed.
    pub halted: bool,
    /// It runs and leads.
    pub leads: bool,
    /// The term of its node.
    pub term: u64,
    /// How many entries are agreed.
    pub agreed: u64,
}

/// What is seen of a server now.
pub fn see<K: Keeper>(servers: &Servers<K>, server: u32) -> Seen
    requires first { 1 ≤ server }
    requires last { server ≤ length servers.now.servers }
    ensures seen { result ≡ seen_of servers.now.world server }
    ensures number { IsNumber server servers.now.world }
{
    prove!(server <= servers.count());
    let node = servers.node(server);
    Seen {
        halted: node.halted(),
        leads: !node.halted() && node.role().leads(),
        term: node.term(),
        agreed: servers.agreed().len() as u64,
    }
}

/// A server that leads now, and did not before in this term, takes office.
pub fn seat<K: Keeper>(servers: &mut Servers<K>, server: u32, before: Seen, now: Seen)
    requires { IsNumber server servers.old.world }
    ensures { Seats before now server servers.old servers.new }
{
    if now.leads && !(before.leads && before.term == now.term) {
        servers.lead(server);
    }
}

/// Marks that a server's store failed, where it did, and that the entries of the agreed log from this place on joined it.
pub fn mark(requests: &mut Requests, server: u32, failed: bool, agreed: &[Entry], from: u64)
    ensures { IsMarked failed server from agreed.now requests.old requests.new }
{
    if failed {
        requests.halt(server);
    }
    requests.join(agreed, from);
}

/// Marks a step of a server, by what was seen before and what is seen now.
pub fn mark_step(requests: &mut Requests, server: u32, before: Seen, now: Seen, agreed: &[Entry])
    ensures { MarksStep before now server agreed.now requests.old requests.new }
{
    let failed = !before.halted && now.halted;
    mark(requests, server, failed, agreed, before.agreed);
}

/// Marks what a call did at a server. Where it found no memory, the server's term tells whether a vote was saved.
pub fn end(
    requests: &mut Requests,
    server: u32,
    before: Seen,
    now: Seen,
    agreed: &[Entry],
    made: Result<(), Memory>,
) -> Result<(), Cut>
    ensures { Ends before now server agreed.now made result requests.old requests.new }
{
    match made {
        Ok(()) => {
            mark_step(requests, server, before, now, agreed);
            Ok(())
        }
        Err(Memory) if now.term == before.term => Err(Cut::Before),
        Err(Memory) => {
            mark_step(requests, server, before, now, agreed);
            Err(Cut::Within)
        }
    }
}
