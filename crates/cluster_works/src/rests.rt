//! What is held rests: reads that wait for an index sleep until what they read is changed or their time is over, and
//! what waits for a position or a round is in line for it.

ghost use Rattle.std.specs.Prelude.{◌≡◌, None, Some};
ghost use Rattle.raft_world.specs.Steps.{IsNumber};
ghost use Rattle.cluster_rules.specs.Due.{due};
ghost use Rattle.cluster_works.specs.Looking.{numbered_in};
ghost use Rattle.cluster_works.specs.Standing.{Stands};
ghost use Rattle.cluster_works.specs.Working.{whole};

use crate::waits::waits_for;
use crate::watch::Watching;
use cluster_replicas::Servers;
use cluster_requests::{Pending, Requests, Stand};
use outside::Keeper;
use std::alloc::Global;

// A read that waits for an index and is awake goes to sleep.
fn rest_read<K: Keeper + Drop>(
    servers: &Servers<K>,
    requests: &Requests,
    watch: &mut Watching,
    alloc: Global,
    server: u32,
    held: &Pending,
)
    requires server { IsNumber server servers.now.world }
    requires stands { Stands watch.old servers.now.world servers.now.servers requests.now }
    requires none { due server (whole servers.now requests.now) ≡ None }
    requires held { numbered_in held.now.question.number requests.now.held ≡ Some held.now }
    requires here { held.now.server ≡ server }
    ensures { Stands watch.new servers.now.world servers.now.servers requests.now }
{
    // The contract names the requests, which this call leaves as they are.
    let _ = requests;
    if let Some((query, deadline)) = waits_for(held) {
        let Ok(chans) = servers.chans(alloc, server, query) else {
            return;
        };
        watch.sleep(alloc, server, held.number(), &chans, deadline);
        drop(chans);
    }
}

// A held request that is awake sleeps or is in line, by what it waits for. What is to be closed stays awake.
fn rest_held<K: Keeper + Drop>(
    servers: &Servers<K>,
    requests: &Requests,
    watch: &mut Watching,
    alloc: Global,
    server: u32,
    held: &Pending,
)
    requires server { IsNumber server servers.now.world }
    requires stands { Stands watch.old servers.now.world servers.now.servers requests.now }
    requires none { due server (whole servers.now requests.now) ≡ None }
    requires held { numbered_in held.now.question.number requests.now.held ≡ Some held.now }
    requires here { held.now.server ≡ server }
    ensures { Stands watch.new servers.now.world servers.now.servers requests.now }
{
    match held.stand() {
        Stand::AtPlace { index, .. } => watch.await_position(server, held.number(), index),
        Stand::InRound { round, .. } => {
            watch.await_round(server, held.number(), round.term, round.number);
        }
        Stand::ForIndex { .. } => rest_read(servers, requests, watch, alloc, server, held),
        Stand::Ended { .. } => {}
    }
}

// The request that is awake at this place rests, if the server holds it. One that is not held is not awake any more.
fn rest_at<K: Keeper + Drop>(
    servers: &Servers<K>,
    requests: &Requests,
    watch: &mut Watching,
    alloc: Global,
    server: u32,
    at: usize,
)
    requires server { IsNumber server servers.now.world }
    requires stands { Stands watch.old servers.now.world servers.now.servers requests.now }
    requires none { due server (whole servers.now requests.now) ≡ None }
    ensures { Stands watch.new servers.now.world servers.now.servers requests.now }
{
    let Some(number) = watch.awake().get(at).copied() else {
        return;
    };
    match requests.pending(number) {
        Some(held) => {
            if held.server() == server {
                rest_held(servers, requests, watch, alloc, server, held);
            }
        }
        None => watch.forget(server, number),
    }
}

/// What is awake of a server at which nothing is due rests.
pub(crate) fn rest<K: Keeper + Drop>(
    servers: &Servers<K>,
    requests: &Requests,
    watch: &mut Watching,
    alloc: Global,
    server: u32,
)
    requires server { IsNumber server servers.now.world }
    requires stands { Stands watch.old servers.now.world servers.now.servers requests.now }
    requires none { due server (whole servers.now requests.now) ≡ None }
    ensures { Stands watch.new servers.now.world servers.now.servers requests.now }
{
    let mut at = watch.awake().len();
    while 0 < at {
        at -= 1;
        rest_at(servers, requests, watch, alloc, server, at);
    }
}
