//! What may be due at a server is awake before it is looked for.

ghost use Rattle.std.specs.Prelude.{◌≡◌, ◌<◌, ◌≤◌, ℕ, List, false};
ghost use Rattle.raft_model.specs.declared.message.Round.{Round as SpecRound};
ghost use Rattle.raft_model.specs.Rules.{is_confirmed};
ghost use Rattle.raft_model.specs.World.{World};
ghost use Rattle.raft_world.specs.Steps.{IsNumber};
ghost use Rattle.read_watch.specs.Watch.{AwaitsRound, IsServer};
ghost use Rattle.cluster_rules.specs.Cluster.{Server, node_of};
ghost use Rattle.cluster_works.specs.Acting.{AreAwake};
ghost use Rattle.cluster_works.specs.Looking.{OnlyAwakeIsDue, is_round_past};
ghost use Rattle.cluster_works.specs.Standing.{Stands};
ghost use Rattle.cluster_works.specs.Watching.{LeaveLine, StayAwake};

use crate::early::is_halted;
use crate::watch::Watching;
use cluster_replicas::Servers;
use cluster_requests::Requests;
use outside::Keeper;
use raft_model::Round;
use std::alloc::Global;

// A round of this term and number waits for nothing more: its term is over, or it is confirmed.
fn is_round_past<K: Keeper + Drop>(
    servers: &Servers<K>,
    server: u32,
    term: u64,
    number: u64,
) -> bool
    requires { IsNumber server servers.now.world }
    ensures { result ≡ is_round_past servers.now server term number }
{
    let round = Round {
        term,
        number,
        commit: 0,
    };
    let node = servers.node(server);
    term < node.term() || node.confirmed(&round)
}

// The first round for which a read is in line at the server waits for nothing more.
fn is_first_past<K: Keeper + Drop>(servers: &Servers<K>, watch: &Watching, server: u32) -> bool
    requires number { IsNumber server servers.now.world }
    requires server { IsServer server watch.now.watch }
    ensures { result ≡ false → (n term number : ℕ) → AwaitsRound server n term number watch.now.watch → is_round_past servers.now server term number ≡ false }
{
    match watch.first_round(server) {
        Some((term, number)) => is_round_past(servers, server, term, number),
        None => false,
    }
}

// The reads wake that are in line at the server for a round which is confirmed, or whose term is over.
fn wake_rounds<K: Keeper + Drop>(servers: &Servers<K>, watch: &mut Watching, server: u32)
    requires number { IsNumber server servers.now.world }
    requires server { IsServer server watch.old.watch }
    ensures kept { StayAwake watch.old watch.new }
    ensures lines { LeaveLine watch.old watch.new }
    ensures later { (n term number : ℕ) → AwaitsRound server n term number watch.new.watch → is_round_past servers.now server term number ≡ false }
    ensures servers { watch.new.watch.servers ≡ watch.old.watch.servers }
    ensures seen { watch.new.seen ≡ watch.old.seen }
{
    while is_first_past(servers, watch, server) {
        if !watch.wake_first_round(server) {
            return;
        }
    }
}

// New requests are taken in, and what is awake is told apart again where memory ran out before.
fn take_in(requests: &Requests, watch: &mut Watching)
    requires { watch.old.seen ≤ requests.now.asked }
    ensures stands { (w : World) (servers : List Server) → Stands watch.old w servers requests.now → Stands watch.new w servers requests.now }
    ensures servers { watch.new.watch.servers ≡ watch.old.watch.servers }
{
    watch.take_in(requests.asked());
    watch.recover(requests.held());
}

/// New requests are taken in, and then something may be due of all that a server holds.
pub fn wake_held(requests: &Requests, watch: &mut Watching, server: u32)
    requires server { IsServer server watch.old.watch }
    requires seen { watch.old.seen ≤ requests.now.asked }
    ensures stands { (w : World) (servers : List Server) → Stands watch.old w servers requests.now → Stands watch.new w servers requests.now }
    ensures awake { (w : World) (servers : List Server) → Stands watch.old w servers requests.now → AreAwake watch.new server requests.now.held }
{
    take_in(requests, watch);
    watch.rouse(server);
}

// Those wake of which something is due at a server that runs.
fn wake_ready<K: Keeper + Drop>(
    servers: &Servers<K>,
    requests: &Requests,
    watch: &mut Watching,
    alloc: Global,
    server: u32,
)
    requires server { IsNumber server servers.now.world }
    requires runs { (node_of servers.now.world server).halted ≡ false }
    requires stands { Stands watch.old servers.now.world servers.now.servers requests.now }
    ensures stands { Stands watch.new servers.now.world servers.now.servers requests.now }
    ensures awake { OnlyAwakeIsDue watch.new servers.now server requests.now.held }
{
    // What is due of the requests that are held is told by where they stand, and not by a look at each.
    let _ = requests;
    watch.wake_over(alloc, server, servers.clock(server));
    watch.wake_reached(server, servers.applied(server));
    wake_rounds(servers, watch, server);
}

/// Those wake of which something is due at the server: whose time is over, whose position is applied or whose round is
/// past there, and all that it holds once it has halted. The others are not looked at.
pub(crate) fn wake_due<K: Keeper + Drop>(
    servers: &Servers<K>,
    requests: &Requests,
    watch: &mut Watching,
    alloc: Global,
    server: u32,
)
    requires server { IsNumber server servers.now.world }
    requires stands { Stands watch.old servers.now.world servers.now.servers requests.now }
    ensures stands { Stands watch.new servers.now.world servers.now.servers requests.now }
    ensures awake { OnlyAwakeIsDue watch.new servers.now server requests.now.held }
{
    if is_halted(servers, server) {
        wake_held(requests, watch, server);
    } else {
        take_in(requests, watch);
        wake_ready(servers, requests, watch, alloc, server);
    }
}
