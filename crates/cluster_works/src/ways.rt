//! Where a request goes, by the servers.

ghost use Rattle.std.specs.Prelude.{◌≡◌, ◌<◌, ◌≤◌, ◌+◌, None, Some, false, true, length, ℕ};
ghost use Rattle.cluster_rules.specs.Cluster.{no_node, node_of, runs_leading};
ghost use Rattle.cluster_rules.specs.Requests.{Goes, asked_server, to_leader, way_of as rules_way};
ghost use Rattle.cluster_order.specs.Turns.{way_of};
ghost use Rattle.raft_world.specs.Steps.{IsNumber};
ghost use Rattle.cluster_works.specs.Going.{held_of};

use cat_model::{Held, Refusal, Role};
use cluster_order::Way;
use cluster_replicas::Servers;
use outside::Keeper;

/// The server that an agent asks.
pub fn asked_server<K: Keeper>(servers: &Servers<K>, agent: u32) -> u32
    requires first { 0 < agent }
    requires some { 0 < length servers.now.servers }
    ensures asked { result ≡ asked_server (length servers.now.servers) agent }
    ensures server { IsNumber result servers.now.world }
{
    (agent - 1) % servers.count() + 1
}

/// The server runs and leads. One that is not there does not.
pub fn runs_leading<K: Keeper>(servers: &Servers<K>, server: u32) -> bool
    requires { IsNumber server servers.now.world }
    ensures { result ≡ runs_leading servers.now.world server }
{
    let node = servers.node(server);
    !node.halted() && node.role().leads()
}

// The server has this number.
fn is_there<K: Keeper>(servers: &Servers<K>, server: u32) -> bool
    ensures there { result ≡ true → IsNumber server servers.now.world }
    ensures not { result ≡ false → node_of servers.now.world server ≡ no_node }
{
    0 < server && server <= servers.count()
}

// What is held of a server that is held for leader.
fn held_at<K: Keeper>(servers: &Servers<K>, server: u32) -> Held
    requires { IsNumber server servers.now.world }
    ensures { result ≡ held_of servers.now.world server }
{
    let node = servers.node(server);
    Held {
        server,
        term: node.term(),
        role: node.role(),
    }
}

// The way of a request from a server that runs and does not lead, and holds this one for leader.
fn way_to<K: Keeper>(servers: &Servers<K>, server: u32, leader: Option<u32>) -> Way
    requires { IsNumber server servers.now.world }
    ensures way { way_of result ≡ to_leader servers.now.world server leader }
    ensures server { (there : ℕ) → way_of result ≡ Goes there → IsNumber there servers.now.world }
{
    let node = servers.node(server);
    let held = match leader {
        None => None,
        Some(leader) if !is_there(servers, leader) => Some(Held {
            server: leader,
            term: 0,
            role: Role::Follower,
        }),
        Some(leader) => {
            if runs_leading(servers, leader) {
                return Way::Goes(leader);
            }
            Some(held_at(servers, leader))
        }
    };
    Way::Answers(Refusal::NoLeader {
        asked_term: node.term(),
        asked_role: node.role(),
        held,
    })
}

/// The way of a request that is one, from the asked server. A stale read stays there.
pub fn way_from<K: Keeper>(servers: &Servers<K>, server: u32, stale: bool) -> Way
    requires { IsNumber server servers.now.world }
    ensures way { way_of result ≡ rules_way servers.now.world server stale }
    ensures server { (there : ℕ) → way_of result ≡ Goes there → IsNumber there servers.now.world }
{
    let node = servers.node(server);
    if node.halted() {
        return Way::Answers(Refusal::Halted { server });
    }
    if stale || runs_leading(servers, server) {
        return Way::Goes(server);
    }
    way_to(servers, server, node.leader())
}
