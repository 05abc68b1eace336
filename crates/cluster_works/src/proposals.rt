//! What becomes of commands that a server proposes for no request.

ghost use Rattle.std.specs.Prelude.{◌≡◌, ◌≤◌, length, true};
ghost use Rattle.cluster_rules.specs.Cluster.{runs_leading};
ghost use Rattle.cluster_works.specs.Proposing.{EndsProposal, ProposesAll, ProposesOne};
ghost use Rattle.cluster_works.specs.Standing.{Stands};
ghost use Rattle.cluster_works.specs.Watching.{Watching};

use crate::copies::shared_copy;
use crate::moves::{Seen, mark_step, see};
use cat_model::{Command, Entry, Memory};
use cluster_replicas::Servers;
use cluster_requests::Requests;
use outside::Keeper;
use raft_model::Place;
use raft_node::ProposeFault;
use std::alloc::Global;

/// How far proposals of commands came: so many were entered, and where it is not whole, memory ran out before the next
/// one. A whole one stops early where the log has no room for the next one, or the server's store failed at it.
#[derive(Clone, Copy)]
pub struct Proposed {
    /// How many were entered.
    pub entered: usize,
    /// Memory sufficed.
    pub whole: bool,
}

// Marks what became of a proposal for no request, and says whether it was entered. No reply tells that it was refused.
fn end_proposal(
    requests: &mut Requests,
    server: u32,
    before: Seen,
    now: Seen,
    agreed: &[Entry],
    proposed: Result<Place, ProposeFault>,
) -> Result<bool, Memory>
    ensures { EndsProposal before now server agreed.now proposed result requests.old requests.new }
{
    match proposed {
        Ok(_) => {
            mark_step(requests, server, before, now, agreed);
            Ok(true)
        }
        Err(ProposeFault::Full | ProposeFault::Halted) => {
            mark_step(requests, server, before, now, agreed);
            Ok(false)
        }
        Err(ProposeFault::NotLeader | ProposeFault::Memory) => Err(Memory),
    }
}

// Proposes a command at a server that leads, for no request, and says whether it was entered.
fn propose_one<K: Keeper + Drop>(
    servers: &mut Servers<K>,
    requests: &mut Requests,
    alloc: Global,
    server: u32,
    command: &Command,
) -> Result<bool, Memory>
    requires first { 1 ≤ server }
    requires last { server ≤ length servers.old.servers }
    requires leads { runs_leading servers.old.world server ≡ true }
    ensures { ProposesOne server command.now servers.old requests.old servers.new requests.new result }
{
    let copy = shared_copy(alloc, command)?;
    let before = see(servers, server);
    let proposed = servers.propose(alloc, server, 0, copy);
    let now = see(servers, server);
    end_proposal(requests, server, before, now, servers.agreed(), proposed)
}

/// Proposes commands at a server that leads, in their order and for no request, up to the first that the log has no
/// room for or at which the server's store fails.
pub fn propose_all<K: Keeper + Drop>(
    servers: &mut Servers<K>,
    requests: &mut Requests,
    alloc: Global,
    server: u32,
    commands: &[Command],
) -> Proposed
    requires first { 1 ≤ server }
    requires last { server ≤ length servers.old.servers }
    requires stands { (watch : Watching) × Stands watch servers.old.world servers.old.servers requests.old }
    requires leads { runs_leading servers.old.world server ≡ true }
    ensures proposals { ProposesAll server commands.now servers.old requests.old servers.new requests.new result }
    ensures count { result.entered ≤ length commands.now }
    ensures servers { servers.new.servers ≡ servers.old.servers }
{
    let mut entered = 0;
    for command in commands {
        match propose_one(servers, requests, alloc, server, command) {
            Ok(true) => entered += 1,
            Ok(false) => {
                return Proposed {
                    entered,
                    whole: true,
                };
            }
            Err(Memory) => {
                return Proposed {
                    entered,
                    whole: false,
                };
            }
        }
    }
    Proposed {
        entered,
        whole: true,
    }
}
