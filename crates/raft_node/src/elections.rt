//! Standing for election.

ghost use Rattle.std.specs.Prelude.{◌≡◌, ◌-◌, ◌^◌, ◌<◌, IfOk};
ghost use Rattle.raft_node.specs.Nodes.{Plans, elects};

use crate::leader::leads;
use crate::outbox::ask_all;
use crate::state::{Planned, State};
use cat_model::{Entry, Memory, Role};
use std::alloc::Global;

/// A server with this state and log that does not lead times out: it stands for the next term and votes for itself. It
/// asks all others for their votes, and leads at once where there are none.
pub fn elects(alloc: Global, old: &State, log: &[Entry]) -> Result<Planned, Memory>
    requires { old.now.term < 2 ^ 64 - 1 }
    ensures { IfOk result (Plans elects old.now log.now) }
{
    let mut state = old.copy(alloc)?;
    let mut votes = Vec::new(alloc);
    votes.push(state.id)?;
    state.term = old.term + 1;
    state.vote = Some(state.id);
    state.role = Role::Candidate;
    state.leader = None;
    state.votes = votes;
    if state.servers == 1 {
        return leads(alloc, state, log);
    }
    let sent = ask_all(alloc, &state, log)?;
    Ok(Planned {
        state,
        tail: None,
        sent,
    })
}
