//! Becoming a leader, and a leader's new entries.

ghost use Rattle.std.specs.Prelude.{◌≡◌, ◌==◌, cond, IfOk, true, ◌∷◌, ◌++◌, [], replicate};
ghost use Rattle.cat_model.specs.LogLimits.{keeps_limits};
ghost use Rattle.raft_model.specs.Rules.{leads};
ghost use Rattle.raft_node.specs.Nodes.{Plans, appends};

use crate::counted::MOST_LOG_ENTRIES;
use crate::outbox::append_all;
use crate::state::{Planned, State, Tail};
use cat_model::{Command, Entry, List, Memory, Role, Shared};
use std::alloc::Global;

// The same number for each server.
fn for_all(alloc: Global, servers: u32, number: u64) -> Result<Vec<u64>, Memory>
    ensures { IfOk result (λ numbers. numbers.items ≡ replicate servers number) }
{
    let mut numbers = Vec::new(alloc);
    numbers.resize(servers as usize, number)?;
    Ok(numbers)
}

// The commit of a leader that appended its entry of this index. A single server has a majority.
fn commit_of(servers: u32, commit: u64, last: u64) -> u64
    ensures { result ≡ cond (servers == 1) last commit }
{
    if servers == 1 { last } else { commit }
}

/// A leader with this state and log appends the entry and sends Append to all others. A single server commits it.
pub fn appends(
    alloc: Global,
    mut state: State,
    log: &[Entry],
    entry: Entry,
) -> Result<Planned, Memory>
    requires limits { keeps_limits log.now ≡ true → keeps_limits (log.now ++ entry ∷ []) ≡ true }
    ensures { IfOk result (Plans (appends entry) state log.now) }
{
    state.commit = commit_of(state.servers, state.commit, log.len() as u64 + 1);
    let mut entries = List::new(alloc);
    entries.push(entry)?;
    let sent = append_all(alloc, &state, log, entries.as_slice())?;
    let tail = Tail {
        keep: log.len(),
        entries,
    };
    Ok(Planned {
        state,
        tail: Some(tail),
        sent,
    })
}

/// A server with this state and log leads: it appends a Noop, unless its log is full in entries, and sends Append to
/// all others.
pub fn leads(alloc: Global, mut state: State, log: &[Entry]) -> Result<Planned, Memory>
    ensures { IfOk result (Plans leads state log.now) }
{
    state.role = Role::Leader;
    state.next = for_all(alloc, state.servers, log.len() as u64 + 1)?;
    state.matched = for_all(alloc, state.servers, 0)?;
    state.acked = for_all(alloc, state.servers, 0)?;
    state.round = 0;
    if log.len() >= MOST_LOG_ENTRIES {
        let sent = append_all(alloc, &state, log, &[])?;
        return Ok(Planned {
            state,
            tail: None,
            sent,
        });
    }
    let noop = Entry {
        term: state.term,
        number: 0,
        command: Shared::new(alloc, Command::Noop)?,
    };
    appends(alloc, state, log, noop)
}
