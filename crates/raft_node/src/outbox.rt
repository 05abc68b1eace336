//! The messages that a server sends to the others.

ghost use Rattle.std.specs.Prelude.{◌≡◌, ◌++◌, IfOk, take, drop};
ghost use Rattle.raft_model.specs.Log.{term_at, last_term};
ghost use Rattle.raft_model.specs.Limits.{batch};
ghost use Rattle.raft_model.specs.Rules.{append_to, append_all, ask_all};
ghost use Rattle.raft_node.specs.Nodes.{seen, nowhere};

use crate::batch::{batch_length, copied};
use crate::log;
use crate::quorum::of_server;
use crate::state::State;
use cat_model::{Entry, List, Memory};
use raft_model::{Message, Sent};
use std::alloc::Global;

// No Append carries more entries.
const MOST_ENTRIES: usize = 64;

// Copies of the first so many entries.
fn front(alloc: Global, entries: &[Entry], most: usize) -> Result<List<Entry>, Memory>
    ensures { IfOk result (λ front. front ≡ take most entries.now) }
{
    let count = entries.len().min(most);
    copied(alloc, &entries[..count])
}

// Copies of the entries behind index `prev` of a log with more entries behind it, as many as an Append may carry.
fn window(alloc: Global, log: &[Entry], more: &[Entry], prev: u64) -> Result<Vec<Entry>, Memory>
    ensures { IfOk result (λ window. window.items ≡ take 64 (drop prev (log.now ++ more.now))) }
{
    let start = prev.min(log.len() as u64);
    let skipped = (prev - start).min(more.len() as u64);
    let first = front(alloc, &log[start as usize..], MOST_ENTRIES)?;
    let left = MOST_ENTRIES - first.len();
    let rest = front(alloc, &more[skipped as usize..], left)?;
    let mut window = first.into_vec();
    window.append(&mut rest.into_vec())?;
    Ok(window)
}

// The term at an index of a log with more entries behind it.
fn term_at(log: &[Entry], more: &[Entry], index: u64) -> u64
    ensures { result ≡ term_at index (log.now ++ more.now) }
{
    let last = log.len() as u64;
    if index <= last {
        log::term_at(log, index)
    } else {
        log::term_at(more, index - last)
    }
}

// The entries of an Append behind index `prev`.
fn carried(alloc: Global, log: &[Entry], more: &[Entry], prev: u64) -> Result<List<Entry>, Memory>
    ensures { IfOk result (λ carried. carried ≡ batch (drop prev (log.now ++ more.now))) }
{
    let mut entries = window(alloc, log, more, prev)?;
    let count = batch_length(&entries);
    entries.truncate(count);
    Ok(List::from(entries))
}

/// The Append for a server, of a leader with this state whose log is this one with `more` behind it.
pub fn append_to(
    alloc: Global,
    state: &State,
    log: &[Entry],
    more: &[Entry],
    peer: u32,
) -> Result<Message, Memory>
    ensures { IfOk result (λ message. message ≡ append_to (seen nowhere state.now (log.now ++ more.now)) peer) }
{
    let prev = of_server(&state.next, peer).saturating_sub(1);
    Ok(Message::Append {
        term: state.term,
        prev_index: prev,
        prev_term: term_at(log, more, prev),
        entries: carried(alloc, log, more, prev)?,
        commit: state.commit,
        round: state.round,
    })
}

/// The Appends for all others in ascending order, of a leader with this state whose log is this one with `more` behind
/// it.
pub fn append_all(
    alloc: Global,
    state: &State,
    log: &[Entry],
    more: &[Entry],
) -> Result<List<Sent>, Memory>
    ensures { IfOk result (λ sent. sent ≡ (append_all (seen nowhere state.now (log.now ++ more.now))).sent) }
{
    let mut sent = List::new(alloc);
    for before in 0..state.servers {
        let peer = before + 1;
        if peer != state.id {
            let message = append_to(alloc, state, log, more, peer)?;
            sent.push(Sent { to: peer, message })?;
        }
    }
    Ok(sent)
}

/// The AskVotes for all others in ascending order, of a candidate with this state and log.
pub fn ask_all(alloc: Global, state: &State, log: &[Entry]) -> Result<List<Sent>, Memory>
    ensures { IfOk result (λ sent. sent ≡ (ask_all (seen nowhere state.now log.now)).sent) }
{
    let last_term = log::last_term(log);
    let mut sent = List::new(alloc);
    for before in 0..state.servers {
        let peer = before + 1;
        if peer != state.id {
            let message = Message::AskVote {
                term: state.term,
                last_index: log.len() as u64,
                last_term,
            };
            sent.push(Sent { to: peer, message })?;
        }
    }
    Ok(sent)
}
