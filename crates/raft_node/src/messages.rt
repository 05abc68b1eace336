//! What a server makes of a message: one function a rule (extended Raft paper, figure 2).

ghost use Rattle.std.specs.Prelude.{◌≡◌, ℕ, ◌∷◌, [], ◌≤◌, ◌<◌, ◌+◌, ◌-◌, ◌^◌, None, true, IfOk, length, max, min};
ghost use Rattle.raft_model.specs.declared.message.Message.TheVariants.{Yes};
ghost use Rattle.raft_model.specs.Limits.{keeps_limits};
ghost use Rattle.raft_model.specs.Log.{Log};
ghost use Rattle.raft_model.specs.Node.{Store};
ghost use Rattle.raft_model.specs.Rules.{accepts, after_yes, agreed_to, asked, counted, declined, noted, of_lower_term, of_own_term, offered, received, risen, stepped_back, term_of, voted};
ghost use Rattle.raft_node.specs.Nodes.{after, seen, Plans};
ghost use Rattle.raft_node.specs.Counts.{IsCount};
ghost use Rattle.raft_node.specs.Receiving.{IsBeside, CarriesAllowed};

use crate::appends::{Fit, fitting};
use crate::batch::copied;
use crate::counted::Counted;
use crate::leader::leads;
use crate::state::{Planned, State, Tail};
use crate::{acks, log, outbox, quorum, votes};
use cat_model::{Entry, List, Memory, Role};
use raft_model::{Message, Sent};
use std::alloc::Global;

// The log stays, and nothing is sent.
fn quiet(alloc: Global, state: State) -> Planned
    ensures { result ≡ record { state = state; tail = None; sent = [] } }
{
    Planned {
        state,
        tail: None,
        sent: List::new(alloc),
    }
}

// One message is sent.
fn reply(
    alloc: Global,
    state: State,
    tail: Option<Tail>,
    to: u32,
    message: Message,
) -> Result<Planned, Memory>
    ensures { IfOk result (λ planned. planned ≡ record { state = state; tail = tail; sent = record { to = to; message = message } ∷ [] }) }
{
    let mut sent = List::new(alloc);
    sent.push(Sent { to, message })?;
    Ok(Planned { state, tail, sent })
}

/// A message of a higher term makes a server a follower of that term, with no vote and no known leader.
fn risen(state: State, term: u64) -> State
    ensures seen { (store : Store) (log : Log) → seen store result log ≡ risen (seen store state log) term }
    ensures running { result.halted ≡ state.halted }
    ensures commit { result.commit ≡ state.commit }
{
    if state.term < term {
        return State {
            term,
            vote: None,
            role: Role::Follower,
            leader: None,
            ..state
        };
    }
    state
}

// A vote is granted where there is none or one for the sender, whose log is not behind.
fn asked(
    alloc: Global,
    mut state: State,
    log: &[Entry],
    from: u32,
    last_index: u64,
    last_term: u64,
) -> Result<Planned, Memory>
    ensures { IfOk result (Plans (λ n. asked n from last_index last_term) state log.now) }
{
    let term = state.term;
    if votes::grants(state.vote, log, from, last_index, last_term) {
        state.vote = Some(from);
        let granted = Message::Vote {
            term,
            granted: true,
        };
        let planned = reply(alloc, state, None, from, granted)?;
        return Ok(planned);
    }
    let declined = Message::Vote {
        term,
        granted: false,
    };
    let planned = reply(alloc, state, None, from, declined)?;
    Ok(planned)
}

// A candidate with a majority of votes leads.
fn counted(alloc: Global, state: State, log: &[Entry]) -> Result<Planned, Memory>
    ensures { IfOk result (Plans counted state log.now) }
{
    if quorum::has_majority(state.servers, &state.votes) {
        let planned = leads(alloc, state, log)?;
        return Ok(planned);
    }
    Ok(quiet(alloc, state))
}

// A candidate counts a vote that was granted, once for each voter.
fn voted(
    alloc: Global,
    mut state: State,
    log: &[Entry],
    from: u32,
    granted: bool,
) -> Result<Planned, Memory>
    ensures { IfOk result (Plans (λ n. voted n from granted n.role) state log.now) }
{
    match state.role {
        Role::Candidate => {
            if !granted {
                return Ok(quiet(alloc, state));
            }
            state.votes = votes::with_voter(alloc, &state.votes, from)?;
            let planned = counted(alloc, state, log)?;
            Ok(planned)
        }
        Role::Leader | Role::Follower => Ok(quiet(alloc, state)),
    }
}

// The commit becomes the greater of itself and the smaller of the message's commit and the last index that the message
// tells of, and the answer is Yes.
fn taken(
    alloc: Global,
    mut state: State,
    tail: Option<Tail>,
    from: u32,
    last: u64,
    commit: u64,
    round: u64,
) -> Result<Planned, Memory>
    ensures { IfOk result (λ planned. planned ≡ record {
      state = record state { commit = max state.commit (min commit last) };
      tail = tail;
      sent = record { to = from; message = Yes state.term last round } ∷ [];
    }) }
{
    let answer = Message::Yes {
        term: state.term,
        matched: last,
        round,
    };
    state.commit = state.commit.max(commit.min(last));
    let planned = reply(alloc, state, tail, from, answer)?;
    Ok(planned)
}

// The entries of an Append come into the log behind index `prev`, where no committed entry would be cut for them and
// the log keeps its limits.
fn accepts(
    alloc: Global,
    mut state: State,
    log: &[Entry],
    counted: &mut Counted,
    from: u32,
    prev: u64,
    entries: &[Entry],
    commit: u64,
    round: u64,
) -> Result<Planned, Memory>
    requires behind { prev ≤ length log.now }
    requires beside { IsBeside state log.now counted.old }
    requires entries { keeps_limits entries.now ≡ true }
    ensures counted { IsCount log.now counted.new }
    ensures plan { IfOk result (Plans (λ n. accepts n from prev entries.now commit round) state log.now) }
{
    let last = prev + entries.len() as u64;
    state.role = Role::Follower;
    state.leader = Some(from);
    match fitting(log, counted, state.commit, prev as usize, entries) {
        Fit::Refused => Ok(quiet(alloc, state)),
        Fit::Stands => {
            let planned = taken(alloc, state, None, from, last, commit, round)?;
            Ok(planned)
        }
        Fit::Changes { kept, passed } => {
            let rest = copied(alloc, &entries[passed..])?;
            let tail = Tail {
                keep: kept,
                entries: rest,
            };
            let planned = taken(alloc, state, Some(tail), from, last, commit, round)?;
            Ok(planned)
        }
    }
}

// An Append of the own term.
fn offered(
    alloc: Global,
    mut state: State,
    log: &[Entry],
    counted: &mut Counted,
    from: u32,
    prev: u64,
    prev_term: u64,
    entries: &[Entry],
    commit: u64,
    round: u64,
) -> Result<Planned, Memory>
    requires beside { IsBeside state log.now counted.old }
    requires entries { keeps_limits entries.now ≡ true }
    ensures counted { IsCount log.now counted.new }
    ensures plan { IfOk result (Plans (λ n. offered n n.role from prev prev_term entries.now commit round) state log.now) }
{
    match state.role {
        Role::Leader => Ok(quiet(alloc, state)),
        Role::Follower | Role::Candidate => {
            if log::matches(log, prev, prev_term) {
                let planned = accepts(
                    alloc, state, log, counted, from, prev, entries, commit, round,
                )?;
                return Ok(planned);
            }
            let answer = Message::No {
                term: state.term,
                last: log.len() as u64,
            };
            state.role = Role::Follower;
            state.leader = Some(from);
            let planned = reply(alloc, state, None, from, answer)?;
            Ok(planned)
        }
    }
}

// What a leader notes of a server that said Yes.
fn noted(mut state: State, from: u32, matched: u64, round: u64) -> State
    requires { matched < 2 ^ 64 - 1 }
    ensures seen { (store : Store) (log : Log) → seen store result log ≡ noted (seen store state log) from matched round }
    ensures running { result.halted ≡ state.halted }
    ensures commit { result.commit ≡ state.commit }
{
    acks::raise(&mut state.matched, from, matched);
    acks::raise(&mut state.acked, from, round);
    acks::raise(&mut state.next, from, matched + 1);
    state
}

// Where the commit rose, Append goes to all others, else to the sender where it lacks entries.
fn after_yes(
    alloc: Global,
    state: State,
    log: &[Entry],
    before: u64,
    from: u32,
) -> Result<Planned, Memory>
    ensures { IfOk result (Plans (λ n. after_yes (record n { commit = before }) n from) state log.now) }
{
    if before < state.commit {
        let sent = outbox::append_all(alloc, &state, log, &[])?;
        return Ok(Planned {
            state,
            tail: None,
            sent,
        });
    }
    if quorum::of_server(&state.next, from) <= log.len() as u64 {
        let append = outbox::append_to(alloc, &state, log, &[], from)?;
        let planned = reply(alloc, state, None, from, append)?;
        return Ok(planned);
    }
    Ok(quiet(alloc, state))
}

// A Yes of the own term.
fn agreed_to(
    alloc: Global,
    state: State,
    log: &[Entry],
    from: u32,
    matched: u64,
    round: u64,
) -> Result<Planned, Memory>
    ensures { IfOk result (Plans (λ n. agreed_to n n.role from matched round) state log.now) }
{
    match state.role {
        Role::Leader => {
            if matched > log.len() as u64 {
                return Ok(quiet(alloc, state));
            }
            let before = state.commit;
            let mut leader = noted(state, from, matched, round);
            leader.commit = quorum::committed(
                leader.id,
                leader.servers,
                leader.term,
                before,
                log,
                &leader.matched,
            );
            let planned = after_yes(alloc, leader, log, before, from)?;
            Ok(planned)
        }
        Role::Follower | Role::Candidate => Ok(quiet(alloc, state)),
    }
}

// A server that said No is sent entries from an earlier index. No log is so long that none comes behind its last.
fn stepped_back(mut state: State, from: u32, last: u64) -> Result<State, Memory>
    ensures seen { IfOk result (λ leader. (store : Store) (log : Log) → seen store leader log ≡ stepped_back (seen store state log) from last) }
    ensures running { IfOk result (λ leader. leader.halted ≡ state.halted) }
    ensures commit { IfOk result (λ leader. leader.commit ≡ state.commit) }
{
    let matched = quorum::of_server(&state.matched, from);
    let next = quorum::of_server(&state.next, from);
    let Some(back) = acks::stepped_back(next, matched, last) else {
        return Err(Memory);
    };
    acks::put(&mut state.next, from, back);
    Ok(state)
}

// A No of the own term.
fn declined(
    alloc: Global,
    state: State,
    log: &[Entry],
    from: u32,
    last: u64,
) -> Result<Planned, Memory>
    ensures { IfOk result (Plans (λ n. declined n n.role from last) state log.now) }
{
    match state.role {
        Role::Leader => {
            let leader = stepped_back(state, from, last)?;
            let append = outbox::append_to(alloc, &leader, log, &[], from)?;
            let planned = reply(alloc, leader, None, from, append)?;
            Ok(planned)
        }
        Role::Follower | Role::Candidate => Ok(quiet(alloc, state)),
    }
}

// A message of the own term.
fn of_own_term(
    alloc: Global,
    state: State,
    log: &[Entry],
    counted: &mut Counted,
    from: u32,
    message: &Message,
) -> Result<Planned, Memory>
    requires beside { IsBeside state log.now counted.old }
    requires entries { CarriesAllowed message.now }
    ensures counted { IsCount log.now counted.new }
    ensures plan { IfOk result (Plans (λ n. of_own_term n from message.now) state log.now) }
{
    match message {
        Message::AskVote {
            last_index,
            last_term,
            ..
        } => asked(alloc, state, log, from, *last_index, *last_term),
        Message::Vote { granted, .. } => voted(alloc, state, log, from, *granted),
        Message::Append {
            prev_index,
            prev_term,
            entries,
            commit,
            round,
            ..
        } => offered(
            alloc,
            state,
            log,
            counted,
            from,
            *prev_index,
            *prev_term,
            entries.as_slice(),
            *commit,
            *round,
        ),
        Message::Yes { matched, round, .. } => {
            agreed_to(alloc, state, log, from, *matched, *round)
        }
        Message::No { last, .. } => declined(alloc, state, log, from, *last),
    }
}

// A message of a lower term: an AskVote is not granted, an Append declined, and the others are ignored.
fn of_lower_term(
    alloc: Global,
    state: State,
    log: &[Entry],
    from: u32,
    message: &Message,
) -> Result<Planned, Memory>
    ensures { IfOk result (Plans (λ n. of_lower_term n from message.now) state log.now) }
{
    let term = state.term;
    match message {
        Message::AskVote { .. } => {
            let answer = Message::Vote {
                term,
                granted: false,
            };
            let planned = reply(alloc, state, None, from, answer)?;
            Ok(planned)
        }
        Message::Append { .. } => {
            let answer = Message::No {
                term,
                last: log.len() as u64,
            };
            let planned = reply(alloc, state, None, from, answer)?;
            Ok(planned)
        }
        Message::Vote { .. } | Message::Yes { .. } | Message::No { .. } => {
            Ok(quiet(alloc, state))
        }
    }
}

// The term of a message's sender.
fn term_of(message: &Message) -> u64
    ensures { result ≡ term_of message.now }
{
    match message {
        Message::AskVote { term, .. }
        | Message::Vote { term, .. }
        | Message::Append { term, .. }
        | Message::Yes { term, .. }
        | Message::No { term, .. } => *term,
    }
}

/// What a server with this state and log, of whose log so much is counted, plans on a message.
pub fn received(
    alloc: Global,
    state: &State,
    log: &[Entry],
    counted: &mut Counted,
    from: u32,
    message: &Message,
) -> Result<Planned, Memory>
    requires beside { IsBeside state.now log.now counted.old }
    requires entries { CarriesAllowed message.now }
    ensures counted { IsCount log.now counted.new }
    ensures plan { IfOk result (Plans (λ n. received n from message.now) state.now log.now) }
{
    let copy = state.copy(alloc)?;
    let term = term_of(message);
    if term < copy.term {
        let planned = of_lower_term(alloc, copy, log, from, message)?;
        return Ok(planned);
    }
    let planned = of_own_term(alloc, risen(copy, term), log, counted, from, message)?;
    Ok(planned)
}
