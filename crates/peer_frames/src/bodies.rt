//! The bodies of frames, read from bytes.

ghost use Rattle.command_codec.specs.Reading.{Gives};
ghost use Rattle.peer_frames.specs.Reading.{append_at, ask_vote_at, body_at, by_kind, no_at, propose_at, vote_at, yes_at};

use crate::fields::{read_entries, read_sender};
use crate::frame::{Frame, Peers};
use cat_model::Shared;
use command_codec::{Fault, ReadError, cut, read_command, read_flag, read_number};
use raft_model::Message;
use std::alloc::Global;

#[tactic(auto, unfolding(crate::specs::Reading::ask_vote_at))]
fn read_ask_vote(peers: Peers, bytes: &[u8]) -> Result<(Frame, &[u8]), ReadError>
    ensures { Gives (λ x. (x.0, x.1.now)) result (ask_vote_at peers bytes.now) }
{
    let (sender, rest) = read_sender(peers, bytes)?;
    let (term, rest) = read_number(0, u64::MAX, rest)?;
    let (last_index, rest) = read_number(0, 262_144, rest)?;
    let (last_term, rest) = read_number(0, u64::MAX, rest)?;
    let message = Message::AskVote {
        term,
        last_index,
        last_term,
    };
    Ok((Frame::Peer { sender, message }, rest))
}

#[tactic(auto, unfolding(crate::specs::Reading::vote_at))]
fn read_vote(peers: Peers, bytes: &[u8]) -> Result<(Frame, &[u8]), ReadError>
    ensures { Gives (λ x. (x.0, x.1.now)) result (vote_at peers bytes.now) }
{
    let (sender, rest) = read_sender(peers, bytes)?;
    let (term, rest) = read_number(0, u64::MAX, rest)?;
    let (granted, rest) = read_flag(rest)?;
    let message = Message::Vote { term, granted };
    Ok((Frame::Peer { sender, message }, rest))
}

#[tactic(auto, unfolding(crate::specs::Reading::append_at))]
fn read_append(alloc: Global, peers: Peers, bytes: &[u8]) -> Result<(Frame, &[u8]), ReadError>
    ensures { Gives (λ x. (x.0, x.1.now)) result (append_at peers bytes.now) }
{
    let (sender, rest) = read_sender(peers, bytes)?;
    let (term, rest) = read_number(0, u64::MAX, rest)?;
    let (prev_index, rest) = read_number(0, u64::MAX, rest)?;
    let (prev_term, rest) = read_number(0, u64::MAX, rest)?;
    let (entries, rest) = read_entries(alloc, rest)?;
    let (commit, rest) = read_number(0, u64::MAX, rest)?;
    let (round, rest) = read_number(0, u64::MAX, rest)?;
    let message = Message::Append {
        term,
        prev_index,
        prev_term,
        entries,
        commit,
        round,
    };
    Ok((Frame::Peer { sender, message }, rest))
}

#[tactic(auto, unfolding(crate::specs::Reading::yes_at))]
fn read_yes(peers: Peers, bytes: &[u8]) -> Result<(Frame, &[u8]), ReadError>
    ensures { Gives (λ x. (x.0, x.1.now)) result (yes_at peers bytes.now) }
{
    let (sender, rest) = read_sender(peers, bytes)?;
    let (term, rest) = read_number(0, u64::MAX, rest)?;
    let (matched, rest) = read_number(0, u64::MAX, rest)?;
    let (round, rest) = read_number(0, u64::MAX, rest)?;
    let message = Message::Yes {
        term,
        matched,
        round,
    };
    Ok((Frame::Peer { sender, message }, rest))
}

#[tactic(auto, unfolding(crate::specs::Reading::no_at))]
fn read_no(peers: Peers, bytes: &[u8]) -> Result<(Frame, &[u8]), ReadError>
    ensures { Gives (λ x. (x.0, x.1.now)) result (no_at peers bytes.now) }
{
    let (sender, rest) = read_sender(peers, bytes)?;
    let (term, rest) = read_number(0, u64::MAX, rest)?;
    let (last, rest) = read_number(0, u64::MAX, rest)?;
    let message = Message::No { term, last };
    Ok((Frame::Peer { sender, message }, rest))
}

#[tactic(auto, unfolding(crate::specs::Reading::propose_at))]
fn read_propose(alloc: Global, bytes: &[u8]) -> Result<(Frame, &[u8]), ReadError>
    ensures { Gives (λ x. (x.0, x.1.now)) result (propose_at bytes.now) }
{
    let (command, rest) = read_command(alloc, bytes)?;
    let command = Shared::new(alloc, command)?;
    Ok((Frame::Propose { command }, rest))
}

// The fields of the frame with this kind. A single server has no peers.
fn read_fields(
    alloc: Global,
    kind: u8,
    peers: Peers,
    bytes: &[u8],
) -> Result<(Frame, &[u8]), ReadError>
    ensures { Gives (λ x. (x.0, x.1.now)) result (by_kind kind peers bytes.now) }
{
    let bad = ReadError::Fault(Fault::Bad {
        left: bytes.len() + 1,
    });
    match kind {
        1 => {
            if peers.servers < 2 {
                return Err(bad);
            }
            read_ask_vote(peers, bytes)
        }
        2 => {
            if peers.servers < 2 {
                return Err(bad);
            }
            read_vote(peers, bytes)
        }
        3 => {
            if peers.servers < 2 {
                return Err(bad);
            }
            read_append(alloc, peers, bytes)
        }
        4 => {
            if peers.servers < 2 {
                return Err(bad);
            }
            read_yes(peers, bytes)
        }
        5 => {
            if peers.servers < 2 {
                return Err(bad);
            }
            read_no(peers, bytes)
        }
        6 => read_propose(alloc, bytes),
        7 => Ok((Frame::Status, bytes)),
        _ => Err(bad),
    }
}

/// The frame whose body begins the bytes, and the bytes after it.
pub fn read_body(alloc: Global, peers: Peers, bytes: &[u8]) -> Result<(Frame, &[u8]), ReadError>
    ensures { Gives (λ x. (x.0, x.1.now)) result (body_at peers bytes.now) }
{
    let Some((kind, rest)) = bytes.split_first() else {
        return Err(cut());
    };
    read_fields(alloc, *kind, peers, rest)
}
