ghost use Rattle.std.specs.Prelude.{◌≡◌, ◌&&◌, IfOk};
ghost use Rattle.raft_model.specs.Rules.{is_up_to_date, may_vote, with_voter};

use crate::log::is_up_to_date;
use crate::quorum::is_member;
use cat_model::{Entry, Memory};
use std::alloc::Global;

/// There is no vote, or one for this server.
pub fn may_vote(vote: Option<u32>, from: u32) -> bool
    ensures { result ≡ may_vote vote from }
{
    match vote {
        None => true,
        Some(chosen) => chosen == from,
    }
}

/// A server with this vote and log grants its vote to a candidate: it has none or one for it, and the candidate's log,
/// of this last index and term, is not behind.
pub fn grants(vote: Option<u32>, log: &[Entry], from: u32, last_index: u64, last_term: u64) -> bool
    ensures { result ≡ (may_vote vote from && is_up_to_date last_term last_index log.now) }
{
    may_vote(vote, from) && is_up_to_date(last_term, last_index, log)
}

/// The voters with this one, who is put last where it is not among them.
pub fn with_voter(alloc: Global, votes: &[u32], from: u32) -> Result<Vec<u32>, Memory>
    ensures { IfOk result (λ all. all.items ≡ with_voter votes.now from) }
{
    let mut all = Vec::from_slice(alloc, votes)?;
    if !is_member(votes, from) {
        all.push(from)?;
    }
    Ok(all)
}
