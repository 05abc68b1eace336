//! Servers in the words of a case: `ROLE in TERM, commit COMMIT, log LOG`, where ROLE is `leader`, `candidate`,
//! `follower of LEADER`, `follower` where no leader is known, or `halted`.

use crate::words::answered;
use crate::{logs, messages};
use cat_model::{Memory, Role};
use outside::SureKeeper;
use raft_model::{Place, Round, Sent};
use raft_node::{Node, ProbeFault, ProposeFault};
use std::alloc::{AllocError, Global};
use std::fmt::Write;

/// What a line gives that says nothing.
pub fn unread(alloc: Global) -> Result<String, Memory> {
    Ok(String::from_str(alloc, "not read")?)
}

/// A number, or that none was read.
pub fn counted(alloc: Global, number: Option<u64>) -> Result<String, Memory> {
    match number {
        None => unread(alloc),
        Some(number) => Ok(format!(in alloc; "{number}")?),
    }
}

/// `yes` or `no`, or that neither was read.
pub fn tested(alloc: Global, is: Option<bool>) -> Result<String, Memory> {
    match is {
        None => unread(alloc),
        Some(is) => Ok(String::from_str(alloc, answered(is))?),
    }
}

/// A server.
pub fn put_node(out: &mut String, node: &Node<SureKeeper>) -> Result<(), AllocError> {
    put_role(out, node)?;
    let term = node.term();
    let commit = node.commit();
    write!(out, " in {term}, commit {commit}, log ")?;
    logs::put(out, node.log().as_slice())
}

fn put_role(out: &mut String, node: &Node<SureKeeper>) -> Result<(), AllocError> {
    if node.halted() {
        return out.push_str("halted");
    }
    match node.role() {
        Role::Leader => out.push_str("leader"),
        Role::Candidate => out.push_str("candidate"),
        Role::Follower => put_follower(out, node.leader()),
    }
}

fn put_follower(out: &mut String, leader: Option<u32>) -> Result<(), AllocError> {
    match leader {
        None => out.push_str("follower"),
        Some(leader) => write!(out, "follower of {leader}"),
    }
}

/// What is sent, each as `; to SERVER MESSAGE`.
pub fn put_sent(out: &mut String, sent: &[Sent]) -> Result<(), AllocError> {
    for one in sent {
        let to = one.to;
        write!(out, "; to {to} ")?;
        messages::put(out, &one.message)?;
    }
    Ok(())
}

/// `at INDEX of TERM; `.
pub fn put_place(out: &mut String, place: Place) -> Result<(), AllocError> {
    let index = place.index;
    let term = place.term;
    write!(out, "at {index} of {term}; ")
}

/// `round NUMBER of TERM at COMMIT; `.
pub fn put_round(out: &mut String, round: Round) -> Result<(), AllocError> {
    let number = round.number;
    let term = round.term;
    let commit = round.commit;
    write!(out, "round {number} of {term} at {commit}; ")
}

/// Why a proposal was refused.
pub fn refused(fault: ProposeFault) -> &'static str {
    match fault {
        ProposeFault::NotLeader => "not leader; ",
        ProposeFault::Halted => "refused as halted; ",
        ProposeFault::Full => "full; ",
        ProposeFault::Memory => "out of memory; ",
    }
}

/// Why no round was begun.
pub fn unprobed(fault: ProbeFault) -> &'static str {
    match fault {
        ProbeFault::NotLeader => "not leader; ",
        ProbeFault::Memory => "out of memory; ",
    }
}
