//! The cluster of several servers: their world, and what each has applied.
//!
//! # What is proved
//!
//! The servers of a cluster over their world: what a server has applied is a front of its own node's log, of
//! committed entries, whatever its store held; applying its next position is exactly the rules' step, at its
//! clock's time; a read gives the answer and the index at exactly what it has applied, and the answer to the last
//! command is the machine's; servers begin with nothing applied; a server's lock delays, what a prepared query
//! gives, a session's row and the rows of one node are those of what it has applied; renewing, ending and looking
//! change its office as the rules say; the world's steps change nothing that is applied, but for a restart, after
//! which that server has applied nothing; the terms of what is applied. Carried by: clauses of `Servers`.
#![tactic(auto)]

mod decisions;
mod messages;
mod remote;
mod servers;
mod session_ends;
mod start;
mod steps;
mod terms;

pub use servers::Servers;
