//! What the process of one Raft node does with a frame, with the time, and with what it has to send, over a dialer that
//! brings bytes to the ports of its peers.
//!
//! # What is proved
//!
//! A frame of a peer is received, a proposal is answered by its place or by why it has none, and a question by the
//! node's state; nothing else changes the host or is answered. A leader's heartbeat and another server's election
//! timeout come exactly where they are due; that timeout is put off by an Append of the leader that the host follows and
//! by a vote that it grants, and by nothing else. The dialer is brought the frames of the outbox, each once and in order,
//! whatever became of those before it; where none of its calls failed it took them all. Which server of how many it is
//! never changes. No server uses it yet. Carried by: clauses of `NodeProcess`, the trait `Dialer`.
#![tactic(auto)]

mod alarm;
mod answers;
mod dialer;
mod mem_dialer;
mod outbox;
mod process;
#[cfg(test)]
mod tests;

pub use dialer::{Dialer, Piece};
pub use mem_dialer::MemDialer;
pub use process::NodeProcess;
