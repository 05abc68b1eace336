//! One Raft node that runs as a process of its own: what it did is told in proofs as a journal that the rules allow, and
//! what it made for its peers waits in an outbox, in which nothing is that no step sent.
//!
//! # What is proved
//!
//! What a process with one node did is a journal that Raft's rules allow, told in proofs alone; each call is one
//! step of it or changes nothing, also where memory ran out after a vote was kept; and what waits to be sent was
//! sent in a step of it, but for messages that found no room, which are counted. A host is always the same server of a
//! cluster of as many servers. Hosts whose links deliver only what was sent have one log and one leader a term.
//! Carried by: clauses of `Host`, `laws::*`.
#![tactic(auto)]

mod happened;
mod history;
mod host;
pub mod laws;
mod outbox;
mod status;
#[cfg(test)]
mod tests;

pub use host::Host;
pub use status::Status;
