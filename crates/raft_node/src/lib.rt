//! What one server of Raft (the extended paper of Ongaro and Ousterhout, figure 2) does, over a durable store.
//!
//! # What is proved
//!
//! Each call of a server is a step of Raft's rules over any durable store: timeouts, heartbeats, messages received,
//! proposals, probes, starts and restarts; what it becomes, what it sends and to whom, which store calls it makes
//! and in which order, and that it halts only where one failed; a round is confirmed exactly by the rule. Carried
//! by: clauses of `Node`.
#![tactic(auto)]

pub mod acks;
pub mod appends;
pub mod batch;
mod calls;
mod counted;
mod delivery;
mod elections;
mod fault;
mod leader;
pub mod log;
mod messages;
mod node;
mod outbox;
pub mod quorum;
mod saves;
mod start;
mod state;
pub mod votes;

pub use fault::{ProbeFault, ProposeFault};
pub use node::Node;
