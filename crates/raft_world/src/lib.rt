//! The world of all servers of Raft (the extended paper of Ongaro and Ousterhout): the messages on their way, and the
//! log that is agreed.
//!
//! # What is proved
//!
//! Each call of the world of all servers is exactly one step of Raft's world, whatever the stores do: a timeout, a
//! heartbeat, a delivery, a loss, a restart, a tick, a proposal, a probe, the arming of a store. From worlds that
//! are reached each server has committed a front of the agreed log, and that only grows. A proposal's entry has its
//! place in every world reached from there, and a round shows what was agreed when it began. Each refusal has its
//! exact cause; running out of memory leaves the world as before, or with the vote saved. No server has committed
//! more than its log has, whatever the stores held. Carried by: clauses of `World`, `Bag`, `Agreed`, `laws::*`.
#![tactic(auto)]

pub mod agreed;
pub mod bag;
mod calls;
pub mod laws;
mod leader;
mod start;
mod steps;
pub mod weight;
mod world;

pub use world::World;
