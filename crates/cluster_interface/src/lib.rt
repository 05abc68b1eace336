//! A cluster as its front ends see it: the calls that they make, each with what it does in the rules' terms. A script's
//! player stands on this alone, so a change inside the cluster checks no front end again, nor the other way round.
//!
//! # What is proved
//!
//! The calls of a cluster that its front ends make, each with what it does in the rules' terms; so many empty
//! stores. Carried by: the trait `ClusterInterface`; `empty_stores`.
#![tactic(auto)]

mod interface;
mod stores;

pub use interface::ClusterInterface;
pub use stores::empty_stores;
