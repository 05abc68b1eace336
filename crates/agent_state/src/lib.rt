//! The state of an agent: its own services and checks with its clock, what it does with what it is asked, and what
//! it shows.
//!
//! # What is proved
//!
//! What requests, ticks of its clock and syncs make of an agent is what the definitions say, as are its answers,
//! its rows, and when it syncs. It refuses exactly where what the request names is not there or is its own check.
//! After a refusal or running out of memory it is as before. The bodies of its answers are the definitions' bytes:
//! objects by ID, of services and of checks. Carried by: clauses of `Agent`, `agent_node`, `unknown`.
#![tactic(auto)]

mod agent;
mod bodies;
mod changes;
mod checks;
mod fault;
mod json;
mod looks;
mod named;
mod names;
mod refusals;
mod replacements;
mod services;
mod shown;
mod watched;

pub use agent::Agent;
pub use fault::ChangeFault;
pub use looks::{OwnParts, own_parts};
pub use names::agent_node;
pub use refusals::unknown;
