//! The answers to queries with their indexes, read from the tables of a store, the channels on which they hang, and
//! what prepared queries give.
//!
//! # What is proved
//!
//! From the tables: the answer to each query, its index, and the channels on which it hangs, for every log for
//! which the tables stand, as the definitions that look back over the whole log say; one counted step each.
//! Instances are services joined with their nodes and checks as the definition says; the filters keep exactly what
//! they name. Carried by: `evaluate`, `chans` and `execute` of `View`, `not_critical`.
#![tactic(auto)]

mod answers;
mod channels;
mod checks;
mod executions;
mod fault;
mod filters;
mod indexes;
mod instances;
mod joins;
mod keys;
pub mod laws;
mod names;
mod nodes;
mod queries;
mod sessions;
mod view;

pub use fault::ExecuteFault;
pub use filters::not_critical;
pub use view::{View, chans, evaluate, execute, index};
