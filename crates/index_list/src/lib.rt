//! Items in numbered nodes, each on one list of each of two families. The lists are doubly linked by number, so a node is
//! appended and taken out in a fixed number of steps, and taking one out needs no memory.
//!
//! # What is proved
//!
//! Each call is exactly the list operation that it names; `Full` comes exactly at 1,048,576 nodes; unlinking takes
//! no memory. Carried by: clauses of `IndexList`.
#![tactic(auto)]

mod chain;
mod family;
mod lists;
mod nodes;
mod walk;

pub use family::Family;
pub use nodes::{IndexList, LinkFault};
pub use walk::Walk;
