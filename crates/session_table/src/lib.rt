//! The table of sessions: their rows in the order of their identifiers, and which of them stand on each check of each
//! node. It can be taken back to how it stood at the last `keep`.
//!
//! # What is proved
//!
//! Sessions in the order of their identifiers: creation, end, look-up, those of a node, those on one or some of its
//! checks, `keep` and `undo`, each as the lists say. Carried by: clauses of `SessionTable`.
#![tactic(auto)]

mod ids;
mod places;
mod rows;
mod table;

pub use table::SessionTable;
