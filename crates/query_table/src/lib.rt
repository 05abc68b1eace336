//! The table of prepared queries: their rows in the order of their identifiers, found by identifier, by name and by the
//! session that they are bound to. It can be taken back to how it stood at the last `keep`.
//!
//! # What is proved
//!
//! Prepared queries in the order of their identifiers: put, removal, look-up by identifier and by name, those of a
//! session, `keep` and `undo`, each as the lists say. Carried by: clauses of `QueryTable`.
#![tactic(auto)]

mod bound;
mod named;
mod table;

pub use table::QueryTable;
