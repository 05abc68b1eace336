//! A table of rows in the order of their keys, which can be taken back to how it stood at the last `keep`. It is a
//! balanced tree, so a look-up, a change, a `keep` and an `undo` cost a logarithm for each row that they come to, and the
//! rows of a group that stand one after another cost their number and a logarithm. A row that is removed leaves its place
//! until the next `keep`, so going back inserts nothing and takes no memory.
//!
//! # What is proved
//!
//! Rows of any type with a key, in key order: look-up, put, removal and copies are the definitions'; `keep` and
//! `undo`; the rows of a group, lent in one walk (`group`). Carried by: clauses of `RowTable`.
#![tactic(auto)]

mod edit;
mod group;
mod impls;
mod iter;
mod row;
mod seen;
mod slot;
mod table;
mod tree;
mod walk;

pub use impls::{ById, ByKey, ByNode, ByPair};
pub use iter::Rows;
pub use row::{Group, Probe, Row};
pub use seen::Seen;
pub use table::RowTable;
