//! The table of keys: its rows in the order of their keys, which of them each session holds, the tombstones of removed
//! keys, and the floor that a reap sets. It can be taken back to how it stood at the last `keep`.
//!
//! # What is proved
//!
//! Rows of keys, the keys that a session holds, tombstones and a reap's floor, and the last touches of tables,
//! services and nodes, as the definitions say; `keep` and `undo`. Carried by: clauses of `KvTable`, `TableIndex`.
#![tactic(auto)]

mod held;
mod holders;
mod prefix;
mod rows;
mod table;
mod tombs;

pub use table::KvTable;
