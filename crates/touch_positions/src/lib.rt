//! The last positions of the log at which the tables other than that of the keys changed, and at which what belongs to
//! each service name and to each node did. They can be taken back to how they stood at the last `keep`.
//!
//! # What is proved
//!
//! Rows of keys, the keys that a session holds, tombstones and a reap's floor, and the last touches of tables,
//! services and nodes, as the definitions say; `keep` and `undo`. Carried by: clauses of `KvTable`, `TableIndex`.
#![tactic(auto)]

mod index;
mod names;
mod positions;

pub use index::TableIndex;
pub use positions::Table;
