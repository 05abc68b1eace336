//! What one server has applied since it last started, with its clock at each position, over the tables of its
//! store.
//!
//! # What is proved
//!
//! What one server has applied: each command is the catalog machine's step with its answer, and a read gives the
//! answer and the index at just what is applied, in one counted step; so do executions, sessions' rows and the rows
//! of one node. When a key's lock delay is over, and which key of a command is the first that waits for it, are the
//! rules' answers over what is applied and the clocks at each position. Its time in office is the rules'. Running
//! out of memory changes nothing. The tables of a store stand for its list of commands in the sense of
//! `catalog_query`. The end that is told of a key's lock delay is the greatest of those that were noted for it, or
//! 0. Carried by: clauses of `Replica` and `LockDelay`, `laws::tables_stand`.
#![tactic(auto)]

mod copies;
mod delays;
mod key_delay;
pub mod laws;
mod lock_delay;
mod locks;
mod office;
mod remote;
mod removals;
mod replica;
mod timers;

pub use lock_delay::LockDelay;
pub use replica::Replica;
