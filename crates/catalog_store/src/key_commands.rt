//! The commands on keys: what each does to the table of the keys, what it answers, and the channels that it fires.

mod commands;
mod freed_keys;
mod keys;
mod locks;
mod transaction;
mod transactions;

pub use commands::apply;
pub use freed_keys::free;
pub use transactions::apply_txn;
