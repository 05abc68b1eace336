//! The operations of a transaction, each on what the ones before left, over rows that stay as they are. What they come
//! to is a list of changes.
#![tactic(auto)]

mod change;
mod engine;
mod operate;
mod overlay;
mod writes;

pub use change::{Change, TxnEnd};
pub use engine::run;
