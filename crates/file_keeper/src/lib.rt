//! A durable store of a server in a file. Its calls stand there as records, one behind the other, and a load makes them
//! again; a last record that is cut off counts for nothing, and anything else is refused.
//!
//! # What is proved
//!
//! Over any journal: a load gives what the journal's records make of an empty store, without a last one that is cut
//! off, and refuses anything else and leaves it; a vote or a store adds its record, and what was answered Ok is
//! what a later load gives, whichever front of a last record a crash left; each failure has its cause, and until a
//! load has answered Ok every other call fails. Carried by: clauses of `FileKeeper`, `laws::*`.
#![tactic(auto)]

mod file_keeper;
mod laws;
mod reader;
mod rebuilt;
#[cfg(test)]
mod tests;
mod window;

pub use file_keeper::FileKeeper;
pub use laws::{a_crash_leaves_old_or_new, journals_keep_limits};
pub use rebuilt::{MOST_BYTES, MOST_ENTRIES, bytes_in_log};
