//! The tables of the catalog together with the log that they stand for, and what each command does to them.
//!
//! # What is proved
//!
//! Applying a command, at either version of the machine, answers what the machine answers, fires exactly the
//! channels that its step fires, each once, tells the keys that it frees with their lock delays, and leaves tables
//! that stand for the list of commands, of every command (a transaction has at most 64 operations); after running
//! out of memory the store is as before. Carried by: `Store::apply` and the accessors.
#![tactic(auto)]

mod channels;
mod key_commands;
mod lost;
mod queries;
mod registrations;
mod session_ends;
mod sessions;
mod steps;
mod store;
mod tables;
mod taken;

pub use store::Store;
pub use taken::is_taken;
