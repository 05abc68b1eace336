//! The requests of a cluster: those that are held, the outs that wait to be taken, and the marks of what has happened.
//!
//! # What is proved
//!
//! Each call on the requests of a cluster (those held, the outs of an event with those of syncs, the tray, and the
//! marks, which only proofs read) is exactly one of the functions of `cluster_rules`, and laws carry it to the
//! rules' cluster. What `collect` says of a request has its cause: its own reply or closing, what a held request
//! waits for, or neither. What must follow a step that can't be undone takes no memory. Carried by: clauses of
//! `Requests`, `laws::*`.
#![tactic(auto)]

mod answers;
mod collected;
mod content;
mod copies;
mod counts;
mod events;
mod held;
pub mod laws;
mod out;
mod outs;
mod past;
mod pending;
mod plain;
mod question;
mod requests;
mod room;
mod slot;
mod starts;
mod syncs;

pub use collected::{Awaits, Collected};
pub use content::Content;
pub use out::{Given, Out, Reply};
pub use past::{Happened, Past};
pub use pending::{Pending, Stand, Start};
pub use plain::Plain;
pub use question::Question;
pub use requests::Requests;
pub use slot::HeldSlot;
