//! All connections of a run over one cluster: they are accepted, each is served by a job of its own, and a timekeeper
//! lets the clocks go on beside them.
//!
//! # What is proved
//!
//! Each link that came is handed back, and what `http_exchanges` says of a connection holds of it, but for those that
//! were turned away because no job could be started, of which there are no more than the spawner's count rose by, and
//! one more where there was no memory for a job; what the pass of each had seen is a beginning of the marks of the
//! cluster that is left, and each number that these marks ask is among those that the pass of one of the links opened:
//! nobody but a client asks. The timekeeper asks nothing. No clause says that a call that waits returns. Carried by:
//! `serve_all`, `keep_clocks`.
#![tactic(auto)]

mod connections;
mod finish;
mod run;
mod start;
mod timekeeper;

pub use connections::serve_all;
pub use run::{Server, Stop};
pub use timekeeper::{Timekeeper, keep_clocks};
