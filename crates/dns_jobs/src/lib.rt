//! The job that answers questions of names (DNS) beside a server's connections, by what a viewer of the catalog is shown.
//!
//! # What is proved
//!
//! A job answers the packets of its port as `dns_server` does, each over the list that its viewer then reads, and
//! gives back the port and the viewer, whose list goes on from what it had read before. Its start is refused only
//! where the spawner's count rose. Carried by: `start_names`, `finish_names`.
#![tactic(auto)]

mod job;
mod reader;
mod start;
#[cfg(test)]
mod tests;

pub use job::{DnsDone, DnsJob, answer_names};
pub use reader::ViewReader;
pub use start::{NamesTask, finish_names, start_names};
