//! Answers datagrams with questions of names (DNS) over a port, by the catalog. RFC 1035, section 4.2.1.
//!
//! # What is proved
//!
//! The packets of a port are answered in order, each to the peer that it came from and over a list of commands that
//! only grows. Carried by: `serve_datagrams`.
#![tactic(auto)]

mod cache;
mod packets;
mod reader;
mod replies;

pub use packets::{DnsCause, DnsEnded, serve_datagrams};
pub use reader::CountedReader;
