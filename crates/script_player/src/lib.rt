//! Plays a script of requests and events on anything that holds a cluster of servers, and writes the replies.
//!
//! # What is proved
//!
//! Over anything that holds a cluster of several servers and whose calls are the rules': a script's cluster is
//! opened as its first line says, and its lines lead to the cluster at the end; what is written is just the text of
//! their outs, in order, each reply through the filter of the line that asked for it, and a last line. The report
//! of a whole run has the number of events and requests, the agreed log, the applied lengths, and the requests
//! without a reply in ascending order; what has happened, taken as moves, leads from the start to the end; all that
//! `run_rules` says of a run holds of it. Where a line is refused there is no report: then the last line gives
//! its number and reason, and what stands before is all that the lines before it gave. After a failed write, which
//! the sink counts, or where memory ran out, what was written is a first part of the text of a run whose lines may
//! break off. Carried by: `play_script`, the trait `ClusterInterface`.
#![tactic(auto)]

mod filters;
mod finds;
mod found;
mod line;
mod openings;
mod output;
mod player;
mod reader;
mod refused;
mod report;
mod stage;
mod start;
mod taker;
mod text;

pub use finds::play_finding;
pub use found::Found;
pub use line::split_at_byte;
pub use output::write_all;
pub use player::{play_script, write_report};
pub use report::Report;
