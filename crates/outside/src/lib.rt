//! The outside, as traits that count their faults: a source of bytes and a sink of bytes, in memory and over any
//! std reader and writer.
//!
//! # What is proved
//!
//! Each trait's call fails only where its count of faults rose, and an object in memory fails exactly where it is
//! told to; a durable store in memory holds what it was given. Carried by: the traits `Source`, `Sink`, `Keeper`,
//! and the types in memory.
#![tactic(auto)]

mod copies;
mod failures;
mod faults;
mod keeper;
mod mem_keeper;
mod mem_sink;
mod mem_source;
mod sink;
mod source;
#[cfg(test)]
mod tests;

pub use failures::is_listed;
pub use faults::{Failed, KeepFail};
pub use keeper::Keeper;
pub use mem_keeper::{MemKeeper, SureKeeper};
pub use mem_sink::{MemSink, SureSink};
pub use mem_source::{MemSource, SureSource};
pub use sink::{Sink, Writing};
pub use source::{Reading, Source};
