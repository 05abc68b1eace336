//! Calls of a server's durable store as records of bytes and back. A record is the length of its payload and the
//! payload, so that a journal, one record behind the other, tells whole records from the one in which it breaks off.
//!
//! # What is proved
//!
//! A record is written as its one spelling, and read where its spelling begins the input; each front of a spelling
//! is `Cut`, and `Bad` comes only where no record begins the input and it is cut off in none: each exactly, unless
//! memory runs out. Carried by: `write_record`, `read_record`, `laws::*`.
#![tactic(auto)]

mod fault;
mod fields;
mod laws;
mod numbers;
mod reader;
mod records;
mod writer;

pub use fault::RecordFault;
pub use fields::read_some_entries;
pub use laws::{fronts_are_cut, written_is_read};
pub use numbers::{put_byte, put_number};
pub use reader::read_record;
pub use records::Record;
pub use writer::{put_entries, store_record, vote_record, write_record};
