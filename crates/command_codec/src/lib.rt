//! Commands as bytes and back, by the spelling of `cat_model`.
//!
//! # What is proved
//!
//! `encode` appends the one spelling of a command. `decode` gives the command in bounds whose spelling begins the
//! input and its length, `Cut` where the input is a proper prefix of a spelling, `Bad` where no spelling begins it
//! and it is a prefix of none, at the length of its longest prefix that is a prefix of one: each exactly, but where
//! memory ran out. Carried by: `encode`, `decode`.
#![tactic(auto)]

mod commands;
mod decoder;
mod encoder;
mod fault;
mod fields;
mod lengths;
mod lists;
mod out;
mod parts;
mod records;
mod texts;

pub use commands::read_command;
pub use decoder::decode;
pub use encoder::encode;
pub use fault::{DecodeFault, Fault, ReadError};
pub use fields::{bad, cut, read_flag, read_number};
pub use lengths::encoded_len;
