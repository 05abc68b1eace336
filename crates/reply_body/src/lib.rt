//! The status, body and form of what a reply shows, and the reply with them. Bodies are compact JSON, plain text, or
//! the bytes of a value.
//!
//! # What is proved
//!
//! The status, body and form of what a reply of several servers shows are the definitions', for each query's
//! answer, each command's, executions, renewals, agents' answers, writes that a lock delay refuses, and each
//! refusal; through a filter a list has just the rows that the filter keeps, in their order, and nothing else of
//! the reply changes; each status has three digits. Carried by: `body`, `written`, `written_through` and the
//! functions behind them.
#![tactic(auto)]

mod catalog;
mod content;
mod given;
mod json;
mod named;
mod others;
mod reads;
mod refusals;
mod rows;
mod sessions;
mod shown;
mod writes;

pub use content::body;
pub use given::{written, written_through};
pub use shown::Shown;
