//! The lines of a script, and the lines that a script's run prints.
//!
//! # What is proved
//!
//! What a line of a script of several servers says is exactly the format's definition, or the first of its reasons
//! for a refusal, and the filter of its request; what is printed of a reply, a closing, a refused line and the end
//! is the definitions' text. Carried by: `read_line`, `print_out`, `print_refused`, `print_end`.
#![tactic(auto)]

mod bad_line;
mod form;
mod line;
mod numbers;
mod requests;
mod text;
mod words;

pub use bad_line::BadLine;
pub use line::{Line, ReadLine, opens_cluster, read_line};
pub use numbers::{Bounds, number_in};
pub use text::{print_end, print_out, print_refused};
