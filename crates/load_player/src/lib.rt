//! Plays a load made from a number, and writes one line that sums it up.
//!
//! # What is proved
//!
//! No line of a load is refused; its lines lead a cluster from its start to its end, of which all holds that holds
//! of a script's run; what is written is the line with the load's requests, how many reads found a row, and the
//! length of the agreed log, or a first part of it where the sink failed or memory was short. The script of a load
//! is byte for byte the definition's, for each seed and size; the line that sums it up too, with the number of its
//! requests by their methods. Carried by: `play_load`, `load_of`.
#![tactic(auto)]

mod load;
mod method;
mod player;
mod script;
mod summary;

pub use load::{Load, load_of};
pub use player::play_load;
