//! Timers by key on a wheel of slots: what is due is found in the slots of the times that passed, and not by a search
//! over all timers.
//!
//! # What is proved
//!
//! Setting and cancelling are those of a map; `find_due` gives exactly the timers up to now, by time and then key,
//! and `due` takes them out. Carried by: clauses of `TimerWheel`.
#![tactic(auto)]

mod due;
mod place;
mod slots;
mod wheel;

pub use wheel::TimerWheel;
