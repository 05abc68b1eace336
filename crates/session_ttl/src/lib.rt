//! A server's time in office: which sessions it renewed, which are over by its clock, whose ends it proposed, and when it
//! looks for removed keys that are to be reaped.
//!
//! # What is proved
//!
//! A server's time in office is the definitions': taking it, renewals, which sessions are over by the server's
//! clock and in which order, whose ends were proposed, also where only the first of them were, and when it looks
//! for what is to be reaped. After running out of memory it is as before. With timers that are never late, the
//! sessions that are over are found among those whose timers are due. Carried by: clauses of `Office`,
//! `SessionTimers`.
#![tactic(auto)]

mod ends;
mod office;
mod over;
mod renewal;
mod timers;

pub use ends::Ending;
pub use office::Office;
pub use timers::SessionTimers;
