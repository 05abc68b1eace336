//! Which of the requests that a cluster holds may have something due. A read that waits for an index sleeps until a
//! channel on which it hangs is fired at its server, or its deadline comes by that server's clock. What waits for a
//! position of a log or for a round of acknowledgements stands in line until that is reached. So an event looks
//! only at the requests that are awake. Nothing is evaluated here.
//!
//! # What is proved
//!
//! A read that sleeps wakes where a fired channel of its server reaches one of its own, or its deadline comes by
//! that server's clock; whatever a call does, who was awake is awake or sleeps as asked, who slept or was in line
//! stays so or is awake, and where memory runs out any may be awake. The contracts let more wake than need. Of the
//! waiters on channels `fire` takes out exactly those on a channel that a fired one reaches, each once, ascending.
//! Carried by: clauses of `Watch` and `WatchRegistry`.
#![tactic(auto)]

mod awake;
mod bucket;
mod entries;
mod exits;
mod hit;
mod lines;
mod reach;
mod registry;
mod sleepers;
mod waiters;
mod watch;

pub use reach::on;
pub use registry::WatchRegistry;
pub use watch::Watch;
