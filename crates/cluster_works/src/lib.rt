//! What a cluster's calls are made of: its agents, which of its requests are awake, what is due at a server and doing it,
//! what is marked of a server's step, the copies that a request needs, and what becomes of it. The cluster itself stands
//! above.
//!
//! # What is proved
//!
//! An agent is changed, ticked and read just as the rules say, and all others stay; what may be due of a request
//! stays so until it is said to sleep or to be forgotten, and what sleeps sleeps on or may be due; a server's step
//! is marked with its store's failure and with just as many entries as joined the agreed log; a write is held where
//! its proposal was entered and refused where the log was full or the store failed, a read is held for its round,
//! and where memory ran out nothing changed; an event acts at its server as the rules say, from parts that stand to
//! parts that stand; something that is due at a server is found wherever there is something, and done exactly as
//! the rules say, though those that sleep are not looked at, and each turn leaves less to do; it takes one
//! evaluation of a query to find that a read is answered, begins to wait or is one too many, and none to find
//! anything else (`find`, `turn`); several commands are proposed in their order, up to the first that is refused;
//! copies are equal to what they copy, and replies show what the rules let them show; a write whose position is
//! applied tells the entry that stands there. Nothing of this rests on what the stores held at the beginning.
//! Carried by: clauses of `Agents` and `Watching`, and the functions of `cluster_works`.
#![tactic(auto)]

mod acts;
mod agents;
mod applied_writes;
mod contact;
mod copies;
mod due;
mod duties;
mod early;
mod entries;
mod identifiers;
mod kinds;
mod late;
mod moves;
mod newest;
mod probes;
mod proposals;
mod reads;
mod replies;
mod rests;
mod session_ends;
mod turns;
mod waits;
mod wakes;
mod watch;
mod ways;
mod work;
mod works;
mod write_copies;
mod writes;

pub use acts::{beat, deliver, fail_keep, restart, time_out};
pub use agents::Agents;
pub use copies::{copied_question, copy_entries, copy_refusal};
pub use entries::entered;
pub use kinds::{changes, is_stale, is_stale_read, wait_of};
pub use moves::{Seen, see};
pub use newest::{answer_newest, answer_own, hold_newest, refuse_newest, renew_newest};
pub use probes::end_probe;
pub use proposals::{Proposed, propose_all};
pub use replies::deferred;
pub use session_ends::ends_of;
pub use turns::turn;
pub use wakes::wake_held;
pub use watch::Watching;
pub use ways::{asked_server, runs_leading, way_from};
pub use write_copies::with_question;
pub use writes::{Write, end_write};
