//! The connections of a Raft node's process, over which its peers and its clients send it frames, and which share it by
//! turns.
//!
//! # What is proved
//!
//! What happened to a process is a journal, told in proofs alone: how it began, and turn after turn what was due at that
//! time, the frame that was taken, if any, with its answer, and the sending of all that waited. The journal leads to how
//! the process stands, Raft's rules allow all that its node did, and frames are numbered from 1 in the order in which they
//! were taken. On a connection each frame that was read was handed in once, in order, however its bytes were cut: the
//! frames of the journal whose numbers its pass opened are just those. The bytes written are their answers, in order, up
//! to the cause of its end: the other side's end, bytes that are no frame, of which nothing was handed in, a read or a
//! write that failed and was counted, or running out of memory. It is shut then. A timekeeper hands nothing in. No clause
//! says that a call that waits returns, nor what the turns of others did meanwhile, but that they handed in none of its
//! frames. No server uses it yet. Carried by: `serve_peer`, `hand_in`, `keep_time`, `keep_turns`.
#![tactic(auto)]

mod cause;
mod item;
mod job;
mod serving;
mod shared;
mod timekeeper;
mod turns;
mod writer;

pub use cause::PeerCause;
pub use item::{Item, Taken};
pub use job::{PeerEnded, PeerJob, serve_peer};
pub use shared::SharedNode;
pub use timekeeper::{Timekeeper, keep_turns};
pub use turns::{PeerBoard, hand_in, keep_time};
