//! HTTP/1.1 connections to one cluster, which their threads share by turns: what is exchanged over each.
//!
//! # What is proved
//!
//! Over any cluster whose calls put their marks as `SharedCluster` says: the bytes written on a connection are, in
//! order, a `Continue` where a head asks for it and the bytes of one reply for each message read, through the
//! filter of its target, those of a HEAD without content, up to the cause of its end, which is a closing by either
//! side (nothing is served behind a reply that closes), a refused stream with its refusal, a read or write that
//! failed and was counted, or running out of memory; the reply to what is no request is its refusal, and to any
//! other that of the one answer mark of a number that was asked once, by this connection's pass, with its agent and
//! its draw, and behind all that the connection knew when the reply before was made, so that it reads what it
//! wrote, showing what the agreed log then tells. The numbers that its pass opens are those of its replies, in
//! order, and at most one more where memory ran out or its client left. A turn lets the clocks of servers and
//! agents go on by just the time since the last one, a day at most and not at all where the outside clock fell, each
//! clock once; where it found memory, each did go on, but for a server's that would pass its end by it, then
//! messages were delivered until none was left, 4,096 at most, and only then the request was asked, and messages
//! were delivered again. A turn that only keeps time asks nothing. No clause says that a call that waits returns.
//! Carried by: `serve_connection`, `Served::turn`, `Served::keep_time`.
#![tactic(auto)]

mod cause;
mod cluster;
mod job;
mod patience;
mod replies;
mod served;
mod service;
mod turns;
mod views;
mod writer;

pub use cause::Cause;
pub use cluster::{Ask, Collected, SharedCluster};
pub use job::{Finished, ServeJob, serve_connection};
pub use served::{NOBODY, Served, Turned};
pub use service::Board;
pub use writer::send_refusing;
