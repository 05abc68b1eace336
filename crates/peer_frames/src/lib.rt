//! The frames that the servers of a cluster send one another over streams of bytes, and those that clients exchange
//! with a server: how they are written, and how they are read from a stream cut anywhere.
//!
//! # What is proved
//!
//! What is written is a frame's spelling; a reader of a stream cut anywhere gives just the frames that stand in it,
//! and where it stops, the bytes begin no list of frames. No server uses them yet. Carried by: `write_frame`,
//! `write_message`, `FrameReader::feed`, the law `stuck_begins_no_frames`.
#![tactic(auto)]

mod bodies;
mod fields;
mod frame;
pub mod laws;
mod lengths;
mod limits;
mod pieces;
mod reader;
#[cfg(test)]
mod tests;
mod verdicts;
mod writer;

pub use frame::{Frame, Peers, Why};
pub use reader::{FrameFed, FrameReader, GotFrame, Stop};
pub use writer::{write_frame, write_message};
