//! The journal of a process, which only proofs read.

use cat_model::Memory;
use peer_frames::Frame;
use std::snapshot::Snapshot;

/// A frame that came in, with its number among all that came in, from 1, and what the process answered it.
#[derive(Drop)]
pub struct Taken {
    pub number: u64,
    pub frame: Snapshot<Frame>,
    pub answer: Snapshot<Result<Option<Frame>, Memory>>,
}

/// What happened to a process `P` whose frames a dialer `D` brings to its peers.
#[derive(Drop)]
pub enum Item<P, D> {
    /// It began so, and its peers have these ports.
    Began {
        process: Snapshot<P>,
        dialer: Snapshot<D>,
        ports: Snapshot<Vec<u16>>,
    },
    /// A turn at this time of its clock, with a random word: it did what was due then, took a frame, if one came in, and
    /// sent what it had to send.
    Turned {
        now_ms: u64,
        word: u64,
        due: Result<(), Memory>,
        taken: Option<Taken>,
        sent: Result<(), Memory>,
    },
}
