use crate::{Entry, List};

/// What a server keeps over restarts (extended Raft paper, figure 2, "Persistent state"). The vote is a server's
/// number, from 1.
#[derive(Debug, Drop)]
pub struct Kept {
    pub term: u64,
    pub vote: Option<u32>,
    pub log: List<Entry>,
}
