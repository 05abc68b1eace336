use cat_model::{Command, Shared};
use raft_model::Message;
use std::snapshot::Snapshot;

/// What happened in a step, as proofs see it.
#[derive(Drop)]
pub enum Happened {
    Timeout,
    Beat,
    Received {
        from: u32,
        message: Snapshot<Message>,
    },
    Proposed(Snapshot<Shared<Command>>),
    /// It began again over its store.
    Restarted,
}
