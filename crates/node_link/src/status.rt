use cat_model::Role;

/// How a node stands.
#[derive(Clone, Copy, Debug, PartialEq, Eq)]
pub struct Status {
    pub role: Role,
    pub term: u64,
    /// The known leader. A leader knows none.
    pub leader: Option<u32>,
    /// The index of the log's last entry.
    pub last: u64,
    /// The index up to which the log is committed.
    pub commit: u64,
    /// The index of the last entry that was handed out to be applied.
    pub applied: u64,
    /// How many messages found no room in the outbox, up to 2^64 - 1.
    pub lost: u64,
}
