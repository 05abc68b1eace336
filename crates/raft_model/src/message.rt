use cat_model::{Entry, List};

/// What one server tells another. Each message has its sender's term. Log indexes start at 1, and index 0 has
/// term 0 (extended Raft paper, figure 2).
#[derive(Clone, Debug, Drop)]
pub enum Message {
    /// A candidate asks for a vote, and tells the index and term of its last entry.
    AskVote {
        term: u64,
        last_index: u64,
        last_term: u64,
    },
    /// The answer to an AskVote.
    Vote {
        term: u64,
        granted: bool,
    },
    /// A leader sends the entries that come behind index `prev_index`, its commit and its round of
    /// acknowledgements. It is the heartbeat too.
    Append {
        term: u64,
        prev_index: u64,
        prev_term: u64,
        entries: List<Entry>,
        commit: u64,
        round: u64,
    },
    /// The log is the leader's up to index `matched`.
    Yes {
        term: u64,
        matched: u64,
        round: u64,
    },
    /// The log has no entry `prev_index` of that term, or the Append was of a lower term. `last` is its last index.
    No {
        term: u64,
        last: u64,
    },
}

/// A message and the number of the server that is to receive it. Servers are numbered from 1.
#[derive(Clone, Debug, Drop)]
pub struct Sent {
    pub to: u32,
    pub message: Message,
}

/// Where a leader put a proposed entry.
#[derive(Clone, Copy, Debug, PartialEq, Eq)]
pub struct Place {
    pub index: u64,
    pub term: u64,
}

/// A round of acknowledgements that a leader of `term` began, with its commit then. Rounds of a term are numbered
/// from 1.
#[derive(Clone, Copy, Debug, PartialEq, Eq)]
pub struct Round {
    pub term: u64,
    pub number: u64,
    pub commit: u64,
}
