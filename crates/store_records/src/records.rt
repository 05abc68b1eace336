use cat_model::{Entry, List};

/// A call of a durable store that changes what it holds.
#[derive(Debug, Drop)]
pub enum Record {
    /// Term and vote are replaced.
    Vote { term: u64, vote: Option<u32> },
    /// The entries from `index` on, counted from 1, are dropped, and these appended.
    Store { index: u64, entries: List<Entry> },
}
