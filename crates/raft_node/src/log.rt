ghost use Rattle.std.specs.Prelude.{◌≡◌, ◌≢◌, ℕ, ◌+◌, ◌<◌, ◌≤◌, ◌++◌, ◌==◌, ◌&&◌, nat_le, length, take, drop};
ghost use Rattle.raft_model.specs.Log.{accepted, last_term, term_at};
ghost use Rattle.raft_model.specs.Rules.{is_up_to_date, keeps_front};

use cat_model::Entry;

/// The term of the entry at an index, and 0 at index 0 and past the end.
pub fn term_at(log: &[Entry], index: u64) -> u64
    ensures { result ≡ term_at index log.now }
{
    if index == 0 {
        return 0;
    }
    if index > log.len() as u64 {
        return 0;
    }
    log[(index - 1) as usize].term
}

/// The term of the last entry, and 0 where there is none.
pub fn last_term(log: &[Entry]) -> u64
    ensures { result ≡ last_term log.now }
{
    term_at(log, log.len() as u64)
}

/// The log has an entry `prev` of that term. It has an entry 0, of term 0.
pub fn matches(log: &[Entry], prev: u64, prev_term: u64) -> bool
    ensures { result ≡ (nat_le prev (length log.now) && term_at prev log.now == prev_term) }
{
    prev <= log.len() as u64 && term_at(log, prev) == prev_term
}

/// A log whose last entry has this term and index is not smaller than this one.
pub fn is_up_to_date(other_term: u64, other_index: u64, log: &[Entry]) -> bool
    ensures { result ≡ is_up_to_date other_term other_index log.now }
{
    let term = last_term(log);
    term < other_term || term == other_term && log.len() as u64 <= other_index
}

/// How many of the entries that come behind index `prev` stand already. Where not all do, the log is cut behind
/// these, and the rest of the entries appended.
pub fn standing(log: &[Entry], prev: usize, entries: &[Entry]) -> usize
    requires { prev ≤ length log.now }
    ensures within { result ≤ length entries.now }
    ensures fits { prev + result ≤ length log.now }
    ensures all { result ≡ length entries.now → accepted log.now prev entries.now ≡ log.now }
    ensures rest { result < length entries.now → accepted log.now prev entries.now ≡ take (prev + result) log.now ++ drop result entries.now }
    ensures changes { result < length entries.now → accepted log.now prev entries.now ≢ log.now }
    ensures front { result < length entries.now → (k : ℕ) → k ≤ length log.now → keeps_front k log.now (accepted log.now prev entries.now) ≡ nat_le k (prev + result) }
{
    let mut count = 0;
    while count < entries.len()
        && count < log.len() - prev
        && log[prev + count].term == entries[count].term
    {
        count += 1;
    }
    count
}
