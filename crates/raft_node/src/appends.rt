ghost use Rattle.std.specs.Prelude.{◌≡◌, ◌≤◌, ◌++◌, length, take};
ghost use Rattle.raft_model.specs.Limits.{keeps_limits};
ghost use Rattle.raft_node.specs.Accepting.{Takes};
ghost use Rattle.raft_node.specs.Counts.{IsCount};

use crate::counted::{Counted, MOST_LOG_BYTES, MOST_LOG_ENTRIES, counted_at, log_bytes};
use crate::log::standing;
use cat_model::Entry;

/// What an Append would make of a log.
#[derive(Clone, Copy, Debug, PartialEq, Eq)]
pub enum Fit {
    /// A committed entry would be cut, or the log would pass a limit.
    Refused,
    /// The entries stand already.
    Stands,
    /// The log keeps its first `kept` entries, and behind them come those of the Append but its first `passed`.
    Changes { kept: usize, passed: usize },
}

/// The log's first `kept` entries with these behind them keep the limits of a log.
pub(crate) fn keeps_limits(
    log: &[Entry],
    counted: &mut Counted,
    kept: usize,
    entries: &[Entry],
) -> bool
    requires within { kept ≤ length log.now }
    requires counted { IsCount log.now counted.old }
    ensures counted { IsCount log.now counted.new }
    ensures keeps { result ≡ keeps_limits (take kept log.now ++ entries.now) }
{
    if kept > MOST_LOG_ENTRIES {
        return false;
    }
    if entries.len() > MOST_LOG_ENTRIES - kept {
        return false;
    }
    *counted = counted_at(log, *counted, kept);
    if counted.bytes > MOST_LOG_BYTES {
        return false;
    }
    log_bytes(entries) <= MOST_LOG_BYTES - counted.bytes
}

/// What entries that come behind index `prev` would make of a log of which the first `commit` are committed. Of the
/// log it reads no more than what would be cut, and what was not counted yet.
pub fn fitting(
    log: &[Entry],
    counted: &mut Counted,
    commit: u64,
    prev: usize,
    entries: &[Entry],
) -> Fit
    requires behind { prev ≤ length log.now }
    requires committed { commit ≤ length log.now }
    requires counted { IsCount log.now counted.old }
    ensures counted { IsCount log.now counted.new }
    ensures fit { Takes commit log.now prev entries.now result }
{
    let passed = standing(log, prev, entries);
    let kept = prev + passed;
    if passed == entries.len() {
        if keeps_limits(log, counted, log.len(), &[]) {
            return Fit::Stands;
        }
        return Fit::Refused;
    }
    if commit > kept as u64 {
        return Fit::Refused;
    }
    if keeps_limits(log, counted, kept, &entries[passed..]) {
        return Fit::Changes { kept, passed };
    }
    Fit::Refused
}
