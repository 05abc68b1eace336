//! The command bytes of a log, counted once.

ghost use Rattle.std.specs.Prelude.{◌≡◌, ◌+◌, ◌≤◌, nat_le, nat_lt, ◌&&◌, ◌++◌, cond, length, take};
ghost use Rattle.cat_model.specs.LogLimits.{command_bytes, is_noop};
ghost use Rattle.command_codec.specs.Counts.{capped};
ghost use Rattle.raft_model.specs.Log.{Log};
ghost use Rattle.raft_node.specs.Counts.{IsCount, bytes_of};

use cat_model::{Command, Entry};
use command_codec::encoded_len;

/// A log has at most so many entries.
pub const MOST_LOG_ENTRIES: usize = 262_144;

/// A log's commands have at most so many bytes, Noops' not counted.
pub const MOST_LOG_BYTES: u64 = 67_108_864;

/// How many bytes a command adds to those of a log, or the greatest number of 64 bits where those are more.
pub fn bytes_in_log(command: &Command) -> u64
    ensures { result ≡ capped (cond (is_noop command.now) 0 (command_bytes command.now)) }
{
    match command {
        Command::Noop => 0,
        _ => encoded_len(command),
    }
}

/// A log with so many entries and command bytes has room for an entry with so many bytes.
pub fn fits(entries: usize, counted: u64, bytes: u64) -> bool
    ensures { result ≡ (nat_lt entries 262144 && nat_le (counted + bytes) 67108864) }
{
    if entries >= MOST_LOG_ENTRIES {
        return false;
    }
    if counted > MOST_LOG_BYTES {
        return false;
    }
    bytes <= MOST_LOG_BYTES - counted
}

/// The command bytes of the first so many entries of a log, Noops' not counted.
#[derive(Clone, Copy, Debug)]
pub struct Counted {
    pub entries: usize,
    pub bytes: u64,
}

impl Counted {
    /// Nothing is counted.
    pub fn none() -> Counted
        ensures { (log : Log) → IsCount log result }
    {
        Counted {
            entries: 0,
            bytes: 0,
        }
    }

    /// The log keeps so many entries, and others may come behind them. Where some that were counted go, the count
    /// begins anew.
    pub fn cut(&mut self, keep: usize)
        ensures { (log more : Log) → keep ≤ length log → IsCount log self.old → IsCount (take keep log ++ more) self.new }
    {
        if keep < self.entries {
            *self = Counted::none();
        }
    }
}

/// How many bytes of these entries count for the limit of a log: those of their commands that are no Noops.
pub fn log_bytes(entries: &[Entry]) -> u64
    ensures { result ≡ bytes_of entries.now }
{
    let mut total: u64 = 0;
    for entry in entries {
        let bytes = bytes_in_log(&entry.command);
        total = total.saturating_add(bytes);
    }
    total
}

/// The count of a log's first `entries` entries, from a count of others of its first. It reads no more than the
/// entries between them.
pub fn counted_at(log: &[Entry], counted: Counted, entries: usize) -> Counted
    requires within { entries ≤ length log.now }
    requires counted { IsCount log.now counted }
    ensures count { IsCount log.now result }
    ensures same { result ≡ record { entries = entries; bytes = bytes_of (take entries log.now) } }
{
    if counted.entries <= entries {
        let more = log_bytes(&log[counted.entries..entries]);
        let bytes = counted.bytes.saturating_add(more);
        return Counted { entries, bytes };
    }
    if counted.bytes < u64::MAX {
        let cut = log_bytes(&log[entries..counted.entries]);
        let bytes = counted.bytes - cut;
        return Counted { entries, bytes };
    }
    let bytes = log_bytes(&log[..entries]);
    Counted { entries, bytes }
}
