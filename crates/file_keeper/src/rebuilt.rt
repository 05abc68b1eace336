//! What a journal stands for, built up record by record.

ghost use Rattle.std.specs.Prelude.{◌≡◌, ◌+◌, ◌-◌, ◌^◌, ◌≤◌, cond, min, true, length, take, IfOk, Ok};
ghost use Rattle.cat_model.specs.Keeping.{nothing_kept};
ghost use Rattle.cat_model.specs.LogLimits.{command_bytes, is_noop, log_bytes as bytes_of};
ghost use Rattle.file_keeper.specs.Journal.{made, may_make};

use cat_model::{Command, Entry, Kept, List, Memory};
use command_codec::encoded_len;
use std::alloc::Global;
use std::marker::Model;
use store_records::Record;

/// A log has at most so many entries.
pub const MOST_ENTRIES: usize = 262_144;

/// A log's commands have at most so many bytes, Noops' not counted.
pub const MOST_BYTES: u64 = 67_108_864;

/// How many bytes a command adds to those of a log, counted up to the greatest number of 64 bits.
pub fn bytes_in_log(command: &Command) -> u64
    ensures { result ≡ min (cond (is_noop command.now) 0 (command_bytes command.now)) (2 ^ 64 - 1) }
{
    match command {
        Command::Noop => 0,
        _ => encoded_len(command),
    }
}

// The same of these entries.
fn log_bytes(entries: &[Entry]) -> u64
    ensures { result ≡ min (bytes_of entries.now) (2 ^ 64 - 1) }
{
    let mut total: u64 = 0;
    for entry in entries {
        total = total.saturating_add(bytes_in_log(&entry.command));
    }
    total
}

// Drops the entries behind the first `keep`, and counts their bytes off.
fn cut(log: &mut Vec<Entry>, bytes: &mut u64, keep: usize)
    requires within { keep ≤ length log.old.items }
    requires counted { bytes.old ≡ bytes_of log.old.items }
    requires most { bytes.old ≤ 67108864 }
    ensures log { log.new.items ≡ take keep log.old.items }
    ensures bytes { bytes.new ≡ bytes_of (take keep log.old.items) }
{
    while log.len() > keep {
        let Some(entry) = log.pop() else {
            unreachable!()
        };
        *bytes -= bytes_in_log(&entry.command);
    }
}

/// What was kept up to some record of a journal.
#[derive(Drop)]
pub struct Rebuilt {
    term: u64,
    vote: Option<u32>,
    log: Vec<Entry>,
    // The bytes of the log's commands, Noops' not counted.
    bytes: u64,
}

impl Model for Rebuilt {
    ghost use Rattle.std.specs.Prelude.{◌≡◌, ◌≤◌, length};
    ghost use Rattle.cat_model.specs.declared.kept.Kept.{Kept};
    ghost use Rattle.cat_model.specs.LogLimits.{log_bytes};

    ghost Value = { Kept };

    ghost view = { λ r. record { term = r.term; vote = r.vote; log = r.log.items } };

    ghost invariant = { λ r. (r.bytes ≡ log_bytes r.log.items) × (r.bytes ≤ 67108864) × (length r.log.items ≤ 262144) };
}

impl Rebuilt {
    /// Nothing, which takes no memory.
    pub fn new(alloc: Global) -> Rebuilt
        ensures { result ≡ nothing_kept }
    {
        Rebuilt {
            term: 0,
            vote: None,
            log: Vec::new(alloc),
            bytes: 0,
        }
    }

    // Replaces the entries from the index on, where that leaves no gap and the log keeps its limits.
    fn store(&mut self, index: u64, entries: List<Entry>) -> Result<bool, Memory>
        ensures may { IfOk result (λ yes. yes ≡ may_make (Record.Store index entries) self.old) }
        ensures made { result ≡ Ok true → self.new ≡ made (Record.Store index entries) self.old }
    {
        if index == 0 {
            return Ok(false);
        }
        if index - 1 > self.log.len() as u64 {
            return Ok(false);
        }
        let keep = (index - 1) as usize;
        cut(&mut self.log, &mut self.bytes, keep);
        let more = log_bytes(entries.as_slice());
        if entries.len() > MOST_ENTRIES - keep {
            return Ok(false);
        }
        if more > MOST_BYTES - self.bytes {
            return Ok(false);
        }
        let mut items = entries.into_vec();
        self.log.append(&mut items)?;
        self.bytes += more;
        Ok(true)
    }

    /// Makes the call of the record, and says whether it may be made.
    pub fn make(&mut self, call: Record) -> Result<bool, Memory>
        ensures may { IfOk result (λ yes. yes ≡ may_make call self.old) }
        ensures made { result ≡ Ok true → self.new ≡ made call self.old }
    {
        match call {
            Record::Vote { term, vote } => {
                self.term = term;
                self.vote = vote;
                Ok(true)
            }
            Record::Store { index, entries } => self.store(index, entries),
        }
    }

    /// What is kept, which takes no memory.
    pub fn into_kept(self) -> Kept
        ensures { result ≡ self }
    {
        Kept {
            term: self.term,
            vote: self.vote,
            log: List::from(self.log),
        }
    }
}
