//! How long a log is, and how many bytes its commands have.

ghost use Rattle.std.specs.Prelude.{◌≡◌, ◌-◌, ◌++◌, ◌∷◌, [], length, take, List, OnOk};
ghost use Rattle.cat_model.specs.declared.command.Entry.{Entry as SpecEntry};
ghost use Rattle.cat_model.specs.LogLimits.{log_bytes};
ghost use Rattle.command_codec.specs.Counts.{capped};
ghost use Rattle.host_keeper.specs.Tallies.{last_or, totals_from};

use cat_model::Entry;
use file_keeper::bytes_in_log;
use std::alloc::{AllocError, Global};
use std::marker::Model;

/// The bytes of a log's commands, Noops' not counted, up to each of its entries: so those that are left are known when
/// the last entries are dropped.
#[derive(Drop)]
pub struct Tally {
    totals: Vec<u64>,
}

impl Model for Tally {
    ghost use Rattle.std.specs.Prelude.{ℕ, List};

    ghost Value = { List ℕ };

    ghost view = { λ t. t.totals.items };
}

impl Tally {
    /// Of a log without entries, which takes no memory.
    pub fn new(alloc: Global) -> Tally
        ensures { result ≡ totals_from 0 [] }
    {
        Tally {
            totals: Vec::new(alloc),
        }
    }

    /// How many entries the log has.
    pub fn entries(&self) -> u64
        ensures { (log : List SpecEntry) → self.now ≡ totals_from 0 log → result ≡ length log }
    {
        self.totals.as_slice().len() as u64
    }

    // The last of the totals.
    fn last(&self) -> u64
        ensures { result ≡ last_or 0 self.now }
    {
        match self.totals.as_slice() {
            [.., last] => *last,
            [] => 0,
        }
    }

    /// How many bytes its commands have.
    pub fn bytes(&self) -> u64
        ensures { (log : List SpecEntry) → self.now ≡ totals_from 0 log → result ≡ capped (log_bytes log) }
    {
        self.last()
    }

    // The log has this entry behind its last.
    fn push(&mut self, entry: &Entry) -> Result<(), AllocError>
        ensures { OnOk result ((log : List SpecEntry) → self.old ≡ totals_from 0 log → self.new ≡ totals_from 0 (log ++ entry.now ∷ [])) }
    {
        let total = self.last().saturating_add(bytes_in_log(&entry.command));
        self.totals.push(total)?;
        Ok(())
    }

    // The log loses its entries behind the first so many.
    fn cut(&mut self, keep: usize)
        ensures { (log : List SpecEntry) → self.old ≡ totals_from 0 log → self.new ≡ totals_from 0 (take keep log) }
    {
        self.totals.truncate(keep);
    }

    /// The log has these entries from the index on, counted from 1, in place of its own.
    pub fn replace(&mut self, index: u64, entries: &[Entry]) -> Result<(), AllocError>
        ensures { OnOk result ((log : List SpecEntry) → self.old ≡ totals_from 0 log → self.new ≡ totals_from 0 (take (index - 1) log ++ entries.now)) }
    {
        self.cut(index.saturating_sub(1) as usize);
        for entry in entries {
            self.push(entry)?;
        }
        Ok(())
    }
}
