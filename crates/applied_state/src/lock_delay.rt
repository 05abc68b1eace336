ghost use Rattle.std.specs.Prelude.{◌≡◌, ◌+◌, [], IfOk, OnErr, OnOk};
ghost use Rattle.applied_state.specs.Ends.{BeginsDelay, Puts, end_of};

use crate::key_delay::{Delay, Of};
use cat_model::{Memory, Text};
use row_table::RowTable;
use std::alloc::Global;
use std::marker::Model;

/// The greatest end of the delays that began so far, for each key. Contracts see the keys with their ends, in byte
/// order. An end is a clock with a delay, which may pass the end of a `u64`.
#[derive(Drop)]
pub struct LockDelay {
    delays: RowTable<Delay>,
}

impl Model for LockDelay {
    ghost use Rattle.std.specs.Prelude.{ℕ, List};

    ghost Value = { List (List ℕ × ℕ) };

    ghost view = { λ d. d.delays.now };
}

impl LockDelay {
    /// No delay began.
    pub fn new(alloc: Global) -> Result<LockDelay, Memory>
        ensures { IfOk result (λ d. d ≡ []) }
    {
        Ok(LockDelay {
            delays: RowTable::new(alloc),
        })
    }

    /// The clock at which the key's delay is over, or 0 where none began.
    pub fn until(&self, key: &str) -> u128
        ensures { result ≡ end_of key.now self.now }
    {
        match self.delays.get(&Of(key)) {
            None => 0,
            Some(delay) => delay.until,
        }
    }

    // Puts the end of a key in the place of the one that it had.
    #[tactic(auto, using(crate::proofs::Ends::puts))]
    fn put(&mut self, key: Text, until: u128) -> Result<(), Memory>
        ensures ok { OnOk result (Puts key until self.old self.new) }
        ensures err { OnErr result (self.new ≡ self.old) }
    {
        match self.delays.set(Delay { key, until }) {
            Ok(()) => {
                self.delays.keep();
                Ok(())
            }
            Err((_, memory)) => Err(memory),
        }
    }

    /// A delay of the key began at this clock, in milliseconds. The key's delay is over at the later end.
    #[tactic(auto, using(crate::proofs::Ends::begins_later, crate::proofs::Ends::begins_under))]
    pub fn started(&mut self, key: Text, now: u64, delay_ms: u64) -> Result<(), Memory>
        ensures ok { OnOk result (BeginsDelay key (now + delay_ms) self.old self.new) }
        ensures err { OnErr result (self.new ≡ self.old) }
    {
        let end = u128::from(now) + u128::from(delay_ms);
        if end <= self.until(key.as_str()) {
            return Ok(());
        }
        self.put(key, end)
    }
}
