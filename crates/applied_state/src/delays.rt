//! A server's lock delays, as far as it has applied.

ghost use Rattle.std.specs.Prelude.{◌≡◌, [], ℕ, IfOk, List as Items, OnOk, map};
ghost use Rattle.std.proofs.Common.{max};
ghost use Rattle.cat_model.specs.Delays.{freed_until};
ghost use Rattle.applied_state.specs.Ends.{end_of};
ghost use Rattle.applied_state.specs.Delays.{delay_end, end_with, freed_pair};

use crate::lock_delay::LockDelay;
use cat_model::{Freed, List, Memory};
use std::alloc::Global;

/// The lock delays that began so far, but for those of the keys that the last position freed, which began at this clock.
#[derive(Drop)]
pub(crate) struct Delays {
    begun: LockDelay,
    freed: List<Freed>,
    clock: u64,
}

// The later of two ends.
fn later(a: u128, b: u128) -> u128
    ensures { result ≡ max a b }
{
    if a < b { b } else { a }
}

// The greatest end of the delays of the key among these, which were freed at this clock, or 0.
#[tactic(auto, using(crate::proofs::Delaying::until_same, crate::proofs::Delaying::until_other, crate::proofs::Delaying::until_end))]
fn freed_until(freed: &[Freed], clock: u64, key: &str) -> u128
    ensures { result ≡ freed_until key.now clock (map freed_pair freed.now) }
{
    let mut end: u128 = 0;
    'freed: for one in freed {
        if one.key.as_str() == key {
            end = later(end, u128::from(clock) + u128::from(one.delay_ms));
        }
    }
    end
}

// The delays of these keys, freed at this clock, begin. Lack of memory may come behind some of them. Together with these
// keys the delays end as before.
#[tactic(auto, using(crate::proofs::Delaying::begins_next, crate::proofs::Delaying::begun_all, crate::proofs::Delaying::begun_some))]
fn begin_all(begun: &mut LockDelay, freed: &[Freed], clock: u64) -> Result<(), Memory>
    ensures ok { OnOk result ((key : Items ℕ) → end_of key begun.new ≡ end_with freed.now clock begun.old key) }
    ensures same { (key : Items ℕ) → end_with freed.now clock begun.new key ≡ end_with freed.now clock begun.old key }
{
    'freed: for one in freed {
        begun.started(one.key.clone()?, clock, one.delay_ms)?;
    }
    Ok(())
}

impl Delays {
    /// No delay began.
    pub(crate) fn new(alloc: Global) -> Result<Delays, Memory>
        ensures { IfOk result (λ d. (key : Items ℕ) → delay_end d key ≡ 0) }
    {
        Ok(Delays {
            begun: LockDelay::new(alloc)?,
            freed: List::new(alloc),
            clock: 0,
        })
    }

    /// The clock at which the key's delay is over, or 0 where none began.
    pub(crate) fn until(&self, key: &str) -> u128
        ensures { result ≡ delay_end self.now key.now }
    {
        later(
            freed_until(self.freed.as_slice(), self.clock, key),
            self.begun.until(key),
        )
    }

    /// Puts the delays of the keys that the last position freed with those that began before. No delay is over at
    /// another time for it, also where memory fails.
    pub(crate) fn settle(&mut self, alloc: Global) -> Result<(), Memory>
        ensures same { (key : Items ℕ) → delay_end self.new key ≡ delay_end self.old key }
        ensures ok { OnOk result (self.new.freed ≡ []) }
    {
        begin_all(&mut self.begun, self.freed.as_slice(), self.clock)?;
        self.freed = List::new(alloc);
        Ok(())
    }

    /// The next position freed these keys at this clock, once those of the last one are settled.
    pub(crate) fn note(&mut self, freed: List<Freed>, clock: u64)
        requires { self.old.freed ≡ [] }
        ensures { (key : Items ℕ) → delay_end self.new key ≡ max (freed_until key clock (map freed_pair freed)) (delay_end self.old key) }
    {
        self.freed = freed;
        self.clock = clock;
    }
}
