//! The wheel.

ghost use Rattle.std.specs.Prelude.{◌≡◌, ◌<◌, ◌≤◌, [], length, OnOk, OnErr, IfOk, is_some, filter, not, nat_le};
ghost use Rattle.std.specs.BTreeMap.{is_at, insert_entry};
ghost use Rattle.std.specs.Map.{lookup, remove_entry};
ghost use Rattle.std.specs.Ordering.{nat_cmp};
ghost use Rattle.timer_wheel.specs.Dues.{AreDue};

use crate::due::{find_due, keys_of};
use crate::place::Places;
use crate::slots::{Keys, empty_slots, set_timer, unset_timer, unset_timers};
use cat_model::Memory;
use std::alloc::Global;
use std::collections::BTreeMap;
use std::marker::Model;

/// Timers by key. Contracts see the keys, ascending, each with the time of its timer.
#[derive(Drop)]
pub struct TimerWheel {
    list: Keys,
    places: Places,
    /// No timer is before this time.
    low: u64,
}

impl Model for TimerWheel {
    ghost use Rattle.std.specs.Prelude.{ℕ, List, map};
    ghost use Rattle.timer_wheel.specs.Kept.{timed, Kept};

    ghost Value = { List (ℕ × ℕ) };

    ghost view = { λ a. map timed a.places.entries };

    ghost invariant = { λ a. Kept a.places.entries a.list a.low };
}

fn least(a: u64, b: u64) -> u64
    ensures first { result ≤ a }
    ensures second { result ≤ b }
{
    if a < b { a } else { b }
}

impl TimerWheel {
    /// A wheel with no timer.
    pub fn new(alloc: Global) -> Result<TimerWheel, Memory>
        ensures { IfOk result (λ w. w ≡ []) }
    {
        Ok(TimerWheel {
            list: empty_slots(alloc)?,
            places: BTreeMap::new(alloc),
            low: 0,
        })
    }

    /// How many timers are set.
    pub fn len(&self) -> usize
        ensures { result ≡ length self.now }
    {
        self.places.len()
    }

    /// Sets or replaces the timer of a key.
    pub fn set(&mut self, key: u128, at: u64) -> Result<(), Memory>
        requires few { length self.old < 1048576 }
        ensures ok { OnOk result (self.new ≡ insert_entry nat_cmp self.old key at) }
        ensures err { OnErr result (self.new ≡ self.old) }
    {
        self.low = least(self.low, at);
        set_timer(&mut self.list, &mut self.places, self.low, key, at)
    }

    /// Takes a timer out, and tells whether it was set. It takes no memory.
    pub fn cancel(&mut self, key: u128) -> bool
        ensures was { result ≡ is_some (lookup (is_at (nat_cmp key)) self.old) }
        ensures left { self.new ≡ remove_entry (is_at (nat_cmp key)) self.old }
    {
        unset_timer(&mut self.list, &mut self.places, self.low, key)
    }

    /// The keys of the timers whose time is now or before, by time and then by key. All timers stay.
    pub fn find_due(&self, alloc: Global, now: u64) -> Result<Vec<u128>, Memory>
        ensures { IfOk result (λ keys. AreDue self.now now keys.items) }
    {
        if now < self.low {
            return Ok(Vec::new(alloc));
        }
        let found = find_due(alloc, &self.list, &self.places, self.low, now)?;
        keys_of(alloc, &found)
    }

    /// Takes out the timers whose time is now or before, and gives their keys by time and then by key.
    pub fn due(&mut self, alloc: Global, now: u64) -> Result<Vec<u128>, Memory>
        ensures due { IfOk result (λ keys. AreDue self.old now keys.items) }
        ensures left { OnOk result (self.new ≡ filter (λ t. not (nat_le t.1 now)) self.old) }
        ensures err { OnErr result (self.new ≡ self.old) }
    {
        if now < self.low {
            return Ok(Vec::new(alloc));
        }
        let found = find_due(alloc, &self.list, &self.places, self.low, now)?;
        let keys = keys_of(alloc, &found)?;
        unset_timers(&mut self.list, &mut self.places, self.low, keys.as_slice());
        self.low = now;
        Ok(keys)
    }
}
