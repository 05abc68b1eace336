//! The reads that sleep at one server.

ghost use Rattle.std.specs.Prelude.{◌≡◌, ◌≢◌, ◌<◌, ◌≤◌, ℕ, [], true, false, None, filter, length, nat_le, not, IfNone, IfOk, IfSome, OnErr, OnOk};
ghost use Rattle.std.specs.Ordering.{nat_cmp};
ghost use Rattle.std.specs.Map.{lookup, remove_entry};
ghost use Rattle.std.specs.BTreeMap.{is_at};
ghost use Rattle.cat_model.specs.Reach.{is_on};
ghost use Rattle.timer_wheel.specs.Dues.{AreDue};

use crate::entries::enter;
use crate::exits::{cancel_each, remove_each, take_due};
use crate::registry::WatchRegistry;
use cat_model::{Chan, List, Memory};
use std::alloc::Global;
use std::marker::Model;
use timer_wheel::TimerWheel;

/// The reads that sleep at a server: each a waiter on its channels, with a timer for its deadline.
#[derive(Drop)]
pub struct SleepingReads {
    registry: WatchRegistry,
    timers: TimerWheel,
}

impl Model for SleepingReads {
    ghost use Rattle.read_watch.specs.Watch.{Sleepers, AreNumbers};

    ghost Value = { Sleepers };

    ghost view = { λ s. record { asleep = s.registry; timers = s.timers } };

    ghost invariant = { λ s. AreNumbers s.timers };
}

impl SleepingReads {
    ghost use Rattle.read_watch.specs.Watch.{SleepsAmong, Leave, OthersStay, hit_by, is_among, no_sleeper};

    /// Nobody sleeps.
    pub fn new(alloc: Global) -> Result<SleepingReads, Memory>
        ensures { IfOk result (λ s. s ≡ no_sleeper) }
    {
        let registry = WatchRegistry::new(alloc)?;
        let timers = TimerWheel::new(alloc)?;
        Ok(SleepingReads { registry, timers })
    }

    /// One of those that sleep.
    pub fn any(&self) -> Option<u64>
        ensures none { IfNone result (self.now.asleep ≡ []) }
        ensures some { IfSome result (λ number. lookup (is_at (nat_cmp number)) self.now.asleep ≢ None) }
    {
        self.registry.first()
    }

    /// A read sleeps no more, if it did. Takes no memory.
    pub fn forget(&mut self, number: u64)
        ensures others { OthersStay number self.old self.new }
        ensures gone { lookup (is_at (nat_cmp number)) self.new.asleep ≡ None }
        ensures left { self.new.asleep ≡ remove_entry (is_at (nat_cmp number)) self.old.asleep }
    {
        self.registry.remove(number);
        self.timers.cancel(u128::from(number));
    }

    /// A read sleeps on these channels until its deadline, and tells whether it does: there may be no memory, or as many
    /// sleep as may. Where it slept before, it does so no more.
    pub fn rest(&mut self, alloc: Global, number: u64, chans: &List<Chan>, deadline: u64) -> bool
        requires two { length chans.now ≤ 2 }
        ensures sleeps { result ≡ true → SleepsAmong number chans.now deadline self.new }
        ensures gone { result ≡ false → lookup (is_at (nat_cmp number)) self.new.asleep ≡ None }
        ensures others { OthersStay number self.old self.new }
    {
        self.forget(number);
        enter(
            alloc,
            &mut self.registry,
            &mut self.timers,
            number,
            chans,
            deadline,
        )
    }

    /// Those on any channel that a fired one reaches sleep no more, and are given.
    pub fn take_fired(&mut self, alloc: Global, fired: &List<Chan>) -> Result<List<u64>, Memory>
        ensures leave { IfOk result (λ l. Leave (λ chans _. is_on fired.now chans ≡ false) l self.old self.new) }
        ensures hit { IfOk result (λ l. l ≡ hit_by fired.now self.old.asleep) }
        ensures left { OnOk result (self.new.asleep ≡ filter (λ w. not (is_on fired.now w.1)) self.old.asleep) }
        ensures err { OnErr result (self.new ≡ self.old) }
    {
        let hit = self.registry.fire(alloc, fired)?;
        cancel_each(&mut self.timers, hit.as_slice());
        Ok(hit)
    }

    /// Those whose deadline has come sleep no more, and are given. Some may have gone also after lack of memory.
    pub fn take_over(&mut self, alloc: Global, clock: u64) -> Result<List<u64>, Memory>
        ensures leave { IfOk result (λ l. Leave (λ _ deadline. clock < deadline) l self.old self.new) }
        ensures due { IfOk result (λ l. AreDue self.old.timers clock l) }
        ensures left { OnOk result (self.new.timers ≡ filter (λ t. not (nat_le t.1 clock)) self.old.timers) }
        ensures gone { IfOk result (λ l. (n : ℕ) → is_among n l ≡ true → lookup (is_at (nat_cmp n)) self.new.asleep ≡ None) }
    {
        let over = take_due(alloc, &mut self.timers, clock)?;
        remove_each(&mut self.registry, over.as_slice());
        Ok(over)
    }
}
