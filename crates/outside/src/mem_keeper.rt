ghost use Rattle.std.specs.Prelude.{◌≡◌, ◌≢◌, ◌↔◌, ◌-◌, ◌≤◌, Some, true, IfOk, OnOk, OnErr, IsErr, IsErrOf, IsTrue};
ghost use Rattle.outside.specs.Causes.{counted};
ghost use Rattle.outside.specs.Keepers.{nothing_kept, with_vote, with_entries, Changes, FailsWhereArmed, KeepHasCause, CountsDown};
ghost use Rattle.outside.specs.KeepersInMemory.{fails_next, is_sure};

use crate::copies::copied;
use crate::failures::is_listed;
use crate::{KeepFail, Keeper};
use cat_model::{Entry, Kept, List};
use std::alloc::Global;
use std::marker::Model;

/// A durable store in memory that fails only where it is armed, and then holds the old contents.
#[derive(Drop)]
pub struct SureKeeper {
    term: u64,
    vote: Option<u32>,
    log: Vec<Entry>,
    armed: u32,
    faults: u64,
}

impl Model for SureKeeper {
    ghost use Rattle.outside.specs.KeepersInMemory.{ArmedKeeper};

    ghost Value = { ArmedKeeper };

    ghost view = { λ s. record {
      kept = record { term = s.term; vote = s.vote; log = s.log.items };
      armed = s.armed;
      faults = s.faults;
    } };
}

impl SureKeeper {
    /// The store that holds nothing, which takes no memory.
    pub fn new(alloc: Global) -> SureKeeper
        ensures { result ≡ record { kept = nothing_kept; armed = 0; faults = 0 } }
    {
        SureKeeper {
            term: 0,
            vote: None,
            log: Vec::new(alloc),
            armed: 0,
            faults: 0,
        }
    }

    /// The store that holds what an earlier one held, which takes no memory.
    pub fn holding(kept: Kept) -> SureKeeper
        ensures { result ≡ record { kept = kept; armed = 0; faults = 0 } }
    {
        SureKeeper {
            term: kept.term,
            vote: kept.vote,
            log: kept.log.into_vec(),
            armed: 0,
            faults: 0,
        }
    }

    // Whether the next call is the armed one.
    fn is_armed(&self) -> bool
        ensures { IsTrue result ↔ (self.now.armed ≡ 1) }
    {
        self.armed == 1
    }

    // A call that was made lowers the armed number.
    fn count_call(&mut self)
        ensures { self.new ≡ record self.old { armed = self.old.armed - 1 } }
    {
        self.armed = self.armed.saturating_sub(1);
    }

    // A call that fails.
    fn count_failure(&mut self)
        ensures counts { self.new ≡ record self.old { armed = self.old.armed - 1; faults = counted self.old.faults } }
        ensures later { self.old.faults ≤ self.new.faults }
    {
        self.armed = self.armed.saturating_sub(1);
        self.faults = self.faults.saturating_add(1);
    }

    // A copy of what it holds.
    fn copy(&self, alloc: Global) -> Result<Kept, KeepFail>
        ensures ok { IfOk result (λ copy. copy ≡ self.now.kept) }
        ensures err { OnErr result (IsErrOf result KeepFail.Memory) }
    {
        let Ok(log) = copied(alloc, self.log.as_slice()) else {
            return Err(KeepFail::Memory);
        };
        Ok(Kept {
            term: self.term,
            vote: self.vote,
            log: List::from(log),
        })
    }

    // Drops the entries from the index on and appends copies of these.
    fn replace_from(
        &mut self,
        alloc: Global,
        index: u64,
        entries: &List<Entry>,
    ) -> Result<(), KeepFail>
        ensures ok { OnOk result (self.new ≡ record self.old { kept = with_entries index entries.now self.old.kept }) }
        ensures err { OnErr result (IsErrOf result KeepFail.Memory) }
        ensures unchanged { OnErr result (self.new ≡ self.old) }
    {
        let Ok(mut copies) = copied(alloc, entries.as_slice()) else {
            return Err(KeepFail::Memory);
        };
        if self.log.reserve(copies.len()).is_err() {
            return Err(KeepFail::Memory);
        }
        self.log.truncate(index.saturating_sub(1) as usize);
        let Ok(()) = self.log.append(&mut copies) else {
            unreachable!()
        };
        Ok(())
    }
}

impl Keeper for SureKeeper {
    ghost held = { λ s. Some s.kept };

    ghost faults = { λ s. s.faults };

    ghost armed = { λ s. s.armed };

    ghost sure = { λ _. true };

    fn load(&mut self, alloc: Global) -> Result<Kept, KeepFail>
        ensures told { IfOk result (λ kept. kept ≡ self.old.kept) }
        ensures held { Some self.new.kept ≡ Some self.old.kept }
        ensures cause { KeepHasCause self.old.faults self.new.faults result }
        ensures armed { CountsDown self.old.armed self.new.armed result }
        ensures asked { FailsWhereArmed true self.old.armed (Some self.old.kept) (Some self.new.kept) result }
        ensures sure { true ≡ true }
        ensures fails { IsErrOf result KeepFail.Failed ↔ (self.old.armed ≡ 1) }
        ensures unchanged { OnErr result (self.old.armed ≢ 1 → self.new ≡ self.old) }
    {
        if self.is_armed() {
            self.count_failure();
            return Err(KeepFail::Failed);
        }
        let Ok(kept) = self.copy(alloc) else {
            return Err(KeepFail::Memory);
        };
        self.count_call();
        Ok(kept)
    }

    fn save_vote(&mut self, _alloc: Global, term: u64, vote: Option<u32>) -> Result<(), KeepFail>
        ensures held { Changes (with_vote term vote) (Some self.old.kept) (Some self.new.kept) result }
        ensures cause { KeepHasCause self.old.faults self.new.faults result }
        ensures armed { CountsDown self.old.armed self.new.armed result }
        ensures asked { FailsWhereArmed true self.old.armed (Some self.old.kept) (Some self.new.kept) result }
        ensures sure { true ≡ true }
        ensures fails { IsErr result ↔ (self.old.armed ≡ 1) }
        ensures failed { OnErr result (IsErrOf result KeepFail.Failed × (self.new.kept ≡ self.old.kept)) }
    {
        if self.is_armed() {
            self.count_failure();
            return Err(KeepFail::Failed);
        }
        self.count_call();
        self.term = term;
        self.vote = vote;
        Ok(())
    }

    fn store_from(
        &mut self,
        alloc: Global,
        index: u64,
        entries: &List<Entry>,
    ) -> Result<(), KeepFail>
        ensures held { Changes (with_entries index entries.now) (Some self.old.kept) (Some self.new.kept) result }
        ensures cause { KeepHasCause self.old.faults self.new.faults result }
        ensures armed { CountsDown self.old.armed self.new.armed result }
        ensures asked { FailsWhereArmed true self.old.armed (Some self.old.kept) (Some self.new.kept) result }
        ensures sure { true ≡ true }
        ensures fails { IsErrOf result KeepFail.Failed ↔ (self.old.armed ≡ 1) }
        ensures failed { OnErr result (self.new.kept ≡ self.old.kept) }
        ensures unchanged { OnErr result (self.old.armed ≢ 1 → self.new ≡ self.old) }
    {
        if self.is_armed() {
            self.count_failure();
            return Err(KeepFail::Failed);
        }
        if self.replace_from(alloc, index, entries).is_err() {
            return Err(KeepFail::Memory);
        }
        self.count_call();
        Ok(())
    }

    fn fail_at(&mut self, nth: u32) {
        self.armed = nth;
    }
}

/// A durable store in memory of which the armed call fails and those with the given numbers, counted from 1. A failed
/// call leaves the old contents. A call that finds no memory has no number, and `fail_at` has none.
#[derive(Drop)]
pub struct MemKeeper {
    sure: SureKeeper,
    failing: List<u64>,
    calls: u64,
}

impl Model for MemKeeper {
    ghost use Rattle.outside.specs.KeepersInMemory.{FaultyKeeper};

    ghost Value = { FaultyKeeper };

    ghost view = { λ s. record {
      kept = s.sure.kept;
      armed = s.sure.armed;
      faults = s.sure.faults;
      failing = s.failing;
      calls = s.calls;
    } };
}

impl MemKeeper {
    /// The store that holds nothing, which takes no memory.
    pub fn new(alloc: Global, failing: List<u64>) -> MemKeeper
        ensures { result ≡ record { kept = nothing_kept; armed = 0; faults = 0; failing = failing; calls = 0 } }
    {
        MemKeeper {
            sure: SureKeeper::new(alloc),
            failing,
            calls: 0,
        }
    }

    // Whether the next call is one that is to fail.
    #[tactic(auto, unfolding(crate::specs::KeepersInMemory::fails_next))]
    fn fails_next(&self) -> bool
        ensures next { result ≡ fails_next self.now }
        ensures armed { self.now.armed ≡ 1 → IsTrue result }
        ensures sure { is_sure self.now ≡ true → IsTrue result → self.now.armed ≡ 1 }
    {
        self.sure.is_armed() || is_listed(&self.failing, self.calls.saturating_add(1))
    }

    // A call that fails.
    fn count_failure(&mut self)
        ensures counts { self.new ≡ record self.old {
          armed = self.old.armed - 1;
          faults = counted self.old.faults;
          calls = counted self.old.calls;
        } }
        ensures later { self.old.faults ≤ self.new.faults }
    {
        self.sure.count_failure();
        self.calls = self.calls.saturating_add(1);
    }
}

impl Keeper for MemKeeper {
    ghost held = { λ s. Some s.kept };

    ghost faults = { λ s. s.faults };

    ghost armed = { λ s. s.armed };

    ghost sure = { λ s. is_sure s };

    fn load(&mut self, alloc: Global) -> Result<Kept, KeepFail>
        ensures told { IfOk result (λ kept. kept ≡ self.old.kept) }
        ensures held { Some self.new.kept ≡ Some self.old.kept }
        ensures cause { KeepHasCause self.old.faults self.new.faults result }
        ensures armed { CountsDown self.old.armed self.new.armed result }
        ensures asked { FailsWhereArmed (is_sure self.old) self.old.armed (Some self.old.kept) (Some self.new.kept) result }
        ensures sure { is_sure self.new ≡ is_sure self.old }
        ensures fails { IsErrOf result KeepFail.Failed ↔ IsTrue (fails_next self.old) }
        ensures memory { IsErrOf result KeepFail.Memory → self.new ≡ self.old }
        ensures ok_calls { OnOk result (self.new.calls ≡ counted self.old.calls) }
        ensures failed_calls { IsErrOf result KeepFail.Failed → self.new.calls ≡ counted self.old.calls }
        ensures failing { self.new.failing ≡ self.old.failing }
    {
        if self.fails_next() {
            self.count_failure();
            return Err(KeepFail::Failed);
        }
        let Ok(kept) = self.sure.load(alloc) else {
            return Err(KeepFail::Memory);
        };
        self.calls = self.calls.saturating_add(1);
        Ok(kept)
    }

    fn save_vote(&mut self, alloc: Global, term: u64, vote: Option<u32>) -> Result<(), KeepFail>
        ensures held { Changes (with_vote term vote) (Some self.old.kept) (Some self.new.kept) result }
        ensures cause { KeepHasCause self.old.faults self.new.faults result }
        ensures armed { CountsDown self.old.armed self.new.armed result }
        ensures asked { FailsWhereArmed (is_sure self.old) self.old.armed (Some self.old.kept) (Some self.new.kept) result }
        ensures sure { is_sure self.new ≡ is_sure self.old }
        ensures fails { IsErrOf result KeepFail.Failed ↔ IsTrue (fails_next self.old) }
        ensures failed { OnErr result (IsErrOf result KeepFail.Failed × (self.new.kept ≡ self.old.kept)) }
        ensures calls { self.new.calls ≡ counted self.old.calls }
        ensures failing { self.new.failing ≡ self.old.failing }
    {
        if self.fails_next() {
            self.count_failure();
            return Err(KeepFail::Failed);
        }
        let Ok(()) = self.sure.save_vote(alloc, term, vote) else {
            unreachable!()
        };
        self.calls = self.calls.saturating_add(1);
        Ok(())
    }

    fn store_from(
        &mut self,
        alloc: Global,
        index: u64,
        entries: &List<Entry>,
    ) -> Result<(), KeepFail>
        ensures held { Changes (with_entries index entries.now) (Some self.old.kept) (Some self.new.kept) result }
        ensures cause { KeepHasCause self.old.faults self.new.faults result }
        ensures armed { CountsDown self.old.armed self.new.armed result }
        ensures asked { FailsWhereArmed (is_sure self.old) self.old.armed (Some self.old.kept) (Some self.new.kept) result }
        ensures sure { is_sure self.new ≡ is_sure self.old }
        ensures fails { IsErrOf result KeepFail.Failed ↔ IsTrue (fails_next self.old) }
        ensures failed { OnErr result (self.new.kept ≡ self.old.kept) }
        ensures memory { IsErrOf result KeepFail.Memory → self.new ≡ self.old }
        ensures ok_calls { OnOk result (self.new.calls ≡ counted self.old.calls) }
        ensures failed_calls { IsErrOf result KeepFail.Failed → self.new.calls ≡ counted self.old.calls }
        ensures failing { self.new.failing ≡ self.old.failing }
    {
        if self.fails_next() {
            self.count_failure();
            return Err(KeepFail::Failed);
        }
        let Ok(()) = self.sure.store_from(alloc, index, entries) else {
            return Err(KeepFail::Memory);
        };
        self.calls = self.calls.saturating_add(1);
        Ok(())
    }

    fn fail_at(&mut self, nth: u32)
        ensures held { Some self.new.kept ≡ Some self.old.kept }
        ensures faults { self.new.faults ≡ self.old.faults }
        ensures armed { self.new.armed ≡ nth }
        ensures sure { is_sure self.new ≡ is_sure self.old }
        ensures calls { self.new.calls ≡ self.old.calls }
        ensures failing { self.new.failing ≡ self.old.failing }
    {
        self.sure.fail_at(nth);
    }
}
