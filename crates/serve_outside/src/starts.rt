ghost use Rattle.std.specs.Prelude.{◌≡◌, ◌≤◌, ◌+◌, false, true};
ghost use Rattle.outside.specs.Causes.{counted, Rose};
ghost use Rattle.outside.specs.InMemory.{is_listed};

use crate::Spawner;
use cat_model::List;
use outside::is_listed;

/// Runs each job at once, and refuses those with the given numbers, counted from 1.
#[derive(Drop)]
pub struct MemSpawner {
    failing: List<u64>,
    calls: u64,
    faults: u64,
}

impl MemSpawner {
    pub fn new(failing: List<u64>) -> MemSpawner
        ensures { result ≡ record { failing = failing; calls = 0; faults = 0 } }
    {
        MemSpawner {
            failing,
            calls: 0,
            faults: 0,
        }
    }
}

impl Spawner for MemSpawner {
    ghost faults = { λ s. s.faults };

    fn refuses(&mut self) -> bool
        ensures listed { result ≡ is_listed self.old.failing (counted self.old.calls) }
        ensures counts { self.new ≡ record self.old { calls = counted self.old.calls; faults = self.new.faults } }
        ensures refused { result ≡ true → Rose self.old.faults self.new.faults }
        ensures taken { result ≡ false → self.new.faults ≡ self.old.faults }
        ensures counted { (self.old.faults ≤ self.new.faults) × (self.new.faults ≤ self.old.faults + 1) }
    {
        self.calls = self.calls.saturating_add(1);
        let listed = is_listed(&self.failing, self.calls);
        if listed {
            self.faults = self.faults.saturating_add(1);
        }
        listed
    }

    fn has_threads(&self) -> bool
        ensures { result ≡ false }
    {
        false
    }

    fn count_missed(&mut self) {
        self.faults = self.faults.saturating_add(1);
    }
}

/// Starts each job in a thread of its own, and refuses none.
#[derive(Drop)]
pub struct ThreadSpawner {
    missed: u64,
}

impl ThreadSpawner {
    pub fn new() -> ThreadSpawner
        ensures { ⟦<ThreadSpawner as Spawner>⟧.faults result ≡ 0 }
    {
        ThreadSpawner { missed: 0 }
    }
}

impl Spawner for ThreadSpawner {
    ghost faults = { λ s. s.missed };

    fn refuses(&mut self) -> bool
        ensures never { result ≡ false }
        ensures same { self.new ≡ self.old }
        ensures refused { result ≡ true → Rose self.old.missed self.new.missed }
        ensures taken { result ≡ false → self.new.missed ≡ self.old.missed }
        ensures counted { (self.old.missed ≤ self.new.missed) × (self.new.missed ≤ self.old.missed + 1) }
    {
        false
    }

    fn has_threads(&self) -> bool
        ensures { result ≡ true }
    {
        true
    }

    fn count_missed(&mut self) {
        self.missed = self.missed.saturating_add(1);
    }
}
