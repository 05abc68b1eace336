ghost use Rattle.std.specs.Prelude.{◌≡◌, ◌↔◌, [], length, Some, IfOk, OnOk, IsErrOf, IsTrue};
ghost use Rattle.std.specs.Io.{WritesAtMost};
ghost use Rattle.std.specs.Io.KnownBytes.{WriteAppends};
ghost use Rattle.outside.specs.Causes.{counted, WriteHasCause};
ghost use Rattle.outside.specs.InMemory.{is_listed};

use crate::failures::is_listed;
use crate::{KeepFail, Sink};
use cat_model::List;
use std::alloc::Global;
use std::marker::Model;

/// A sink in memory that never fails.
#[derive(Drop)]
pub struct SureSink {
    bytes: Vec<u8>,
}

impl Model for SureSink {
    ghost use Rattle.std.specs.Prelude.{ℕ, List};

    ghost Value = { List ℕ };

    ghost view = { λ s. s.bytes.items };
}

impl SureSink {
    /// The empty sink, which takes no memory.
    pub fn new(alloc: Global) -> SureSink
        ensures { result ≡ [] }
    {
        SureSink {
            bytes: Vec::new(alloc),
        }
    }

    /// The bytes that were taken.
    pub fn bytes(&self) -> &[u8]
        ensures { result.now ≡ self.now }
    {
        self.bytes.as_slice()
    }
}

impl Sink for SureSink {
    ghost held = { λ s. Some s };

    ghost faults = { λ _. 0 };

    fn write(&mut self, piece: &[u8]) -> Result<usize, KeepFail>
        ensures bound { WritesAtMost result piece.now }
        ensures bytes { WriteAppends (Some self.old) (Some self.new) result piece.now }
        ensures cause { WriteHasCause 0 0 result (length piece.now) }
        ensures whole { IfOk result (λ count. count ≡ length piece.now) }
    {
        if self.bytes.extend_from_slice(piece).is_err() {
            return Err(KeepFail::Memory);
        }
        Ok(piece.len())
    }
}

/// A sink in memory whose calls with the given numbers, counted from 1, fail. A call that finds no memory has no
/// number.
#[derive(Drop)]
pub struct MemSink {
    sure: SureSink,
    failing: List<u64>,
    calls: u64,
    faults: u64,
}

impl Model for MemSink {
    ghost use Rattle.outside.specs.InMemory.{FaultyStore};

    ghost Value = { FaultyStore };

    ghost view = { λ s. record { held = s.sure; failing = s.failing; calls = s.calls; faults = s.faults } };
}

impl MemSink {
    /// The empty sink, which takes no memory.
    pub fn new(alloc: Global, failing: List<u64>) -> MemSink
        ensures { result ≡ record { held = []; failing = failing; calls = 0; faults = 0 } }
    {
        MemSink {
            sure: SureSink::new(alloc),
            failing,
            calls: 0,
            faults: 0,
        }
    }

    /// The bytes that were taken.
    pub fn bytes(&self) -> &[u8]
        ensures { result.now ≡ self.now.held }
    {
        self.sure.bytes()
    }
}

impl Sink for MemSink {
    ghost held = { λ s. Some s.held };

    ghost faults = { λ s. s.faults };

    fn write(&mut self, piece: &[u8]) -> Result<usize, KeepFail>
        ensures bound { WritesAtMost result piece.now }
        ensures bytes { WriteAppends (Some self.old.held) (Some self.new.held) result piece.now }
        ensures cause { WriteHasCause self.old.faults self.new.faults result (length piece.now) }

        // The listed calls fail, and no other; the others take the whole piece.
        ensures fails { IsErrOf result KeepFail.Failed ↔ IsTrue (is_listed self.old.failing (counted self.old.calls)) }
        ensures whole { IfOk result (λ count. count ≡ length piece.now) }
        ensures memory { IsErrOf result KeepFail.Memory → self.new ≡ self.old }
        ensures ok_calls { OnOk result (self.new.calls ≡ counted self.old.calls) }
        ensures failed_calls { IsErrOf result KeepFail.Failed → self.new.calls ≡ counted self.old.calls }
        ensures failing { self.new.failing ≡ self.old.failing }
    {
        let call = self.calls.saturating_add(1);
        if is_listed(&self.failing, call) {
            self.calls = call;
            self.faults = self.faults.saturating_add(1);
            return Err(KeepFail::Failed);
        }
        if self.sure.write(piece).is_err() {
            return Err(KeepFail::Memory);
        }
        self.calls = call;
        Ok(piece.len())
    }
}
