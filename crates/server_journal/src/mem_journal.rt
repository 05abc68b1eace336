ghost use Rattle.std.specs.Prelude.{◌≡◌, ◌↔◌, ◌++◌, ◌≤◌, length, take, false, Some, OnOk, OnErr, IsErr, IsErrOf, IsTrue};
ghost use Rattle.std.specs.Io.{ReadsAtMost};
ghost use Rattle.outside.specs.Causes.{counted, HasCause};
ghost use Rattle.outside.specs.InMemory.{is_listed as is_listed_of};
ghost use Rattle.outside.specs.Keepers.{KeepHasCause};
ghost use Rattle.server_journal.specs.Journals.{CutsTo, GivesAt, GivesBytes, PutsBehind};

use crate::Journal;
use cat_model::{Bytes, List};
use outside::{Failed, KeepFail, is_listed};
use std::marker::Model;

// Copies the bytes from a place on, as many as there are and as there is room for.
fn copy_at(from: &[u8], at: u64, into: &mut [u8]) -> usize
    ensures bound { result ≤ length into.new }
    ensures given { GivesBytes at from.now result into.new }
{
    let start = at.min(from.len() as u64) as usize;
    let rest = &from[start..];
    let count = into.len().min(rest.len());
    into[..count].copy_from_slice(&rest[..count]);
    count
}

/// A journal in memory that never fails.
#[derive(Drop)]
pub struct SureJournal {
    bytes: Vec<u8>,
}

impl Model for SureJournal {
    ghost use Rattle.std.specs.Prelude.{ℕ, List};

    ghost Value = { List ℕ };

    ghost view = { λ j. j.bytes.items };
}

impl SureJournal {
    /// The journal with these bytes, which takes no memory.
    pub fn new(bytes: Bytes) -> SureJournal
        ensures { result ≡ bytes }
    {
        SureJournal {
            bytes: bytes.into_vec(),
        }
    }

    /// Its bytes.
    pub fn bytes(&self) -> &[u8]
        ensures { result.now ≡ self.now }
    {
        self.bytes.as_slice()
    }
}

impl Journal for SureJournal {
    ghost bytes = { λ j. Some j };

    ghost faults = { λ _. 0 };

    fn read(&mut self, at: u64, into: &mut [u8]) -> Result<usize, Failed>
        ensures bound { ReadsAtMost result into.new }
        ensures given { GivesAt at (Some self.old) result into.new }
        ensures same { Some self.new ≡ Some self.old }
        ensures cause { HasCause 0 0 result }
        ensures never { IsErr result → ⊥ }
    {
        Ok(copy_at(&self.bytes, at, into))
    }

    fn append(&mut self, piece: &[u8]) -> Result<(), KeepFail>
        ensures bytes { PutsBehind piece.now (Some self.old) (Some self.new) result }
        ensures cause { KeepHasCause 0 0 result }
        ensures never { IsErrOf result KeepFail.Failed → ⊥ }
    {
        if self.bytes.extend_from_slice(piece).is_err() {
            return Err(KeepFail::Memory);
        }
        Ok(())
    }

    fn cut(&mut self, length: u64) -> Result<(), Failed>
        ensures bytes { CutsTo length (Some self.old) (Some self.new) result }
        ensures cause { HasCause 0 0 result }
        ensures never { IsErr result → ⊥ }
    {
        if length < self.bytes.len() as u64 {
            self.bytes.truncate(length as usize);
        }
        Ok(())
    }
}

/// A journal in memory whose calls with the given numbers, counted from 1, fail. A failed `append` leaves the first
/// `torn` bytes of its piece, and a failed `cut` the old bytes. A call that finds no memory has no number.
#[derive(Drop)]
pub struct MemJournal {
    sure: SureJournal,
    failing: List<u64>,
    torn: usize,
    calls: u64,
    faults: u64,
}

impl Model for MemJournal {
    ghost use Rattle.server_journal.specs.Journals.{FaultyJournal};

    ghost Value = { FaultyJournal };

    ghost view = { λ j. record { bytes = j.sure; failing = j.failing; torn = j.torn; calls = j.calls; faults = j.faults } };
}

impl MemJournal {
    /// The journal with these bytes, which takes no memory.
    pub fn new(bytes: Bytes, failing: List<u64>, torn: usize) -> MemJournal
        ensures { result ≡ record { bytes = bytes; failing = failing; torn = torn; calls = 0; faults = 0 } }
    {
        MemJournal {
            sure: SureJournal::new(bytes),
            failing,
            torn,
            calls: 0,
            faults: 0,
        }
    }

    /// Its bytes.
    pub fn bytes(&self) -> &[u8]
        ensures { result.now ≡ self.now.bytes }
    {
        self.sure.bytes()
    }

    // Whether the next call is one that is to fail.
    fn fails_next(&self) -> bool
        ensures { result ≡ is_listed_of self.now.failing (counted self.now.calls) }
    {
        is_listed(&self.failing, self.calls.saturating_add(1))
    }

    // A call that fails.
    fn count_failure(&mut self)
        ensures counts { self.new ≡ record self.old { calls = counted self.old.calls; faults = counted self.old.faults } }
        ensures later { self.old.faults ≤ self.new.faults }
    {
        self.calls = self.calls.saturating_add(1);
        self.faults = self.faults.saturating_add(1);
    }
}

impl Journal for MemJournal {
    ghost bytes = { λ j. Some j.bytes };

    ghost faults = { λ j. j.faults };

    fn read(&mut self, at: u64, into: &mut [u8]) -> Result<usize, Failed>
        ensures bound { ReadsAtMost result into.new }
        ensures given { GivesAt at (Some self.old.bytes) result into.new }
        ensures same { Some self.new.bytes ≡ Some self.old.bytes }
        ensures cause { HasCause self.old.faults self.new.faults result }
        ensures fails { IsErr result ↔ IsTrue (is_listed_of self.old.failing (counted self.old.calls)) }
        ensures calls { self.new.calls ≡ counted self.old.calls }
        ensures failing { self.new.failing ≡ self.old.failing }
    {
        if self.fails_next() {
            self.count_failure();
            return Err(Failed);
        }
        self.calls = self.calls.saturating_add(1);
        self.sure.read(at, into)
    }

    fn append(&mut self, piece: &[u8]) -> Result<(), KeepFail>
        ensures bytes { PutsBehind piece.now (Some self.old.bytes) (Some self.new.bytes) result }
        ensures cause { KeepHasCause self.old.faults self.new.faults result }
        ensures listed { IsErrOf result KeepFail.Failed → IsTrue (is_listed_of self.old.failing (counted self.old.calls)) }
        ensures ok { OnOk result (is_listed_of self.old.failing (counted self.old.calls) ≡ false) }
        ensures torn { IsErrOf result KeepFail.Failed → self.new.bytes ≡ self.old.bytes ++ take self.old.torn piece.now }
        ensures memory { IsErrOf result KeepFail.Memory → self.new ≡ self.old }
        ensures failing { self.new.failing ≡ self.old.failing }
    {
        if self.fails_next() {
            let kept = self.torn.min(piece.len());
            if self.sure.append(&piece[..kept]).is_err() {
                return Err(KeepFail::Memory);
            }
            self.count_failure();
            return Err(KeepFail::Failed);
        }
        if self.sure.append(piece).is_err() {
            return Err(KeepFail::Memory);
        }
        self.calls = self.calls.saturating_add(1);
        Ok(())
    }

    fn cut(&mut self, length: u64) -> Result<(), Failed>
        ensures bytes { CutsTo length (Some self.old.bytes) (Some self.new.bytes) result }
        ensures cause { HasCause self.old.faults self.new.faults result }
        ensures fails { IsErr result ↔ IsTrue (is_listed_of self.old.failing (counted self.old.calls)) }
        ensures failed { OnErr result (self.new.bytes ≡ self.old.bytes) }
        ensures calls { self.new.calls ≡ counted self.old.calls }
        ensures failing { self.new.failing ≡ self.old.failing }
    {
        if self.fails_next() {
            self.count_failure();
            return Err(Failed);
        }
        self.calls = self.calls.saturating_add(1);
        self.sure.cut(length)
    }
}
