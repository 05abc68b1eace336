ghost use Rattle.std.specs.Prelude.{◌≡◌, ◌↔◌, min, length, take, drop, Some, OnOk, IsErr, IsTrue};
ghost use Rattle.std.specs.Io.{ReadsAtMost};
ghost use Rattle.std.specs.Io.KnownBytes.{ReadConsumes};
ghost use Rattle.outside.specs.Causes.{counted, HasCause, CountsEnd};
ghost use Rattle.outside.specs.InMemory.{is_listed};

use crate::failures::is_listed;
use crate::{Failed, Source};
use cat_model::{Bytes, List};
use std::marker::Model;

// Copies as many bytes as there are and as there is room for.
fn copy_front(from: &[u8], into: &mut [u8]) -> usize
    ensures count { result ≡ min (length into.old) (length from.now) }
    ensures copied { take result into.new ≡ take result from.now }
{
    let count = into.len().min(from.len());
    into[..count].copy_from_slice(&from[..count]);
    count
}

/// A source in memory that never fails.
#[derive(Drop)]
pub struct SureSource {
    bytes: Bytes,
    at: usize,
    ends: u64,
}

impl Model for SureSource {
    ghost use Rattle.std.specs.Prelude.{◌≤◌, length, drop};
    ghost use Rattle.outside.specs.InMemory.{Supply};

    ghost Value = { Supply };

    ghost view = { λ s. record { left = drop s.at s.bytes; ends = s.ends } };

    ghost invariant = { λ s. s.at ≤ length s.bytes };
}

impl SureSource {
    /// The source of these bytes, which takes no memory.
    pub fn new(bytes: Bytes) -> SureSource
        ensures { result ≡ record { left = bytes; ends = 0 } }
    {
        SureSource {
            bytes,
            at: 0,
            ends: 0,
        }
    }

    /// The bytes that are left.
    pub fn left(&self) -> &[u8]
        ensures { result.now ≡ self.now.left }
    {
        &self.bytes.as_slice()[self.at..]
    }
}

impl Source for SureSource {
    ghost left = { λ s. Some s.left };

    ghost faults = { λ _. 0 };

    ghost ends = { λ s. s.ends };

    fn read(&mut self, into: &mut [u8]) -> Result<usize, Failed>
        ensures bound { ReadsAtMost result into.new }
        ensures bytes { ReadConsumes (Some self.old.left) (Some self.new.left) result into.new }
        ensures cause { HasCause 0 0 result }
        ensures end { CountsEnd self.old.ends self.new.ends result (length into.old) }
        ensures full { result ≡ Ok (min (length into.old) (length self.old.left)) }
    {
        let count = copy_front(&self.bytes.as_slice()[self.at..], into);
        self.at += count;
        if count == 0 && !into.is_empty() {
            self.ends = self.ends.saturating_add(1);
        }
        Ok(count)
    }
}

/// A source in memory whose calls with the given numbers, counted from 1, fail.
#[derive(Drop)]
pub struct MemSource {
    sure: SureSource,
    failing: List<u64>,
    calls: u64,
    faults: u64,
}

impl Model for MemSource {
    ghost use Rattle.outside.specs.InMemory.{FaultySupply};

    ghost Value = { FaultySupply };

    ghost view = { λ s. record { left = s.sure.left; ends = s.sure.ends; failing = s.failing; calls = s.calls; faults = s.faults } };
}

impl MemSource {
    /// The source of these bytes, which takes no memory.
    pub fn new(bytes: Bytes, failing: List<u64>) -> MemSource
        ensures { result ≡ record { left = bytes; ends = 0; failing = failing; calls = 0; faults = 0 } }
    {
        MemSource {
            sure: SureSource::new(bytes),
            failing,
            calls: 0,
            faults: 0,
        }
    }

    /// The bytes that are left.
    pub fn left(&self) -> &[u8]
        ensures { result.now ≡ self.now.left }
    {
        self.sure.left()
    }
}

impl Source for MemSource {
    ghost left = { λ s. Some s.left };

    ghost faults = { λ s. s.faults };

    ghost ends = { λ s. s.ends };

    fn read(&mut self, into: &mut [u8]) -> Result<usize, Failed>
        ensures bound { ReadsAtMost result into.new }
        ensures bytes { ReadConsumes (Some self.old.left) (Some self.new.left) result into.new }
        ensures cause { HasCause self.old.faults self.new.faults result }
        ensures end { CountsEnd self.old.ends self.new.ends result (length into.old) }

        // The listed calls fail, and no other; the others give all that there is room for.
        ensures fails { IsErr result ↔ IsTrue (is_listed self.old.failing (counted self.old.calls)) }
        ensures full { OnOk result (result ≡ Ok (min (length into.old) (length self.old.left))) }
        ensures calls { self.new.calls ≡ counted self.old.calls }
        ensures failing { self.new.failing ≡ self.old.failing }
    {
        self.calls = self.calls.saturating_add(1);
        if is_listed(&self.failing, self.calls) {
            self.faults = self.faults.saturating_add(1);
            return Err(Failed);
        }
        self.sure.read(into)
    }
}
