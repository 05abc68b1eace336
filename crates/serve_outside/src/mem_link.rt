ghost use Rattle.std.specs.Prelude.{◌≡◌, ◌↔◌, ◌≤◌, ◌∷◌, ◌++◌, Some, min, [], length, take, drop, IfOk, OnOk, IsErr, IsErrOf, IsTrue};
ghost use Rattle.outside.specs.Causes.{counted};
ghost use Rattle.outside.specs.InMemory.{is_listed};

use crate::traffic::Traffic;
use crate::{Awaited, Link};
use cat_model::{Bytes, List};
use outside::{Failed, KeepFail, is_listed};
use std::alloc::Global;

/// What a connection in memory does.
#[derive(Drop)]
pub struct Script {
    /// The bytes that can be read from it.
    pub bytes: Bytes,
    /// The most bytes that one read gives, of which 0 counts as 1.
    pub most: usize,
    /// The numbers of the reads and writes that fail, and of the looks that find the client gone, counted from 1.
    pub failing: List<u64>,
}

/// A connection in memory, which follows a script. A write that finds no memory has no number.
#[derive(Drop)]
pub struct MemLink {
    script: Script,
    number: u64,
    // How many of the bytes were read.
    at: usize,
    said: Vec<u8>,
    ends: u64,
    read_faults: u64,
    write_faults: u64,
    shut: bool,
    calls: u64,
    traffic: Traffic,
    ghost within: { at ≤ length script.bytes },
    ghost heard: { traffic.seen.heard ≡ take at script.bytes },
    ghost written: { traffic.seen.said ≡ said.items },
}

// Copies the bytes from `at` on: as many as there are, as there is room for, and as the most is.
fn copy_from(bytes: &[u8], at: usize, most: usize, into: &mut [u8]) -> usize
    requires { at ≤ length bytes.now }
    ensures count { result ≡ min most (min (length into.old) (length (drop at bytes.now))) }
    ensures copied { take result into.new ≡ take result (drop at bytes.now) }
{
    let left = &bytes[at..];
    let count = most.min(into.len().min(left.len()));
    into[..count].copy_from_slice(&left[..count]);
    count
}

impl MemLink {
    ghost use Rattle.serve_outside.specs.Links.{IsNew};
    ghost use Rattle.serve_outside.specs.InMemory.{told, readable};

    /// The connection of that number, which takes no memory.
    pub fn new(alloc: Global, script: Script, number: u64) -> MemLink
        ensures new { IsNew number (told result) }
        ensures script { (result.script ≡ script) × (result.calls ≡ 0) }
        ensures tells { ((told result).heard ≡ Some []) × ((told result).said ≡ Some []) }
    {
        MemLink {
            script,
            number,
            at: 0,
            said: Vec::new(alloc),
            ends: 0,
            read_faults: 0,
            write_faults: 0,
            shut: false,
            calls: 0,
            traffic: Traffic::new(),
        }
    }

    /// Its number.
    pub fn number(&self) -> u64
        ensures { result ≡ (told self.now).number }
    {
        self.number
    }

    /// The bytes that were written to it.
    pub fn said(&self) -> &[u8]
        ensures { Some result.now ≡ (told self.now).said }
    {
        self.said.as_slice()
    }

    /// Whether it is shut.
    pub fn is_shut(&self) -> bool
        ensures { result ≡ (told self.now).shut }
    {
        self.shut
    }

    // Takes the next bytes.
    fn next_bytes(&mut self, into: &mut [u8]) -> usize
        ensures count { result ≡ readable self.old (length into.old) }
        ensures bound { result ≤ length into.new }
        ensures heard { (told self.new).heard ≡ Some (take self.old.at self.old.script.bytes ++ take result into.new) }
        ensures reads { (told self.new).reads ≡ ((told self.old).heard, (told self.old).said) ∷ (told self.old).reads }
        ensures rest { told self.new ≡ record (told self.old) { heard = (told self.new).heard; reads = (told self.new).reads } }
        ensures script { (self.new.script ≡ self.old.script) × (self.new.calls ≡ self.old.calls) }
    {
        let most = self.script.most.max(1);
        let count = copy_from(self.script.bytes.as_slice(), self.at, most, into);
        self.at += count;
        self.traffic = self.traffic.read(&into[..count]);
        count
    }
}

impl Link for MemLink {
    ghost use Rattle.serve_outside.specs.InMemory.{told, readable};
    ghost use Rattle.serve_outside.specs.Links.{Leaves, Reads, Writes};

    ghost state = { told };

    fn expect(&mut self, _what: Awaited) {}

    fn read(&mut self, into: &mut [u8]) -> Result<usize, Failed>
        ensures reads { Reads (told self.old) into.new result (told self.new) }

        // The listed calls fail, and no other; the others give all that there is room for.
        ensures fails { IsErr result ↔ IsTrue (is_listed self.old.script.failing (counted self.old.calls)) }
        ensures full { IfOk result (λ count. count ≡ readable self.old (length into.old)) }
        ensures calls { (self.new.calls ≡ counted self.old.calls) × (self.new.script ≡ self.old.script) }
    {
        self.calls = self.calls.saturating_add(1);
        if is_listed(&self.script.failing, self.calls) {
            self.traffic = self.traffic.read(&[]);
            self.read_faults = self.read_faults.saturating_add(1);
            return Err(Failed);
        }
        let count = self.next_bytes(into);
        if count == 0 && !into.is_empty() {
            self.ends = self.ends.saturating_add(1);
        }
        Ok(count)
    }

    fn write(&mut self, piece: &[u8]) -> Result<usize, KeepFail>
        ensures writes { Writes (told self.old) piece.now result (told self.new) }

        // The listed calls fail, and no other; the others take the whole piece.
        ensures fails { IsErrOf result KeepFail.Failed ↔ IsTrue (is_listed self.old.script.failing (counted self.old.calls)) }
        ensures whole { IfOk result (λ count. count ≡ length piece.now) }
        ensures memory { IsErrOf result KeepFail.Memory → (told self.new ≡ told self.old) × (self.new.calls ≡ self.old.calls) }
        ensures ok_calls { OnOk result (self.new.calls ≡ counted self.old.calls) }
        ensures failed_calls { IsErrOf result KeepFail.Failed → self.new.calls ≡ counted self.old.calls }
        ensures script { self.new.script ≡ self.old.script }
    {
        let call = self.calls.saturating_add(1);
        if is_listed(&self.script.failing, call) {
            self.calls = call;
            self.write_faults = self.write_faults.saturating_add(1);
            return Err(KeepFail::Failed);
        }
        if self.said.extend_from_slice(piece).is_err() {
            return Err(KeepFail::Memory);
        }
        self.traffic = self.traffic.written(piece);
        self.calls = call;
        Ok(piece.len())
    }

    // Its client waits for whatever comes, unless the look is one of the listed calls.
    fn has_gone(&mut self) -> bool
        ensures leaves { Leaves (told self.old) result (told self.new) }
        ensures listed { result ≡ is_listed self.old.script.failing (counted self.old.calls) }
        ensures calls { (self.new.calls ≡ counted self.old.calls) × (self.new.script ≡ self.old.script) }
    {
        self.calls = self.calls.saturating_add(1);
        let gone = is_listed(&self.script.failing, self.calls);
        if gone {
            self.read_faults = self.read_faults.saturating_add(1);
        }
        gone
    }

    fn shut(&mut self) {
        self.shut = true;
    }
}
