ghost use Rattle.std.specs.Prelude.{◌≡◌, ◌≢◌, ◌↔◌, ◌⊎◌, ◌-◌, ◌+◌, ◌≤◌, ℕ, List as Items, All, None, Some, true, false, OnOk, IfOk, IfSome, IsErrOf, IsTrue};
ghost use Rattle.std.specs.Option.{ForSome};
ghost use Rattle.cat_model.specs.Bounds.{IsListOf};
ghost use Rattle.outside.specs.Causes.{Rose, counted};
ghost use Rattle.outside.specs.Keepers.{Changes, CountsDown, FailsWhereArmed, KeepHasCause, MayStore, Tells, with_entries, with_vote};
ghost use Rattle.store_records.specs.declared.records.Record.{Record};
ghost use Rattle.store_records.specs.declared.records.Record.TheVariants as calls;
ghost use Rattle.store_records.specs.Records.{HasSpelling, IsEntry, IsServer};
ghost use Rattle.file_keeper.specs.Journal.{FileStore, IsWhole, MayFail, MayFailToLoad, MayPut, faults_of, kept_of, made, held_by};

use crate::reader::open_journal;
use crate::window::Unread;
use cat_model::{Entry, Kept, List};
use outside::{KeepFail, Keeper};
use server_journal::Journal;
use std::alloc::Global;
use std::marker::Model;
use store_records::{store_record, vote_record};

/// A durable store over a journal, to which each call that writes adds its record. From `new` on, and after a failed
/// call, every call but `load` fails, until a `load` answers Ok.
#[derive(Drop)]
pub struct FileKeeper<J: Journal> {
    journal: J,
    armed: u32,
    own: u64,
    ready: bool,
}

impl<J: Journal> Model for FileKeeper<J> {
    ghost use Rattle.std.specs.Prelude.{◌≡◌, true};
    ghost use Rattle.std.specs.Option.{ForSome};
    ghost use Rattle.file_keeper.specs.Journal.{FileStore, IsWhole};

    ghost Value = { FileStore };

    ghost view = { λ s. record { bytes = J.bytes s.journal; journal_faults = J.faults s.journal; own = s.own; armed = s.armed; ready = s.ready } };

    ghost invariant = { λ s. s.ready ≡ true → ForSome (J.bytes s.journal) IsWhole };
}

impl<J: Journal> FileKeeper<J> {
    /// The store over this journal, which is to be loaded before anything else. It takes no memory.
    pub fn new(journal: J) -> FileKeeper<J>
        ensures { result ≡ record { bytes = J.bytes journal; journal_faults = J.faults journal; own = 0; armed = 0; ready = false } }
    {
        FileKeeper {
            journal,
            armed: 0,
            own: 0,
            ready: false,
        }
    }

    /// The journal, which a later store may be made over.
    pub fn into_journal(self) -> J
        ensures bytes { J.bytes result ≡ self.bytes }
        ensures faults { J.faults result ≡ self.journal_faults }
    {
        self.journal
    }

    // A call that fails on the store's own account.
    fn refuse(&mut self)
        ensures counts { self.new ≡ record self.old { own = counted self.old.own; armed = self.old.armed - 1; ready = false } }
        ensures later { self.old.own ≤ self.new.own }
    {
        self.own = self.own.saturating_add(1);
        self.armed = self.armed.saturating_sub(1);
        self.ready = false;
    }

    // Whether a call that writes is to be made.
    fn is_open(&self) -> bool
        ensures ready { result ≡ true → self.now.ready ≡ true }
        ensures idle { result ≡ true → self.now.armed ≢ 1 }
        ensures closed { result ≡ false → (self.now.armed ≡ 1) ⊎ (self.now.ready ≡ false) }
    {
        self.ready && self.armed != 1
    }

    // Puts a record behind the journal.
    fn put(&mut self, piece: &[u8]) -> Result<(), KeepFail>
        requires ready { self.old.ready ≡ true }
        requires idle { self.old.armed ≢ 1 }
        requires fits { (r : Record) × MayPut self.old.bytes piece.now r }
        ensures held { (r : Record) → MayPut self.old.bytes piece.now r → Changes (made r) (held_by self.old.bytes) (held_by self.new.bytes) result }
        ensures cause { KeepHasCause (faults_of self.old) (faults_of self.new) result }
        ensures armed { CountsDown self.old.armed self.new.armed result }
        ensures rose { IsErrOf result KeepFail.Failed → Rose self.old.journal_faults self.new.journal_faults }
        ensures failed { IsErrOf result KeepFail.Failed → self.new.ready ≡ false }
        ensures ok { OnOk result (self.new.ready ≡ true) }
        ensures whole { OnOk result (ForSome self.new.bytes IsWhole) }
        ensures memory { IsErrOf result KeepFail.Memory → self.new ≡ self.old }
    {
        match self.journal.append(piece) {
            Ok(()) => {
                self.armed = self.armed.saturating_sub(1);
                Ok(())
            }
            Err(KeepFail::Failed) => {
                self.armed = self.armed.saturating_sub(1);
                self.ready = false;
                Err(KeepFail::Failed)
            }
            Err(KeepFail::Memory) => Err(KeepFail::Memory),
        }
    }
}

// A server's number has 32 bits.
fn fits_server(_server: u32)
    ensures { IsServer _server }
{}

fn fits_vote(vote: Option<u32>)
    ensures { IfSome vote IsServer }
{
    match vote {
        None => {}
        Some(server) => fits_server(server),
    }
}

fn is_entry(entry: &Entry) -> bool
    ensures { IsTrue result ↔ IsEntry entry.now }
{
    let _term = entry.term;
    let _number = entry.number;
    entry.command.in_bounds()
}

fn all_are_entries(entries: &[Entry]) -> bool
    ensures { IsTrue result ↔ All IsEntry entries.now }
{
    for entry in entries {
        if !is_entry(entry) {
            return false;
        }
    }
    true
}

// Whether each of the entries has a spelling.
fn are_entries(entries: &List<Entry>) -> bool
    ensures { IsTrue result ↔ IsListOf 1048576 IsEntry entries.now }
{
    entries.len() <= 1_048_576 && all_are_entries(entries.as_slice())
}

impl<J: Journal> Keeper for FileKeeper<J> {
    ghost held = { λ s. held_by s.bytes };

    ghost faults = { λ s. s.journal_faults + s.own };

    ghost armed = { λ s. s.armed };

    ghost sure = { λ _. false };

    fn load(&mut self, alloc: Global) -> Result<Kept, KeepFail>
        ensures told { IfOk result (Tells (held_by self.old.bytes)) }
        ensures held { held_by self.new.bytes ≡ held_by self.old.bytes }
        ensures cause { KeepHasCause (self.old.journal_faults + self.old.own) (self.new.journal_faults + self.new.own) result }
        ensures armed { CountsDown self.old.armed self.new.armed result }
        ensures asked { FailsWhereArmed false self.old.armed (held_by self.old.bytes) (held_by self.new.bytes) result }
        ensures sure { false ≡ false }

        // It fails just where the journal does, where it is armed, and where the bytes are no journal, which stay then.
        ensures fails { IsErrOf result KeepFail.Failed → MayFailToLoad self.old self.new }
        ensures refuses { OnOk result (ForSome self.old.bytes (λ bytes. (kept : Kept) × (kept_of bytes ≡ Some kept))) }
        ensures left { (bytes : Items ℕ) → self.old.bytes ≡ Some bytes → kept_of bytes ≡ None → self.new.bytes ≡ Some bytes }
        ensures ready { OnOk result (self.new.ready ≡ true) }
        ensures failed { IsErrOf result KeepFail.Failed → self.new.ready ≡ false }
        ensures whole { OnOk result (ForSome self.new.bytes IsWhole) }
        ensures memory { IsErrOf result KeepFail.Memory → self.new ≡ self.old }
    {
        if self.armed == 1 {
            self.refuse();
            return Err(KeepFail::Failed);
        }
        match open_journal(alloc, &mut self.journal) {
            Ok(kept) => {
                self.armed = self.armed.saturating_sub(1);
                self.ready = true;
                Ok(kept)
            }
            Err(Unread::Failed) => {
                self.armed = self.armed.saturating_sub(1);
                self.ready = false;
                Err(KeepFail::Failed)
            }
            Err(Unread::Other) => {
                self.own = self.own.saturating_add(1);
                self.armed = self.armed.saturating_sub(1);
                self.ready = false;
                Err(KeepFail::Failed)
            }
            Err(Unread::Memory) => Err(KeepFail::Memory),
        }
    }

    fn save_vote(&mut self, alloc: Global, term: u64, vote: Option<u32>) -> Result<(), KeepFail>
        ensures held { Changes (with_vote term vote) (held_by self.old.bytes) (held_by self.new.bytes) result }
        ensures cause { KeepHasCause (self.old.journal_faults + self.old.own) (self.new.journal_faults + self.new.own) result }
        ensures armed { CountsDown self.old.armed self.new.armed result }
        ensures asked { FailsWhereArmed false self.old.armed (held_by self.old.bytes) (held_by self.new.bytes) result }
        ensures sure { false ≡ false }

        // It fails only where the journal does, where it is armed, and where there was no load.
        ensures fails { IsErrOf result KeepFail.Failed → MayFail self.old self.new }
        ensures unready { self.old.ready ≡ false → IsErrOf result KeepFail.Failed }
        ensures ready { OnOk result (self.new.ready ≡ true) }
        ensures failed { IsErrOf result KeepFail.Failed → self.new.ready ≡ false }
        ensures whole { OnOk result (ForSome self.new.bytes IsWhole) }
        ensures memory { IsErrOf result KeepFail.Memory → self.new ≡ self.old }
    {
        if !self.is_open() {
            self.refuse();
            return Err(KeepFail::Failed);
        }
        fits_vote(vote);
        let Ok(piece) = vote_record(alloc, term, vote) else {
            return Err(KeepFail::Memory);
        };
        self.put(piece.as_slice())
    }

    fn store_from(
        &mut self,
        alloc: Global,
        index: u64,
        entries: &List<Entry>,
    ) -> Result<(), KeepFail>
        requires { ForSome (held_by self.old.bytes) (MayStore index entries.now) }
        ensures held { Changes (with_entries index entries.now) (held_by self.old.bytes) (held_by self.new.bytes) result }
        ensures cause { KeepHasCause (self.old.journal_faults + self.old.own) (self.new.journal_faults + self.new.own) result }
        ensures armed { CountsDown self.old.armed self.new.armed result }
        ensures asked { FailsWhereArmed false self.old.armed (held_by self.old.bytes) (held_by self.new.bytes) result }
        ensures sure { false ≡ false }

        // It fails only where the journal does, where it is armed, where there was no load, and where the call has no
        // spelling.
        ensures fails { IsErrOf result KeepFail.Failed → MayFail self.old self.new ⊎ (HasSpelling (calls.Store index entries.now) → ⊥) }
        ensures unready { self.old.ready ≡ false → IsErrOf result KeepFail.Failed }
        ensures ready { OnOk result (self.new.ready ≡ true) }
        ensures failed { IsErrOf result KeepFail.Failed → self.new.ready ≡ false }
        ensures whole { OnOk result (ForSome self.new.bytes IsWhole) }
        ensures memory { IsErrOf result KeepFail.Memory → self.new ≡ self.old }
    {
        if !self.is_open() || !are_entries(entries) {
            self.refuse();
            return Err(KeepFail::Failed);
        }
        match store_record(alloc, index, entries) {
            Ok(Some(piece)) => self.put(piece.as_slice()),
            Ok(None) => {
                self.refuse();
                Err(KeepFail::Failed)
            }
            Err(_) => Err(KeepFail::Memory),
        }
    }

    fn fail_at(&mut self, nth: u32)
        ensures held { held_by self.new.bytes ≡ held_by self.old.bytes }
        ensures faults { self.new.journal_faults + self.new.own ≡ self.old.journal_faults + self.old.own }
        ensures armed { self.new.armed ≡ nth }
        ensures sure { false ≡ false }
        ensures same { self.new ≡ record self.old { armed = nth } }
    {
        self.armed = nth;
    }
}
