ghost use Rattle.std.specs.Prelude.{◌≡◌, ◌≤◌, OnOk, OnErr, length};
ghost use Rattle.std.specs.Option.{ForSome};
ghost use Rattle.std.specs.Io.{ReadsAtMost};
ghost use Rattle.outside.specs.Causes.{HasCause, counted};
ghost use Rattle.outside.specs.Keepers.{KeepHasCause};
ghost use Rattle.server_journal.specs.Journals.{CutsTo, DiskState, GivesAt, PutsAtEnd, PutsBehind};

use crate::{Disk, Journal};
use outside::{Failed, KeepFail};
use std::marker::Model;

/// A journal in a file of a disk.
#[derive(Drop)]
pub struct DiskJournal<D: Disk> {
    disk: D,
    end: u64,
    // Bytes stand behind the end that may not be on the disk, and could not be taken off.
    is_broken: bool,
    faults: u64,
}

impl<D: Disk> Model for DiskJournal<D> {
    ghost use Rattle.std.specs.Prelude.{◌≡◌, false, length};
    ghost use Rattle.std.specs.Option.{ForSome};
    ghost use Rattle.server_journal.specs.Journals.{DiskState};

    ghost Value = { DiskState };

    ghost view = { λ j. record { bytes = D.shown j.disk; synced = D.synced j.disk; faults = j.faults } };

    ghost invariant = { λ j. j.is_broken ≡ false → ForSome (D.shown j.disk) (λ bytes. length bytes ≡ j.end) };
}

impl<D: Disk> DiskJournal<D> {
    /// The journal in this file, which has so many bytes. It takes no memory.
    pub fn new(disk: D, end: u64) -> DiskJournal<D>
        requires { ForSome (D.shown disk) (λ bytes. length bytes ≡ end) }
        ensures { result ≡ record { bytes = D.shown disk; synced = D.synced disk; faults = 0 } }
    {
        DiskJournal {
            disk,
            end,
            is_broken: false,
            faults: 0,
        }
    }

    // A call that fails.
    fn fault(&mut self) -> Failed
        ensures counts { self.new ≡ record self.old { faults = counted self.old.faults } }
        ensures later { self.old.faults ≤ self.new.faults }
    {
        self.faults = self.faults.saturating_add(1);
        Failed
    }
}

// Puts the piece at the end, and waits until the disk has it.
fn put_and_sync<D: Disk>(disk: &mut D, end: u64, piece: &[u8]) -> Result<(), Failed>
    requires { ForSome (D.shown disk.old) (λ bytes. length bytes ≡ end) }
    ensures shown { PutsAtEnd piece.now (D.shown disk.old) (D.shown disk.new) result }
    ensures synced { OnOk result (D.synced disk.new ≡ D.shown disk.new) }
{
    disk.put_at(end, piece)?;
    disk.sync()
}

impl<D: Disk> Journal for DiskJournal<D> {
    ghost bytes = { λ j. j.bytes };

    ghost faults = { λ j. j.faults };

    fn read(&mut self, at: u64, into: &mut [u8]) -> Result<usize, Failed>
        ensures bound { ReadsAtMost result into.new }
        ensures given { GivesAt at self.old.bytes result into.new }
        ensures same { self.new.bytes ≡ self.old.bytes }
        ensures cause { HasCause self.old.faults self.new.faults result }
        ensures synced { self.new.synced ≡ self.old.synced }
    {
        if self.is_broken {
            return Err(self.fault());
        }
        match self.disk.read_at(at, into) {
            Ok(count) => Ok(count),
            Err(Failed) => Err(self.fault()),
        }
    }

    fn append(&mut self, piece: &[u8]) -> Result<(), KeepFail>
        ensures bytes { PutsBehind piece.now self.old.bytes self.new.bytes result }
        ensures cause { KeepHasCause self.old.faults self.new.faults result }

        // What it answers Ok to is on the disk.
        ensures synced { OnOk result (self.new.synced ≡ self.new.bytes) }
    {
        let end = self.end.checked_add(piece.len() as u64);
        let Some(end) = end else {
            let _ = self.fault();
            return Err(KeepFail::Failed);
        };
        if self.is_broken {
            let _ = self.fault();
            return Err(KeepFail::Failed);
        }
        if put_and_sync(&mut self.disk, self.end, piece).is_err() {
            // The machine may show bytes that the disk does not have, and does not write them again. So they are taken
            // off, and where that fails too, nothing more is read or written.
            self.is_broken = self.disk.set_length(self.end).is_err();
            let _ = self.fault();
            return Err(KeepFail::Failed);
        }
        self.end = end;
        Ok(())
    }

    fn cut(&mut self, length: u64) -> Result<(), Failed>
        ensures bytes { CutsTo length self.old.bytes self.new.bytes result }
        ensures cause { HasCause self.old.faults self.new.faults result }

        // What it leaves when it answers Ok is on the disk.
        ensures synced { OnOk result (self.new.synced ≡ self.new.bytes) }
    {
        if self.is_broken {
            return Err(self.fault());
        }
        let end = self.end.min(length);
        if self.disk.set_length(end).is_err() {
            self.is_broken = true;
            return Err(self.fault());
        }
        self.end = end;
        if self.disk.sync().is_err() {
            return Err(self.fault());
        }
        Ok(())
    }
}
