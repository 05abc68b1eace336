//! What went over a connection, which only proofs read.

ghost use Rattle.std.specs.Prelude.{◌≡◌};
ghost use Rattle.std.specs.Borrow.{ftrue};
ghost use Rattle.serve_outside.specs.Traffic.{Seen};

use std::marker::Model;
use std::snapshot::Snapshot;

/// What was read and written. It takes no memory, and nothing is done at run time.
#[derive(Drop)]
pub struct Traffic {
    pub ghost seen: { Seen },
}

impl Model for Traffic {
    ghost also_owns = { λ _. ftrue };
}

// It owns nothing.
unsafe impl Send for Traffic {}

impl Traffic {
    ghost use Rattle.serve_outside.specs.Traffic.{after_read, after_write, unseen};

    // The traffic that the caller's proof names by what is shown.
    fn of<T>(shown: &T) -> Traffic
        ghost named: { Seen }
        ensures { result.seen ≡ named }
    {
        let _ = shown;
        Traffic {}
    }

    /// Nothing went over it.
    pub fn new() -> Traffic
        ensures { result.seen ≡ unseen }
    {
        Traffic::of(&())
    }

    /// A read brought these bytes.
    pub fn read(&self, bytes: &[u8]) -> Traffic
        ensures { result.seen ≡ after_read bytes.now self.now.seen }
    {
        Traffic::of(&(Snapshot::of(self), Snapshot::of(&bytes)))
    }

    /// These bytes were written.
    pub fn written(&self, bytes: &[u8]) -> Traffic
        ensures { result.seen ≡ after_write bytes.now self.now.seen }
    {
        Traffic::of(&(Snapshot::of(self), Snapshot::of(&bytes)))
    }
}
