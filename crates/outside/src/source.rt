ghost use Rattle.std.specs.Prelude.{◌≡◌, ℕ, List, length, Option};
ghost use Rattle.std.specs.Io.{ReadsAtMost};
ghost use Rattle.std.specs.Io.KnownBytes.{ReadConsumes};
ghost use Rattle.outside.specs.Causes.{HasCause, CountsEnd};

use crate::Failed;
use std::io::Read;

/// A source of bytes.
pub trait Source {
    /// The bytes that are left, where the object tells them.
    ghost left: { Self → Option (List ℕ) };

    /// How often a read has failed.
    ghost faults: { Self → ℕ };

    /// How often a read has found the end.
    ghost ends: { Self → ℕ };

    /// Takes the next bytes, and says how many. 0 for a buffer that is not empty is the end.
    fn read(&mut self, into: &mut [u8]) -> Result<usize, Failed>
        ensures bound { ReadsAtMost result into.new }
        ensures bytes { ReadConsumes (left self.old) (left self.new) result into.new }
        ensures cause { HasCause (faults self.old) (faults self.new) result }
        ensures end { CountsEnd (ends self.old) (ends self.new) result (length into.old) };
}

/// The source over any reader. It tells the bytes that are left where the reader does; standard input does not.
#[derive(Drop)]
pub struct Reading<R: Drop> {
    inner: R,
    faults: u64,
    ends: u64,
}

impl<R: Read + Drop> Reading<R> {
    pub fn new(inner: R) -> Reading<R>
        ensures left { ⟦<Reading<R> as Source>⟧.left result ≡ R.remaining inner }
        ensures faults { ⟦<Reading<R> as Source>⟧.faults result ≡ 0 }
        ensures ends { ⟦<Reading<R> as Source>⟧.ends result ≡ 0 }
    {
        Reading {
            inner,
            faults: 0,
            ends: 0,
        }
    }
}

impl<R: Read + Drop> Source for Reading<R> {
    ghost left = { λ s. R.remaining s.inner };

    ghost faults = { λ s. s.faults };

    ghost ends = { λ s. s.ends };

    fn read(&mut self, into: &mut [u8]) -> Result<usize, Failed> {
        let room = into.len();
        match self.inner.read(into) {
            Ok(count) => {
                if count == 0 && room > 0 {
                    self.ends = self.ends.saturating_add(1);
                }
                Ok(count)
            }
            Err(_) => {
                self.faults = self.faults.saturating_add(1);
                Err(Failed)
            }
        }
    }
}
