ghost use Rattle.std.specs.Prelude.{◌≡◌, ℕ, List, length, Option};
ghost use Rattle.std.specs.Io.{WritesAtMost};
ghost use Rattle.std.specs.Io.KnownBytes.{WriteAppends};
ghost use Rattle.outside.specs.Causes.{WriteHasCause};

use crate::KeepFail;
use std::io::Write;

/// A sink of bytes.
pub trait Sink {
    /// The bytes that it holds, where the object tells them.
    ghost held: { Self → Option (List ℕ) };

    /// How often a write has failed, or has taken nothing of a piece that was not empty.
    ghost faults: { Self → ℕ };

    /// Takes the first bytes of the piece, and says how many.
    fn write(&mut self, piece: &[u8]) -> Result<usize, KeepFail>
        ensures bound { WritesAtMost result piece.now }
        ensures bytes { WriteAppends (held self.old) (held self.new) result piece.now }
        ensures cause { WriteHasCause (faults self.old) (faults self.new) result (length piece.now) };
}

/// The sink over any writer. It tells the bytes that it holds where the writer does; standard output does not.
#[derive(Drop)]
pub struct Writing<W: Drop> {
    inner: W,
    faults: u64,
}

impl<W: Write + Drop> Writing<W> {
    pub fn new(inner: W) -> Writing<W>
        ensures held { ⟦<Writing<W> as Sink>⟧.held result ≡ W.contents inner }
        ensures faults { ⟦<Writing<W> as Sink>⟧.faults result ≡ 0 }
    {
        Writing { inner, faults: 0 }
    }
}

impl<W: Write + Drop> Sink for Writing<W> {
    ghost held = { λ s. W.contents s.inner };

    ghost faults = { λ s. s.faults };

    fn write(&mut self, piece: &[u8]) -> Result<usize, KeepFail> {
        match self.inner.write(piece) {
            Ok(count) => {
                if count == 0 && !piece.is_empty() {
                    self.faults = self.faults.saturating_add(1);
                }
                Ok(count)
            }
            Err(_) => {
                self.faults = self.faults.saturating_add(1);
                Err(KeepFail::Failed)
            }
        }
    }
}
