ghost use Rattle.std.specs.Prelude.{◌≡◌, ℕ, List, Option};
ghost use Rattle.std.specs.Io.{ReadsAtMost};
ghost use Rattle.outside.specs.Causes.{HasCause};
ghost use Rattle.outside.specs.Keepers.{KeepHasCause};
ghost use Rattle.server_journal.specs.Journals.{CutsTo, GivesAt, PutsBehind};

use outside::{Failed, KeepFail};

/// Bytes that outlive the process. More are put behind them, and the last are cut off.
pub trait Journal {
    /// Its bytes, where the object tells them.
    ghost bytes: { Self → Option (List ℕ) };

    /// How often a call has failed.
    ghost faults: { Self → ℕ };

    /// Gives the bytes from a place on, and says how many. 0 for a buffer that is not empty is the end.
    fn read(&mut self, at: u64, into: &mut [u8]) -> Result<usize, Failed>
        ensures bound { ReadsAtMost result into.new }
        ensures given { GivesAt at (bytes self.old) result into.new }
        ensures same { bytes self.new ≡ bytes self.old }
        ensures cause { HasCause (faults self.old) (faults self.new) result };

    /// Puts the piece behind the bytes. After Ok it stays there, also where the process or the machine ends then. After
    /// a failure a front of it may stand there.
    fn append(&mut self, piece: &[u8]) -> Result<(), KeepFail>
        ensures bytes { PutsBehind piece.now (bytes self.old) (bytes self.new) result }
        ensures cause { KeepHasCause (faults self.old) (faults self.new) result };

    /// Cuts off the bytes behind the first `length`.
    fn cut(&mut self, length: u64) -> Result<(), Failed>
        ensures bytes { CutsTo length (bytes self.old) (bytes self.new) result }
        ensures cause { HasCause (faults self.old) (faults self.new) result };
}
