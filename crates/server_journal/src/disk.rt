ghost use Rattle.std.specs.Prelude.{◌≡◌, ℕ, List, Option, OnOk, length};
ghost use Rattle.std.specs.Option.{ForSome};
ghost use Rattle.std.specs.Io.{ReadsAtMost};
ghost use Rattle.server_journal.specs.Journals.{CutsTo, GivesAt, PutsAtEnd};

use outside::Failed;

/// A file of a disk. What is written is shown at once, and is on the disk once a sync has answered Ok.
pub trait Disk {
    /// The bytes that reads give, where the object tells them.
    ghost shown: { Self → Option (List ℕ) };

    /// The bytes that the last sync that answered Ok found, where the object tells them.
    ghost synced: { Self → Option (List ℕ) };

    /// Gives the bytes from a place on, and says how many. 0 for a buffer that is not empty is the end.
    fn read_at(&mut self, at: u64, into: &mut [u8]) -> Result<usize, Failed>
        ensures bound { ReadsAtMost result into.new }
        ensures given { GivesAt at (shown self.old) result into.new }
        ensures same { shown self.new ≡ shown self.old }
        ensures synced { synced self.new ≡ synced self.old };

    /// Puts the piece at the end, which is at this place. After a failure a front of it may stand there.
    fn put_at(&mut self, at: u64, piece: &[u8]) -> Result<(), Failed>
        requires { ForSome (shown self.old) (λ bytes. length bytes ≡ at) }
        ensures shown { PutsAtEnd piece.now (shown self.old) (shown self.new) result }
        ensures synced { synced self.new ≡ synced self.old };

    /// Cuts off the bytes behind the first `length`.
    fn set_length(&mut self, length: u64) -> Result<(), Failed>
        ensures shown { CutsTo length (shown self.old) (shown self.new) result }
        ensures synced { synced self.new ≡ synced self.old };

    /// Waits until the disk has what is shown.
    fn sync(&mut self) -> Result<(), Failed>
        ensures shown { shown self.new ≡ shown self.old }
        ensures synced { OnOk result (synced self.new ≡ shown self.new) };
}
