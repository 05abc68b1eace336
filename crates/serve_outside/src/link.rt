ghost use Rattle.std.specs.Prelude.{◌≡◌, ℕ, ◌+◌, List, [], ◌∷◌, ◌++◌, false, IfOk, MatchResult, Option, Some};
ghost use Rattle.outside.specs.Causes.{HasCause};
ghost use Rattle.serve_outside.specs.Links.{LinkState, IsNew, Reads, Writes, Leaves, Shuts};

use crate::Awaited;
use outside::{Failed, KeepFail};

/// A connection. It counts its ends, its failed reads and its failed writes.
pub trait Link: Drop {
    /// All that it tells.
    ghost state: { Self → LinkState };

    /// Says what the next reads wait for, which bounds how long they wait: a read that waits longer fails.
    fn expect(&mut self, what: Awaited)
        ensures { state self.new ≡ state self.old };

    /// Takes the next bytes, and says how many. 0 for a buffer that is not empty is the end.
    fn read(&mut self, into: &mut [u8]) -> Result<usize, Failed>
        requires still_open { (state self.old).shut ≡ false }
        ensures { Reads (state self.old) into.new result (state self.new) };

    /// Takes the first bytes of the piece, and says how many. None of a piece that is not empty counts as a fault.
    fn write(&mut self, piece: &[u8]) -> Result<usize, KeepFail>
        requires still_open { (state self.old).shut ≡ false }
        ensures { Writes (state self.old) piece.now result (state self.new) };

    /// Whether the client has gone, asked without waiting: nothing that it sent is left to be read, and it has ended or the
    /// connection broke. That counts as a read that failed; else nothing changes.
    fn has_gone(&mut self) -> bool
        ensures { Leaves (state self.old) result (state self.new) };

    /// Closes the connection for good.
    fn shut(&mut self)
        ensures { Shuts (state self.old) (state self.new) };
}

/// What gives connections, numbered from 1, and takes them back.
pub trait Listener {
    type Link: Link;

    /// How often a call has failed.
    ghost faults: { Self → ℕ };

    /// How many connections it gave.
    ghost given: { Self → ℕ };

    /// What the connections told that were handed back, in order.
    ghost closed: { Self → List LinkState };

    /// The port that was asked for, once it listens.
    ghost listens_on: { Self → Option ℕ };

    /// Listens on 127.0.0.1. Port 0 is a free port.
    fn listen(&mut self, port: u16) -> Result<(), Failed>
        ensures listens { MatchResult result (λ _. listens_on self.new ≡ Some port) (λ _. listens_on self.new ≡ listens_on self.old) }
        ensures cause { HasCause (faults self.old) (faults self.new) result }
        ensures given { given self.new ≡ given self.old }
        ensures closed { closed self.new ≡ closed self.old };

    /// The next connection, for which it waits. After 2^64 - 1 of them each call fails.
    fn accept(&mut self) -> Result<Self::Link, Failed>
        ensures new { IfOk result (λ link. IsNew (given self.new) (Self.Link.state link)) }
        ensures given { MatchResult result (λ _. given self.new ≡ given self.old + 1) (λ _. given self.new ≡ given self.old) }
        ensures cause { HasCause (faults self.old) (faults self.new) result }
        ensures closed { closed self.new ≡ closed self.old }
        ensures listens { listens_on self.new ≡ listens_on self.old };

    /// Takes no more connections, and gives back what it listens with.
    fn stop(&mut self)
        ensures given { given self.new ≡ given self.old }
        ensures closed { closed self.new ≡ closed self.old }
        ensures faults { faults self.new ≡ faults self.old }
        ensures listens { listens_on self.new ≡ listens_on self.old };

    /// Takes a connection back. It takes no memory.
    fn close(&mut self, link: Self::Link)
        ensures closed { closed self.new ≡ closed self.old ++ Self.Link.state link ∷ [] }
        ensures given { given self.new ≡ given self.old }
        ensures faults { faults self.new ≡ faults self.old }
        ensures listens { listens_on self.new ≡ listens_on self.old };
}
