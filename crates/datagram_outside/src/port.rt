ghost use Rattle.std.specs.Prelude.{◌≡◌, ℕ, ◌≤◌, List, [], ◌∷◌, ◌++◌, length, IfOk, MatchResult};
ghost use Rattle.outside.specs.Causes.{HasCause};
ghost use Rattle.datagram_outside.specs.Ports.{PortState, IsNew, Came, Waited, Sends};

use outside::{Failed, KeepFail};

/// A port of datagrams. It counts the packets that it gave and the calls that failed.
pub trait DatagramPort: Drop {
    /// Whom a packet came from.
    type Peer: Drop;

    /// All that it tells.
    ghost state: { Self → PortState };

    /// The number by which it tells a peer.
    ghost number: { Self.Peer → ℕ };

    /// Puts the next packet, for which it waits, whole into the front of the buffer, and says how long it is and whom it
    /// came from. A packet has 65,535 bytes at most. After 2^64 - 1 of them each call fails.
    fn receive(&mut self, into: &mut [u8]) -> Result<(usize, Self::Peer), Failed>
        requires room { 65535 ≤ length into.old }
        ensures came { MatchResult result (λ r. Came (state self.old) into.new r.0 (number r.1) (state self.new)) (λ _. Waited (state self.old) (state self.new)) }
        ensures cause { HasCause (state self.old).faults (state self.new).faults result }
        ensures went { (state self.new).went ≡ (state self.old).went };

    /// Sends the packet whole.
    fn send(&mut self, to: &Self::Peer, packet: &[u8]) -> Result<(), KeepFail>
        ensures { Sends (state self.old) (number to.now) packet.now result (state self.new) };
}

/// What gives ports of datagrams, and takes them back.
pub trait Datagrams {
    type Port: DatagramPort;

    /// How many calls failed.
    ghost faults: { Self → ℕ };

    /// What the ports told that were handed back, in order.
    ghost closed: { Self → List PortState };

    /// The port of this number on 127.0.0.1. Number 0 is a free one.
    fn bind(&mut self, port: u16) -> Result<Self::Port, Failed>
        ensures new { IfOk result (λ p. IsNew (Self.Port.state p)) }
        ensures cause { HasCause (faults self.old) (faults self.new) result }
        ensures closed { closed self.new ≡ closed self.old };

    /// Takes a port back. It takes no memory.
    fn close(&mut self, port: Self::Port)
        ensures closed { closed self.new ≡ closed self.old ++ Self.Port.state port ∷ [] }
        ensures faults { faults self.new ≡ faults self.old };
}
