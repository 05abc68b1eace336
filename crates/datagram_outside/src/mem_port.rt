ghost use Rattle.std.specs.Prelude.{◌≡◌, ◌↔◌, ◌⊎◌, ◌≤◌, ◌<◌, ◌∷◌, [], length, slice_get, vec_len, IfOk, IfSome, IsErr, IsErrOf, IsTrue, MatchResult, Some, OnOk, OnErr, take, map};
ghost use Rattle.outside.specs.Causes.{counted, HasCause};
ghost use Rattle.outside.specs.InMemory.{is_listed as is_listed_of};
ghost use Rattle.datagram_outside.specs.Ports.{Came, Waited, Sends, append_told};

use crate::DatagramPort;
use cat_model::{Bytes, List};
use outside::{Failed, KeepFail, is_listed};
use std::alloc::Global;

/// A packet, with the number of the peer that it comes from or goes to.
#[derive(Debug, Drop)]
pub struct Packet {
    pub peer: u64,
    pub bytes: Bytes,
}

/// A port in memory. It gives the packets of its script in their order; after the last one each `receive` fails. It
/// also fails at a packet that is longer than the buffer. A send that finds no memory has no number.
#[derive(Drop)]
pub struct MemPort {
    alloc: Global,
    script: Vec<Packet>,
    // The numbers of the calls that fail, counted from 1.
    failing: List<u64>,
    calls: u64,
    // How many packets of the script were given.
    given: usize,
    faults: u64,
    went: Vec<Packet>,
    ghost within: { given ≤ vec_len script },
}

// Copies the bytes into the front of the buffer.
fn copy_front(bytes: &[u8], into: &mut [u8])
    requires { length bytes.now ≤ length into.old }
    ensures { take (length bytes.now) into.new ≡ bytes.now }
{
    let size = bytes.len();
    into[..size].copy_from_slice(bytes);
}

impl MemPort {
    ghost use Rattle.datagram_outside.specs.Ports.{IsNew};
    ghost use Rattle.datagram_outside.specs.InMemory.{told, datagram_of};

    /// A port that gives these packets, and whose calls with these numbers, counted from 1, fail.
    pub fn new(alloc: Global, script: Vec<Packet>, failing: List<u64>) -> MemPort
        ensures new { IsNew (told result) }
        ensures script { (result.script ≡ script) × (result.failing ≡ failing) × (result.calls ≡ 0) }
        ensures tells { ((told result).came ≡ Some []) × ((told result).went ≡ Some []) }
    {
        MemPort {
            alloc,
            script,
            failing,
            calls: 0,
            given: 0,
            faults: 0,
            went: Vec::new(alloc),
        }
    }

    /// The packets that were sent, in order.
    pub fn went(&self) -> &[Packet]
        ensures { Some (map datagram_of result.now) ≡ (told self.now).went }
    {
        self.went.as_slice()
    }

    // Counts the call, and says whether it is one of those that are to fail.
    fn is_failing(&mut self) -> bool
        ensures listed { result ≡ is_listed_of self.old.failing (counted self.old.calls) }
        ensures counts { self.new ≡ record self.old { calls = counted self.old.calls } }
    {
        self.calls = self.calls.saturating_add(1);
        is_listed(&self.failing, self.calls)
    }

    // Counts a call that fails.
    fn fail<T>(&mut self) -> Result<T, Failed>
        ensures fails { IsErr result }
        ensures counts { self.new ≡ record self.old { faults = counted self.old.faults } }
        ensures later { self.old.faults ≤ self.new.faults }
    {
        self.faults = self.faults.saturating_add(1);
        Err(Failed)
    }

    // Notes a packet that was sent.
    fn put(&mut self, peer: u64, packet: &[u8]) -> Result<(), KeepFail>
        ensures memory { OnErr result ((result ≡ Err KeepFail.Memory) × (told self.new ≡ told self.old)) }
        ensures went { OnOk result (told self.new ≡ record (told self.old) { went = append_told (told self.old).went (record { peer = peer; packet = packet.now } ∷ []) }) }
        ensures rest { (self.new.script ≡ self.old.script) × (self.new.failing ≡ self.old.failing) × (self.new.calls ≡ self.old.calls) }
    {
        let Ok(bytes) = Bytes::new(self.alloc, packet) else {
            return Err(KeepFail::Memory);
        };
        if self.went.push(Packet { peer, bytes }).is_err() {
            return Err(KeepFail::Memory);
        }
        Ok(())
    }
}

impl DatagramPort for MemPort {
    ghost use Rattle.datagram_outside.specs.InMemory.{told};

    type Peer = u64;

    ghost state = { told };

    ghost number = { λ peer. peer };

    fn receive(&mut self, into: &mut [u8]) -> Result<(usize, u64), Failed>
        ensures came { MatchResult result (λ r. Came (told self.old) into.new r.0 r.1 (told self.new)) (λ _. Waited (told self.old) (told self.new)) }
        ensures cause { HasCause (told self.old).faults (told self.new).faults result }
        ensures went { (told self.new).went ≡ (told self.old).went }

        // The listed calls fail, those behind the last packet, and those without room for it.
        ensures listed { IsTrue (is_listed_of self.old.failing (counted self.old.calls)) → IsErr result }
        ensures fails { OnErr result (IsTrue (is_listed_of self.old.failing (counted self.old.calls)) ⊎ IfSome (slice_get self.old.script.items self.old.given) (λ p. length into.old < length p.bytes)) }
        ensures rest { (self.new.script ≡ self.old.script) × (self.new.failing ≡ self.old.failing) × (self.new.calls ≡ counted self.old.calls) }
    {
        if self.is_failing() {
            return self.fail();
        }
        let Some(packet) = self.script.get(self.given) else {
            return self.fail();
        };
        let (size, peer) = (packet.bytes.len(), packet.peer);
        if into.len() < size {
            return self.fail();
        }
        copy_front(packet.bytes.as_slice(), into);
        self.given += 1;
        Ok((size, peer))
    }

    fn send(&mut self, to: &u64, packet: &[u8]) -> Result<(), KeepFail>
        ensures sends { Sends (told self.old) to.now packet.now result (told self.new) }

        // The listed calls fail, and no other but for lack of memory, which has no number.
        ensures fails { IsErrOf result KeepFail.Failed ↔ IsTrue (is_listed_of self.old.failing (counted self.old.calls)) }
        ensures calls { IsErrOf result KeepFail.Memory → self.new.calls ≡ self.old.calls }
        ensures rest { (self.new.script ≡ self.old.script) × (self.new.failing ≡ self.old.failing) }
    {
        let call = self.calls.saturating_add(1);
        if is_listed(&self.failing, call) {
            self.calls = call;
            self.faults = self.faults.saturating_add(1);
            return Err(KeepFail::Failed);
        }
        self.put(*to, packet)?;
        self.calls = call;
        Ok(())
    }
}
