//! The packets of a port, one after the other.

ghost use Rattle.std.specs.Prelude.{◌≡◌, ◌+◌, ◌<◌, ◌≤◌, ◌↔◌, [], ◌∷◌, length, take, IfOk, OnOk, OnErr, IsErrOf, vec_len};
ghost use mathlib.Core.List.{IsPrefix};
ghost use Rattle.outside.specs.Causes.{Rose};
ghost use Rattle.datagram_outside.specs.Ports.{Datagram};
ghost use Rattle.dns_server.specs.Cached.{AllHold};
ghost use Rattle.dns_server.specs.Served as spec;
ghost use Rattle.dns_server.specs.Served.{HasReason, Passed, Served, reply_by};

use crate::CountedReader;
use crate::cache::Cache;
use crate::replies::reply;
use cat_model::Memory;
use datagram_outside::DatagramPort;
use outside::KeepFail;
use std::alloc::Global;

/// The most bytes that a packet has.
const MOST: usize = 65_535;

/// Why a server of datagrams ended.
#[derive(Clone, Copy, Debug, PartialEq, Eq)]
pub enum DnsCause {
    /// It took as many packets as it was to, and no call failed.
    Done,
    /// A call of the port failed.
    Fault,
    /// There was no memory.
    Memory,
}

/// The end of a server of datagrams.
#[derive(Drop)]
pub struct DnsEnded<C> {
    /// How many packets it took.
    pub taken: u64,
    pub cause: DnsCause,
    /// The reader that it was given.
    pub catalog: C,
}

// Sends the reply to a packet to whom it came from, if it has one.
#[tactic(auto, using(crate::proofs::Sendings::sent_one, crate::proofs::Sendings::sent_none, crate::proofs::Sendings::no_reply, crate::proofs::Rounds::passed_none))]
fn answer<P: DatagramPort, C: CountedReader>(
    port: &mut P,
    catalog: &mut C,
    cache: &mut Cache,
    peer: &P::Peer,
    packet: &[u8],
) -> Result<(), KeepFail>
    requires cache { AllHold (C.commands catalog.old) cache.old.places.items }
    ensures cache { AllHold (C.commands catalog.new) cache.new.places.items }
    ensures ok { OnOk result (Passed (P.state port.old) (P.state port.new) [] (reply_by (C.commands catalog.new) (record { peer = P.number peer.now; packet = packet.now }))) }
    ensures err { OnErr result (Passed (P.state port.old) (P.state port.new) [] []) }
    ensures grown { IsPrefix (C.commands catalog.old) (C.commands catalog.new) }
    ensures sent { OnOk result ((P.state port.new).faults ≡ (P.state port.old).faults) }
    ensures failed { IsErrOf result KeepFail.Failed → Rose (P.state port.old).faults (P.state port.new).faults }
    ensures memory { IsErrOf result KeepFail.Memory → (P.state port.new).faults ≡ (P.state port.old).faults }
{
    match reply(catalog, cache, packet) {
        Ok(Some(reply)) => port.send(peer, reply.as_slice()),
        Ok(None) => Ok(()),
        Err(Memory) => Err(KeepFail::Memory),
    }
}

fn cause_of(fail: KeepFail) -> DnsCause
    ensures { result ≡ spec.cause_of fail }
{
    match fail {
        KeepFail::Failed => DnsCause::Fault,
        KeepFail::Memory => DnsCause::Memory,
    }
}

// Takes so many packets into the room, and answers each. It says how many it took, and why it ended.
fn serve<P: DatagramPort, C: CountedReader>(
    port: &mut P,
    catalog: &mut C,
    cache: &mut Cache,
    room: &mut [u8],
    packets: u64,
) -> (u64, DnsCause)
    requires room { 65535 ≤ length room.old }
    requires cache { AllHold (C.commands catalog.old) cache.old.places.items }
    ensures served { Served (P.state port.old) (P.state port.new) (C.commands catalog.old) (C.commands catalog.new) result.0 result.1 }
    ensures cause { HasReason (P.state port.old) (P.state port.new) packets result.0 result.1 }
{
    let mut taken = 0;
    while taken < packets {
        let Ok((size, peer)) = port.receive(room) else {
            return (taken, DnsCause::Fault);
        };
        taken += 1;
        if let Err(fail) = answer(port, catalog, cache, &peer, &room[..size]) {
            return (taken, cause_of(fail));
        }
    }
    (taken, DnsCause::Done)
}

// The same with a room and a cache that are made for it.
fn serve_anew<P: DatagramPort, C: CountedReader>(
    alloc: Global,
    port: &mut P,
    catalog: &mut C,
    packets: u64,
) -> (u64, DnsCause)
    ensures served { Served (P.state port.old) (P.state port.new) (C.commands catalog.old) (C.commands catalog.new) result.0 result.1 }
    ensures cause { HasReason (P.state port.old) (P.state port.new) packets result.0 result.1 }
{
    let Ok(mut room) = vec![in alloc; 0u8; MOST] else {
        return (0, DnsCause::Memory);
    };
    let Ok(mut cache) = Cache::new(alloc) else {
        return (0, DnsCause::Memory);
    };
    serve(port, catalog, &mut cache, &mut room, packets)
}

/// Takes so many packets of the port, which it waits for, and sends the reply to each that has one to whom it came from.
/// It ends before that at the first call that fails, and where memory is wanting.
///
/// Replies are kept while the catalog stands, 4,096 at most, and of packets of at most 512 bytes.
pub fn serve_datagrams<P: DatagramPort, C: CountedReader>(
    alloc: Global,
    port: &mut P,
    catalog: C,
    packets: u64,
) -> DnsEnded<C>
    ensures served { Served (P.state port.old) (P.state port.new) (C.commands catalog) (C.commands result.catalog) result.taken result.cause }
    ensures cause { HasReason (P.state port.old) (P.state port.new) packets result.taken result.cause }
{
    let mut catalog = catalog;
    let (taken, cause) = serve_anew(alloc, port, &mut catalog, packets);
    DnsEnded {
        taken,
        cause,
        catalog,
    }
}
