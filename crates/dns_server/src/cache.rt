//! Replies that are kept while the catalog stands.

ghost use Rattle.std.specs.Prelude.{◌≡◌, ◌≤◌, ◌++◌, List, Some, IfOk, IfSome, length, take, drop};
ghost use Rattle.cat_model.specs.declared.command.Command.{Command};
ghost use Rattle.dns_service.specs.Reading.{answers_at};
ghost use Rattle.dns_service.specs.Replies.{dns_reply};
ghost use Rattle.dns_server.specs.Cached.{AllHold, Holds};

use cat_model::{Bytes, Memory};
use std::alloc::Global;

/// The most replies that are kept.
const PLACES: usize = 4096;

/// A reply that was made.
#[derive(Drop)]
pub(crate) struct CachedReply {
    /// How many commands made the catalog.
    pub count: u64,
    /// The bytes of the packet behind its ID.
    pub asked: Bytes,
    /// The bytes of the reply behind its ID.
    pub reply: Bytes,
}

/// Replies that were made, each in the place of its packet, where the last one stands.
#[derive(Drop)]
pub(crate) struct Cache {
    pub alloc: Global,
    pub places: Vec<Option<CachedReply>>,
}

// The place of a packet with these bytes behind its ID.
fn place_of(asked: &[u8]) -> usize {
    let mut hash = 0u32;
    for byte in asked {
        hash = hash.wrapping_mul(16_777_619).wrapping_add(u32::from(*byte));
    }
    (hash >> 16) as usize % PLACES
}

// So many places with nothing in them.
#[tactic(auto, using(crate::proofs::Holding::none_hold, crate::proofs::Holding::empty_holds))]
fn empty_places(alloc: Global) -> Result<Vec<Option<CachedReply>>, Memory>
    ensures { IfOk result (λ p. (commands : List Command) → AllHold commands p.items) }
{
    let mut places = Vec::with_capacity(alloc, PLACES)?;
    for _ in 0..PLACES {
        places.push(None)?;
    }
    Ok(places)
}

// The packet's ID with these bytes behind it.
fn with_id(alloc: Global, packet: &[u8], behind: &[u8]) -> Result<Bytes, Memory>
    requires { 2 ≤ length packet.now }
    ensures { IfOk result (λ b. b ≡ take 2 packet.now ++ behind.now) }
{
    let mut bytes = Vec::with_capacity(alloc, 2 + behind.len())?;
    bytes.extend_from_slice(&packet[..2])?;
    bytes.extend_from_slice(behind)?;
    Ok(Bytes::from(bytes))
}

// What is kept of the reply to a packet, made at so many commands.
#[tactic(auto, using(crate::proofs::Holding::made_holds))]
fn cached_reply(
    alloc: Global,
    count: u64,
    packet: &[u8],
    reply: &[u8],
) -> Result<CachedReply, Memory>
    requires packet { 2 ≤ length packet.now }
    requires reply { 2 ≤ length reply.now }
    ensures { (commands : List Command) → count ≡ length commands → Some reply.now ≡ dns_reply (answers_at commands) packet.now → IfOk result (Holds commands) }
{
    Ok(CachedReply {
        count,
        asked: Bytes::new(alloc, &packet[2..])?,
        reply: Bytes::new(alloc, &reply[2..])?,
    })
}

impl Cache {
    /// One that keeps nothing yet.
    pub(crate) fn new(alloc: Global) -> Result<Cache, Memory>
        ensures { IfOk result (λ c. (commands : List Command) → AllHold commands c.places.items) }
    {
        let places = empty_places(alloc)?;
        Ok(Cache { alloc, places })
    }

    // What is kept of a packet with these bytes behind its ID, at so many commands.
    fn find(&self, count: u64, asked: &[u8]) -> Option<&CachedReply>
        ensures same { IfSome result (λ c. (c.now.count ≡ count) × (c.now.asked ≡ asked.now)) }
        ensures holds { (commands : List Command) → AllHold commands self.now.places.items → IfSome result (λ c. Holds commands c.now) }
    {
        match self.places.get(place_of(asked)) {
            Some(Some(cached)) if cached.count == count && cached.asked.as_slice() == asked => {
                Some(cached)
            }
            _ => None,
        }
    }

    /// The reply to a packet at so many commands, if it is kept.
    #[tactic(auto, using(crate::proofs::Holding::found_replies))]
    pub(crate) fn reply(&self, count: u64, packet: &[u8]) -> Result<Option<Bytes>, Memory>
        requires { 2 ≤ length packet.now }
        ensures { (commands : List Command) → AllHold commands self.now.places.items → count ≡ length commands → IfOk result (λ found. IfSome found (λ r. Some r ≡ dns_reply (answers_at commands) packet.now)) }
    {
        match self.find(count, &packet[2..]) {
            Some(cached) => Ok(Some(with_id(self.alloc, packet, cached.reply.as_slice())?)),
            None => Ok(None),
        }
    }

    // Keeps a reply in its place, where another one goes.
    fn put(&mut self, cached: CachedReply)
        ensures { (commands : List Command) → AllHold commands self.old.places.items → Holds commands cached → AllHold commands self.new.places.items }
    {
        let place = place_of(cached.asked.as_slice());
        if place < self.places.len() {
            self.places[place] = Some(cached);
        }
    }

    /// Keeps the reply to a packet, made at so many commands. Where memory is wanting it is not kept.
    pub(crate) fn keep(&mut self, count: u64, packet: &[u8], reply: &[u8])
        ensures { (commands : List Command) → AllHold commands self.old.places.items → count ≡ length commands → Some reply.now ≡ dns_reply (answers_at commands) packet.now → AllHold commands self.new.places.items }
    {
        if packet.len() < 2 || reply.len() < 2 {
            return;
        }
        if let Ok(cached) = cached_reply(self.alloc, count, packet, reply) {
            self.put(cached);
        }
    }
}
