//! The reply to a packet, made or kept.

ghost use Rattle.std.specs.Prelude.{◌≡◌, ◌<◌, ◌≤◌, List, IfOk, length};
ghost use mathlib.Core.List.{IsPrefix};
ghost use Rattle.cat_model.specs.declared.command.Command.{Command};
ghost use Rattle.dns_service.specs.Reading.{answers_at};
ghost use Rattle.dns_service.specs.Replies.{dns_reply};
ghost use Rattle.dns_server.specs.Cached.{AllHold};

use crate::CountedReader;
use crate::cache::Cache;
use cat_model::{Bytes, Memory, Steps};
use dns_service::{CatalogReader, answer_packet};
use std::alloc::Global;
use std::marker::Brand;
use std::sync::ledger::{Blank, Ledger};

/// The longest packet whose reply is kept, as long as a message over UDP may be. RFC 1035, section 4.2.1.
const LONGEST: usize = 512;

// The reply, where nobody reads how many queries were evaluated.
fn made_counted<C: CatalogReader, L: Ledger>(
    alloc: Global,
    catalog: &mut C,
    packet: &[u8],
    blank: Blank,
) -> Result<Option<Bytes>, Memory>
    requires name { blank.name ≡ L.name }
    requires parts { blank.parts ≡ L.parts }
    requires some { 0 < L.parts }
    ensures reply { IfOk result (λ r. r ≡ dns_reply (answers_at (C.commands catalog.new)) packet.now) }
    ensures grown { IsPrefix (C.commands catalog.old) (C.commands catalog.new) }
{
    let mut steps: Steps<L> = Steps::new(blank);
    answer_packet(alloc, catalog, packet, &mut steps)
}

fn made<C: CatalogReader>(
    alloc: Global,
    catalog: &mut C,
    packet: &[u8],
) -> Result<Option<Bytes>, Memory>
    ensures reply { IfOk result (λ r. r ≡ dns_reply (answers_at (C.commands catalog.new)) packet.now) }
    ensures grown { IsPrefix (C.commands catalog.old) (C.commands catalog.new) }
{
    made_counted::<C, Brand>(alloc, catalog, packet, Blank::new(1))
}

// Keeps the reply to a packet, if there is one, made at so many commands.
fn keep(cache: &mut Cache, count: u64, packet: &[u8], reply: &Option<Bytes>)
    ensures { (commands : List Command) → AllHold commands cache.old.places.items → count ≡ length commands → reply.now ≡ dns_reply (answers_at commands) packet.now → AllHold commands cache.new.places.items }
{
    if let Some(reply) = reply {
        cache.keep(count, packet, reply.as_slice());
    }
}

// Makes the reply to a packet, which is not kept at so many commands, and keeps it where no other command came meanwhile.
#[tactic(auto, using(crate::proofs::Holding::holds_on, crate::proofs::Holding::reply_between, crate::proofs::Rounds::prefix_on))]
fn made_and_kept<C: CountedReader>(
    catalog: &mut C,
    cache: &mut Cache,
    count: u64,
    packet: &[u8],
) -> Result<Option<Bytes>, Memory>
    requires count { count ≡ length (C.commands catalog.old) }
    requires cache { AllHold (C.commands catalog.old) cache.old.places.items }
    ensures cache { AllHold (C.commands catalog.new) cache.new.places.items }
    ensures reply { IfOk result (λ r. r ≡ dns_reply (answers_at (C.commands catalog.new)) packet.now) }
    ensures grown { IsPrefix (C.commands catalog.old) (C.commands catalog.new) }
{
    let reply = made(cache.alloc, catalog, packet)?;
    if catalog.count(cache.alloc)? == count {
        keep(cache, count, packet, &reply);
        return Ok(reply);
    }
    made(cache.alloc, catalog, packet)
}

// The reply to a packet, which is kept at so many commands or made.
#[tactic(auto, using(crate::proofs::Rounds::prefix_self))]
fn kept_or_made<C: CountedReader>(
    catalog: &mut C,
    cache: &mut Cache,
    count: u64,
    packet: &[u8],
) -> Result<Option<Bytes>, Memory>
    requires long { 2 ≤ length packet.now }
    requires count { count ≡ length (C.commands catalog.old) }
    requires cache { AllHold (C.commands catalog.old) cache.old.places.items }
    ensures cache { AllHold (C.commands catalog.new) cache.new.places.items }
    ensures reply { IfOk result (λ r. r ≡ dns_reply (answers_at (C.commands catalog.new)) packet.now) }
    ensures grown { IsPrefix (C.commands catalog.old) (C.commands catalog.new) }
{
    match cache.reply(count, packet)? {
        Some(reply) => Ok(Some(reply)),
        None => made_and_kept(catalog, cache, count, packet),
    }
}

/// The reply to a packet, by the catalog as it is now. None is for a packet that has no reply.
#[tactic(auto, using(crate::proofs::Holding::holds_on, crate::proofs::Rounds::prefix_on))]
pub(crate) fn reply<C: CountedReader>(
    catalog: &mut C,
    cache: &mut Cache,
    packet: &[u8],
) -> Result<Option<Bytes>, Memory>
    requires cache { AllHold (C.commands catalog.old) cache.old.places.items }
    ensures cache { AllHold (C.commands catalog.new) cache.new.places.items }
    ensures reply { IfOk result (λ r. r ≡ dns_reply (answers_at (C.commands catalog.new)) packet.now) }
    ensures grown { IsPrefix (C.commands catalog.old) (C.commands catalog.new) }
{
    if packet.len() < 12 || packet.len() > LONGEST {
        return made(cache.alloc, catalog, packet);
    }
    let count = catalog.count(cache.alloc)?;
    kept_or_made(catalog, cache, count, packet)
}
