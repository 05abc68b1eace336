//! The waiters that fired channels reach.

ghost use Rattle.std.specs.Prelude.{◌≡◌, ◌<◌, ◌≤◌, ℕ, Some, [], length, take, IfOk, OnOk, slice_index_or};
ghost use Rattle.std.specs.List.{fold, AllByRecursion};
ghost use Rattle.index_list.specs.Nodes.{item_at, family_of};
ghost use Rattle.index_list.specs.Places.{has};
ghost use Rattle.read_watch.specs.Buckets.{mixed, bucket_of};
ghost use Rattle.read_watch.specs.Hits.{AllHit, AllKept, IsNoted, FamilyNoted, ListNoted, ChanNoted};

use crate::bucket::{PREFIX, bucket, mixed};
use crate::reach::on;
use crate::waiters::{Index, Waiters};
use cat_model::{Chan, Memory};
use index_list::Family;
use std::alloc::Global;
use std::collections::BTreeSet;

/// Adds a waiter, if a fired channel reaches one of its channels.
fn note(
    waiters: &Waiters,
    fired: &[Chan],
    waiter: u64,
    found: &mut BTreeSet<u64>,
) -> Result<(), Memory>
    requires sound { AllHit waiters.now.entries fired.now found.old.keys }
    ensures sound { AllHit waiters.now.entries fired.now found.new.keys }
    ensures keeps { AllKept found.old.keys found.new.keys }
    ensures noted { OnOk result (IsNoted waiters.now.entries fired.now found.new.keys waiter) }
{
    if let Some(waiting) = waiters.get(&waiter)
        && on(fired, waiting.chans.as_slice())
    {
        found.insert(waiter)?;
    }
    Ok(())
}

/// Adds the waiters on a list of a family that are reached.
fn note_family(
    list: &Index,
    waiters: &Waiters,
    fired: &[Chan],
    family: Family,
    number: u32,
    found: &mut BTreeSet<u64>,
) -> Result<(), Memory>
    requires number { number < length (family_of family list.now) }
    requires sound { AllHit waiters.now.entries fired.now found.old.keys }
    ensures sound { AllHit waiters.now.entries fired.now found.new.keys }
    ensures keeps { AllKept found.old.keys found.new.keys }
    ensures noted { OnOk result (FamilyNoted family list.now waiters.now.entries fired.now number found.new.keys) }
{
    for (_node, waiter) in list.walk(family, number) {
        note(waiters, fired, *waiter, found)?;
    }
    Ok(())
}

/// Adds the waiters on a list of either family that are reached.
fn note_list(
    list: &Index,
    waiters: &Waiters,
    fired: &[Chan],
    number: u32,
    found: &mut BTreeSet<u64>,
) -> Result<(), Memory>
    requires first { number < length list.now.first }
    requires second { number < length list.now.second }
    requires sound { AllHit waiters.now.entries fired.now found.old.keys }
    ensures sound { AllHit waiters.now.entries fired.now found.new.keys }
    ensures keeps { AllKept found.old.keys found.new.keys }
    ensures noted { OnOk result (ListNoted list.now waiters.now.entries fired.now number found.new.keys) }
{
    note_family(list, waiters, fired, Family::First, number, found)?;
    note_family(list, waiters, fired, Family::Second, number, found)
}

/// Adds the waiters on the lists of a key's prefixes that are reached.
fn note_prefixes(
    list: &Index,
    waiters: &Waiters,
    fired: &[Chan],
    key: &[u8],
    found: &mut BTreeSet<u64>,
) -> Result<(), Memory>
    requires first { length list.now.first ≡ 65537 }
    requires second { length list.now.second ≡ 65537 }
    requires sound { AllHit waiters.now.entries fired.now found.old.keys }
    ensures sound { AllHit waiters.now.entries fired.now found.new.keys }
    ensures keeps { AllKept found.old.keys found.new.keys }
    ensures noted { OnOk result ((n : ℕ) → n ≤ length key.now → ListNoted list.now waiters.now.entries fired.now (fold mixed 9 (take n key.now)) found.new.keys) }
{
    let mut hash = PREFIX;
    note_list(list, waiters, fired, hash, found)?;
    for byte in key {
        hash = mixed(hash, *byte);
        note_list(list, waiters, fired, hash, found)?;
    }
    Ok(())
}

/// Adds the waiters that a fired channel reaches.
fn note_chan(
    list: &Index,
    waiters: &Waiters,
    fired: &[Chan],
    chan: &Chan,
    found: &mut BTreeSet<u64>,
) -> Result<(), Memory>
    requires first { length list.now.first ≡ 65537 }
    requires second { length list.now.second ≡ 65537 }
    requires sound { AllHit waiters.now.entries fired.now found.old.keys }
    ensures sound { AllHit waiters.now.entries fired.now found.new.keys }
    ensures keeps { AllKept found.old.keys found.new.keys }
    ensures noted { OnOk result (ChanNoted list.now waiters.now.entries fired.now found.new.keys chan.now) }
{
    note_list(list, waiters, fired, bucket(chan), found)?;
    match chan {
        Chan::Key(key) => note_prefixes(list, waiters, fired, key.as_str().as_bytes(), found),
        _ => Ok(()),
    }
}

/// The waiters that fired channels reach.
pub fn find_hit(
    alloc: Global,
    list: &Index,
    waiters: &Waiters,
    fired: &[Chan],
) -> Result<BTreeSet<u64>, Memory>
    requires first { length list.now.first ≡ 65537 }
    requires second { length list.now.second ≡ 65537 }
    ensures sound { IfOk result (λ found. AllHit waiters.now.entries fired.now found.keys) }
    ensures noted { IfOk result (λ found. AllByRecursion (ChanNoted list.now waiters.now.entries fired.now found.keys) fired.now) }
{
    let mut found = BTreeSet::new(alloc);
    for chan in fired {
        note_chan(list, waiters, fired, chan, &mut found)?;
    }
    Ok(found)
}
