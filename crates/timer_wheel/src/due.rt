//! What is due.

ghost use Rattle.std.specs.Prelude.{◌≡◌, ℕ, ◌<◌, ◌≤◌, ◌-◌, ◌%◌, true, Some, [], length, map, IfOk, OnOk, slice_index_or};
ghost use Rattle.std.specs.List.Sorted.{IsStrictlySortedBy};
ghost use Rattle.index_list.specs.Nodes.{item_at};
ghost use Rattle.index_list.specs.Places.{has};
ghost use Rattle.timer_wheel.specs.Dues.{due_cmp, IsDue};
ghost use Rattle.timer_wheel.specs.Finds.{IsFound, AllDue, AllKept, IsNoted};
ghost use Rattle.timer_wheel.specs.Kept.{Kept, timed};

use crate::place::{Places, SLOTS};
use crate::slots::Keys;
use cat_model::Memory;
use index_list::Family;
use std::alloc::Global;
use std::collections::BTreeSet;

/// Timers in the order in which they are due, each as its time and its key.
pub type Dues = BTreeSet<(u64, u128)>;

/// Adds the timer of a key, if it is due.
fn note(places: &Places, now: u64, key: u128, found: &mut Dues) -> Result<(), Memory>
    requires sound { AllDue (map timed places.now.entries) now found.old.keys }
    ensures sound { AllDue (map timed places.now.entries) now found.new.keys }
    ensures keeps { AllKept found.old.keys found.new.keys }
    ensures noted { OnOk result (IsNoted places.now.entries now found.new.keys key) }
{
    if let Some(place) = places.get(&key)
        && place.at <= now
    {
        found.insert((place.at, key))?;
    }
    Ok(())
}

/// Adds the timers of a slot that are due.
fn note_slot(
    list: &Keys,
    places: &Places,
    now: u64,
    slot: u32,
    found: &mut Dues,
) -> Result<(), Memory>
    requires slot { slot < length list.now.first }
    requires sound { AllDue (map timed places.now.entries) now found.old.keys }
    ensures sound { AllDue (map timed places.now.entries) now found.new.keys }
    ensures keeps { AllKept found.old.keys found.new.keys }
    ensures noted { OnOk result ((node key : ℕ) → has node (slice_index_or list.now.first slot []) ≡ true → item_at list.now.items node ≡ Some key → IsNoted places.now.entries now found.new.keys key) }
{
    for (_node, key) in list.walk(Family::First, slot) {
        note(places, now, *key, found)?;
    }
    Ok(())
}

/// How many slots the times from the lowest one to now have.
fn slots_passed(low: u64, now: u64) -> u64
    requires { low ≤ now }
    ensures within { (turn : ℕ) → turn < result → turn ≤ now - low }
    ensures whole { (at : ℕ) → low ≤ at → at ≤ now → (at - low) % 65536 < result }
{
    let span = now - low;
    if span < SLOTS { span + 1 } else { SLOTS }
}

/// The timers that are due.
pub fn find_due(
    alloc: Global,
    list: &Keys,
    places: &Places,
    low: u64,
    now: u64,
) -> Result<Dues, Memory>
    requires kept { Kept places.now.entries list.now low }
    requires passed { low ≤ now }
    ensures sound { IfOk result (λ found. AllDue (map timed places.now.entries) now found.keys) }
    ensures whole { IfOk result (λ found. (d : ℕ × ℕ) → IsDue (map timed places.now.entries) now d → IsFound found.keys d) }
{
    let mut found = BTreeSet::new(alloc);
    for turn in 0..slots_passed(low, now) {
        note_slot(list, places, now, ((low + turn) % SLOTS) as u32, &mut found)?;
    }
    Ok(found)
}

/// The keys of timers, in their order.
pub fn keys_of(alloc: Global, found: &Dues) -> Result<Vec<u128>, Memory>
    ensures ordered { IsStrictlySortedBy due_cmp found.now.keys }
    ensures keys { IfOk result (λ keys. keys.items ≡ map (λ d. d.1) found.now.keys) }
{
    let keys = found.iter().map(|due| due.1).collect(alloc)?;
    Ok(keys)
}
