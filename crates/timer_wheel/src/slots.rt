//! Nodes and places of timers, kept together.

ghost use Rattle.std.specs.Prelude.{◌≡◌, ◌<◌, ◌≤◌, [], length, OnOk, OnErr, IfOk, IsSome, IfSome, MatchOption, is_some, map, filter};
ghost use Rattle.std.specs.BTreeMap.{is_at, insert_entry};
ghost use Rattle.std.specs.Map.{lookup, remove_entry};
ghost use Rattle.std.specs.Ordering.{nat_cmp};
ghost use Rattle.index_list.specs.Nodes.{item_at, unlinked};
ghost use Rattle.timer_wheel.specs.Finds.{is_off};
ghost use Rattle.timer_wheel.specs.Kept.{Kept, timed};

use crate::place::{Place, Places, SLOTS};
use cat_model::Memory;
use index_list::{Family, IndexList, LinkFault};
use std::alloc::Global;

/// The keys of the timers: each on the list of its slot in the first family, and all on one list in the second.
pub type Keys = IndexList<u128>;

/// An empty list for each slot, and one for all timers.
pub fn empty_slots(alloc: Global) -> Result<Keys, Memory>
    ensures first { IfOk result (λ l. length l.first ≡ 65536) }
    ensures second { IfOk result (λ l. length l.second ≡ 1) }
    ensures items { IfOk result (λ l. l.items ≡ []) }
{
    let mut list = IndexList::new(alloc)?;
    list.new_list(Family::Second)?;
    for _slot in 0..SLOTS {
        list.new_list(Family::First)?;
    }
    Ok(list)
}

fn unlink_old(list: &mut Keys, old: Option<Place>)
    requires live { IfSome old (λ p. IsSome (item_at list.old.items p.node)) }
    ensures { MatchOption old (list.new ≡ list.old) (λ p. list.new ≡ unlinked p.node list.old) }
{
    if let Some(place) = old {
        list.unlink(place.node);
    }
}

/// Sets the timer of a key. What can fail comes first, and the timer that is replaced goes last.
pub fn set_timer(
    list: &mut Keys,
    places: &mut Places,
    low: u64,
    key: u128,
    at: u64,
) -> Result<(), Memory>
    requires kept { Kept places.old.entries list.old low }
    requires few { length places.old.entries < 1048576 }
    requires late { low ≤ at }
    ensures kept { Kept places.new.entries list.new low }
    ensures ok { OnOk result (map timed places.new.entries ≡ insert_entry nat_cmp (map timed places.old.entries) key at) }
    ensures err { OnErr result (places.new.entries ≡ places.old.entries) }
{
    let node = match list.link((at % SLOTS) as u32, 0, key) {
        Ok(node) => node,
        Err(LinkFault::Memory) => return Err(Memory),
        Err(LinkFault::Full) => unreachable!(),
    };
    match places.insert(key, Place { node, at }) {
        Ok(old) => {
            unlink_old(list, old);
            Ok(())
        }
        Err(_) => {
            list.unlink(node);
            Err(Memory)
        }
    }
}

/// Takes out the timer of a key, and tells whether it was set.
pub fn unset_timer(list: &mut Keys, places: &mut Places, low: u64, key: u128) -> bool
    requires kept { Kept places.old.entries list.old low }
    ensures kept { Kept places.new.entries list.new low }
    ensures was { result ≡ is_some (lookup (is_at (nat_cmp key)) places.old.entries) }
    ensures left { places.new.entries ≡ remove_entry (is_at (nat_cmp key)) places.old.entries }
{
    match places.remove(&key) {
        Some(place) => {
            list.unlink(place.node);
            true
        }
        None => false,
    }
}

/// Takes out the timers of these keys.
pub fn unset_timers(list: &mut Keys, places: &mut Places, low: u64, keys: &[u128])
    requires kept { Kept places.old.entries list.old low }
    ensures kept { Kept places.new.entries list.new low }
    ensures left { places.new.entries ≡ filter (is_off keys.now) places.old.entries }
{
    for key in keys {
        unset_timer(list, places, low, *key);
    }
}
