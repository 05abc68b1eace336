//! Waiters with their channels and their nodes, kept together.

ghost use Rattle.std.specs.Prelude.{◌≡◌, ◌<◌, ◌≤◌, [], length, OnOk, OnErr, IfOk, Some, None, map, filter};
ghost use Rattle.std.specs.BTreeMap.{is_at, insert_entry};
ghost use Rattle.std.specs.Map.{lookup, remove_entry};
ghost use Rattle.std.specs.Ordering.{nat_cmp};
ghost use Rattle.read_watch.specs.Held.{Held, shown, is_off};

use crate::bucket::{BUCKETS, first_list, second_list};
use cat_model::{Chan, List, Memory};
use index_list::{Family, IndexList, LinkFault};
use std::alloc::Global;
use std::collections::BTreeMap;

/// The waiters: each on the list of its first channel in the first family, and of its second one in the second.
pub type Index = IndexList<u64>;

/// The node and the channels of a waiter.
#[derive(Debug, Drop)]
pub struct Waiting {
    pub node: u32,
    pub chans: List<Chan>,
}

/// The waiters with their nodes and channels.
pub type Waiters = BTreeMap<u64, Waiting>;

/// An empty list in each family for each channel, and one for no channel.
pub fn empty_lists(alloc: Global) -> Result<Index, Memory>
    ensures first { IfOk result (λ l. length l.first ≡ 65537) }
    ensures second { IfOk result (λ l. length l.second ≡ 65537) }
    ensures items { IfOk result (λ l. l.items ≡ []) }
{
    let mut list = IndexList::new(alloc)?;
    for _turn in 0..=BUCKETS {
        list.new_list(Family::First)?;
        list.new_list(Family::Second)?;
    }
    Ok(list)
}

/// Adds a waiter.
pub fn hold(
    list: &mut Index,
    waiters: &mut Waiters,
    waiter: u64,
    chans: List<Chan>,
) -> Result<(), Memory>
    requires held { Held waiters.old.entries list.old }
    requires fresh { lookup (is_at (nat_cmp waiter)) waiters.old.entries ≡ None }
    requires few { length waiters.old.entries < 4096 }
    requires two { length chans ≤ 2 }
    ensures held { Held waiters.new.entries list.new }
    ensures ok { OnOk result (map shown waiters.new.entries ≡ insert_entry nat_cmp (map shown waiters.old.entries) waiter chans) }
    ensures err { OnErr result (waiters.new.entries ≡ waiters.old.entries) }
{
    let first = first_list(chans.as_slice());
    let second = second_list(chans.as_slice());
    let node = match list.link(first, second, waiter) {
        Ok(node) => node,
        Err(LinkFault::Memory) => return Err(Memory),
        Err(LinkFault::Full) => unreachable!(),
    };
    match waiters.insert(waiter, Waiting { node, chans }) {
        Ok(_) => Ok(()),
        Err(_) => {
            list.unlink(node);
            Err(Memory)
        }
    }
}

/// Takes a waiter out, if it is there.
pub fn release(list: &mut Index, waiters: &mut Waiters, waiter: u64)
    requires held { Held waiters.old.entries list.old }
    ensures held { Held waiters.new.entries list.new }
    ensures left { waiters.new.entries ≡ remove_entry (is_at (nat_cmp waiter)) waiters.old.entries }
{
    if let Some(waiting) = waiters.remove(&waiter) {
        list.unlink(waiting.node);
    }
}

/// Takes these waiters out.
pub fn release_all(list: &mut Index, waiters: &mut Waiters, gone: &[u64])
    requires held { Held waiters.old.entries list.old }
    ensures held { Held waiters.new.entries list.new }
    ensures left { waiters.new.entries ≡ filter (is_off gone.now) waiters.old.entries }
{
    for waiter in gone {
        release(list, waiters, *waiter);
    }
}
