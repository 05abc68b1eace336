//! The registry.

ghost use Rattle.std.specs.Prelude.{◌≡◌, ◌≢◌, ◌<◌, ◌≤◌, [], length, None, Some, is_some, slice_get, OnOk, OnErr, IfNone, IfOk, IfSome, map, filter, not};
ghost use Rattle.std.specs.BTreeMap.{is_at, insert_entry, IsOrdered};
ghost use Rattle.std.specs.List.Sorted.{IsStrictlySortedBy};
ghost use Rattle.std.specs.Map.{lookup, remove_entry};
ghost use Rattle.std.specs.Ordering.{nat_cmp};
ghost use Rattle.cat_model.specs.Reach.{is_on};

use crate::hit::find_hit;
use crate::waiters::{Index, Waiters, empty_lists, hold, release, release_all};
use cat_model::lists::copied;
use cat_model::{Chan, List, Memory};
use std::alloc::Global;
use std::collections::{BTreeMap, BTreeSet};
use std::marker::Model;

/// Waiters with the channels on which they hang. Contracts see the waiters, ascending, each with its channels.
#[derive(Drop)]
pub struct WatchRegistry {
    list: Index,
    waiters: Waiters,
}

impl Model for WatchRegistry {
    ghost use Rattle.std.specs.Prelude.{ℕ, List as Items, map};
    ghost use Rattle.cat_model.specs.declared.query.Chan.{Chan as Channel};
    ghost use Rattle.read_watch.specs.Held.{Held, shown};

    ghost Value = { Items (ℕ × Items Channel) };

    ghost view = { λ a. map shown a.waiters.entries };

    ghost invariant = { λ a. Held a.waiters.entries a.list };
}

/// The waiters, ascending.
fn waiters_of(alloc: Global, found: &BTreeSet<u64>) -> Result<Vec<u64>, Memory>
    ensures ordered { IsStrictlySortedBy nat_cmp found.now.keys }
    ensures keys { IfOk result (λ waiters. waiters.items ≡ found.now.keys) }
{
    let waiters = found.iter().copied().collect(alloc)?;
    Ok(waiters)
}

impl WatchRegistry {
    /// A registry with no waiter.
    pub fn new(alloc: Global) -> Result<WatchRegistry, Memory>
        ensures { IfOk result (λ r. r ≡ []) }
    {
        Ok(WatchRegistry {
            list: empty_lists(alloc)?,
            waiters: BTreeMap::new(alloc),
        })
    }

    /// How many waiters there are.
    pub fn len(&self) -> usize
        ensures { result ≡ length self.now }
    {
        self.waiters.len()
    }

    /// Whether the waiter is there.
    pub fn contains(&self, waiter: u64) -> bool
        ensures { result ≡ is_some (lookup (is_at (nat_cmp waiter)) self.now) }
    {
        self.waiters.contains_key(&waiter)
    }

    /// The waiter with the least number.
    pub fn first(&self) -> Option<u64>
        ensures none { IfNone result (self.now ≡ []) }
        ensures some { IfSome result (λ waiter. lookup (is_at (nat_cmp waiter)) self.now ≢ None) }
        ensures least { IfSome result (λ waiter. slice_get (map (λ w. w.0) self.now) 0 ≡ Some waiter) }
    {
        match self.waiters.first_key_value() {
            Some((waiter, _)) => Some(*waiter),
            None => None,
        }
    }

    /// Adds a new waiter on its channels.
    #[tactic(auto, using(cat_model::proofs::Clones::chan_same))]
    pub fn register(&mut self, alloc: Global, waiter: u64, chans: &List<Chan>) -> Result<(), Memory>
        requires fresh { lookup (is_at (nat_cmp waiter)) self.old ≡ None }
        requires few { length self.old < 4096 }
        requires two { length chans.now ≤ 2 }
        ensures ok { OnOk result (self.new ≡ insert_entry nat_cmp self.old waiter chans.now) }
        ensures err { OnErr result (self.new ≡ self.old) }
    {
        let chans = copied(alloc, chans.as_slice())?;
        hold(&mut self.list, &mut self.waiters, waiter, chans)
    }

    /// Takes out the waiters on any channel that a fired one reaches, and gives them in ascending order.
    pub fn fire(&mut self, alloc: Global, fired: &List<Chan>) -> Result<List<u64>, Memory>
        ensures hit { IfOk result (λ l. l ≡ map (λ w. w.0) (filter (λ w. is_on fired.now w.1) self.old)) }
        ensures left { OnOk result (self.new ≡ filter (λ w. not (is_on fired.now w.1)) self.old) }
        ensures err { OnErr result (self.new ≡ self.old) }
    {
        let found = find_hit(alloc, &self.list, &self.waiters, fired.as_slice())?;
        let hit = waiters_of(alloc, &found)?;
        release_all(&mut self.list, &mut self.waiters, hit.as_slice());
        Ok(List::from(hit))
    }

    /// Takes a waiter out, if it is there. It takes no memory.
    pub fn remove(&mut self, waiter: u64)
        ensures left { self.new ≡ remove_entry (is_at (nat_cmp waiter)) self.old }
        ensures gone { lookup (is_at (nat_cmp waiter)) self.new ≡ None }
    {
        release(&mut self.list, &mut self.waiters, waiter);
    }
}
