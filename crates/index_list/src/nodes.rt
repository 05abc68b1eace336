//! The arena: items in nodes, each on one list of each of two families.

ghost use Rattle.std.specs.Prelude.{◌≡◌, ◌≢◌, ℕ, ◌<◌, ◌≤◌, ◌+◌, ◌↔◌, Some, None, [], ◌∷◌, ◌++◌, length, map, OnOk, OnErr, IfOk, IfErr, IfSome, IsSome, OnSome, slice_index_or, slice_set, is_some, true, false};
ghost use Rattle.std.specs.Option.{option_copied};
ghost use Rattle.index_list.specs.Chains.{Distinct};
ghost use Rattle.index_list.specs.Places.{is_on, has, without, first_of, after};
ghost use Rattle.index_list.specs.Nodes.{Whole, cut, family_of, with_list, live, item_at, linked, unlinked, with_place, with_last};
ghost use Rattle.index_list.specs.declared.nodes.LinkFault.TheVariants as faults;

use crate::family::Family;
use crate::lists::Lists;
use cat_model::Memory;
use std::alloc::{AllocError, Global};
use std::marker::Model;
use thiserror::Error;

const MOST: usize = 1_048_576;

/// Why a node was not linked.
#[derive(Clone, Copy, Debug, PartialEq, Eq, Error)]
pub enum LinkFault {
    /// There are 1,048,576 nodes.
    #[error("full")]
    Full,
    #[error("out of memory")]
    Memory,
}

/// Nodes with an item each, on one list of each of two families.
#[derive(Drop)]
pub struct IndexList<T> {
    first: Lists,
    second: Lists,
    spare: Lists,
    items: Vec<Option<T>>,
}

impl<T> Model for IndexList<T> {
    ghost use Rattle.index_list.specs.Nodes.{Nodes, nodes_code};

    ghost Value = { Nodes T };

    ghost coded = { nodes_code T.code };

    ghost use Rattle.index_list.specs.Nodes.{Whole};

    ghost view = { λ a. record { items = a.items.items; first = a.first.lists; second = a.second.lists } };

    ghost invariant = { λ a. Whole a.items.items a.first a.second a.spare };
}

/// Makes places for this many nodes, of which all but one are there.
fn reach(lists: &mut Lists, size: usize) -> Result<(), AllocError>
    requires next { size ≤ lists.old.size + 1 }
    requires few { size ≤ 1048576 }
    ensures lists { lists.new.lists ≡ lists.old.lists }
    ensures more { lists.old.size ≤ lists.new.size }
    ensures ok { OnOk result (size ≤ lists.new.size) }
{
    if (lists.size() as usize) < size {
        lists.grow()?;
    }
    Ok(())
}

/// Makes a free node.
fn make_node<T: Drop>(
    first: &mut Lists,
    second: &mut Lists,
    spare: &mut Lists,
    items: &mut Vec<Option<T>>,
) -> Result<u32, AllocError>
    requires whole { Whole items.old.items first.old second.old spare.old }
    requires few { length items.old.items < 1048576 }
    ensures whole { Whole items.new.items first.new second.new spare.new }
    ensures first { first.new.lists ≡ first.old.lists }
    ensures second { second.new.lists ≡ second.old.lists }
    ensures number { IfOk result (λ n. n ≡ length items.old.items) }
    ensures on { IfOk result (λ n. is_on n spare.new.lists ≡ true) }
    ensures ok { OnOk result (items.new.items ≡ items.old.items ++ None ∷ []) }
    ensures err { OnErr result (items.new.items ≡ items.old.items) }
{
    let node = items.len();
    reach(first, node + 1)?;
    reach(second, node + 1)?;
    reach(spare, node + 1)?;
    items.push(None)?;
    spare.append(0, node as u32);
    Ok(node as u32)
}

/// A free node, which is made where there is none.
fn free_node<T: Drop>(
    first: &mut Lists,
    second: &mut Lists,
    spare: &mut Lists,
    items: &mut Vec<Option<T>>,
) -> Result<u32, LinkFault>
    requires whole { Whole items.old.items first.old second.old spare.old }
    ensures whole { Whole items.new.items first.new second.new spare.new }
    ensures first { first.new.lists ≡ first.old.lists }
    ensures second { second.new.lists ≡ second.old.lists }
    ensures on { IfOk result (λ n. is_on n spare.new.lists ≡ true) }
    ensures fresh { IfOk result (λ n. item_at items.old.items n ≡ None) }
    ensures number { IfOk result (λ n. n ≤ length items.old.items) }
    ensures items { IfOk result (λ n. items.new.items ≡ with_place n items.old.items) }
    ensures room { OnOk result (live items.old.items < 1048576) }
    ensures full { IfErr result (λ e. (e ≡ faults.Full) ↔ (live items.old.items ≡ 1048576)) }
    ensures err { OnErr result (items.new.items ≡ items.old.items) }
{
    if let Some(node) = spare.head(0) {
        return Ok(node);
    }
    if items.len() == MOST {
        return Err(LinkFault::Full);
    }
    match make_node(first, second, spare, items) {
        Ok(node) => Ok(node),
        Err(AllocError) => Err(LinkFault::Memory),
    }
}

/// Puts a free node on its lists.
fn fill<T: Drop>(
    first: &mut Lists,
    second: &mut Lists,
    spare: &mut Lists,
    items: &mut Vec<Option<T>>,
    lists: (u32, u32),
    node: u32,
    item: T,
)
    requires whole { Whole items.old.items first.old second.old spare.old }
    requires free { is_on node spare.old.lists ≡ true }
    requires first { lists.0 < length first.old.lists }
    requires second { lists.1 < length second.old.lists }
    ensures whole { Whole items.new.items first.new second.new spare.new }
    ensures first { first.new.lists ≡ with_last lists.0 node first.old.lists }
    ensures second { second.new.lists ≡ with_last lists.1 node second.old.lists }
    ensures items { items.new.items ≡ slice_set items.old.items node (Some item) }
{
    spare.take(node);
    first.append(lists.0, node);
    second.append(lists.1, node);
    items[node as usize] = Some(item);
}

/// Takes a live node off its lists.
fn free<T: Drop>(
    first: &mut Lists,
    second: &mut Lists,
    spare: &mut Lists,
    items: &mut Vec<Option<T>>,
    node: u32,
) -> Option<T>
    requires whole { Whole items.old.items first.old second.old spare.old }
    requires live { IsSome (item_at items.old.items node) }
    ensures whole { Whole items.new.items first.new second.new spare.new }
    ensures first { first.new.lists ≡ map (without node) first.old.lists }
    ensures second { second.new.lists ≡ map (without node) second.old.lists }
    ensures items { items.new.items ≡ slice_set items.old.items node None }
    ensures item { result ≡ item_at items.old.items node }
{
    first.take(node);
    second.take(node);
    spare.append(0, node);
    items[node as usize].take()
}

impl<T: Drop> IndexList<T> {
    /// No nodes, and no list in either family.
    pub fn new(alloc: Global) -> Result<IndexList<T>, Memory>
        ensures { IfOk result (λ l. l ≡ record { items = []; first = []; second = [] }) }
    {
        let mut spare = Lists::new(alloc);
        spare.new_list()?;
        Ok(IndexList {
            first: Lists::new(alloc),
            second: Lists::new(alloc),
            spare,
            items: Vec::new(alloc),
        })
    }

    /// Makes an empty list of a family, and gives its number.
    pub fn new_list(&mut self, family: Family) -> Result<u32, Memory>
        requires few { length (family_of family self.old) < 1048576 }
        ensures number { IfOk result (λ n. n ≡ length (family_of family self.old)) }
        ensures ok { OnOk result (self.new ≡ with_list family self.old) }
        ensures err { OnErr result (self.new ≡ self.old) }
    {
        match family {
            Family::First => Ok(self.first.new_list()?),
            Family::Second => Ok(self.second.new_list()?),
        }
    }

    /// The first node of a list.
    pub fn head(&self, family: Family, list: u32) -> Option<u32>
        requires list { list < length (family_of family self.now) }
        ensures first { result ≡ first_of (slice_index_or (family_of family self.now) list []) }
        ensures apart { IfSome result (λ n. slice_index_or (family_of family self.now) list [] ≡ n ∷ without n (slice_index_or (family_of family self.now) list [])) }
        ensures live { IfSome result (λ n. IsSome (item_at self.now.items n)) }
    {
        match family {
            Family::First => self.first.head(list),
            Family::Second => self.second.head(list),
        }
    }

    /// The node behind a live node in its list of a family.
    pub fn next(&self, family: Family, node: u32) -> Option<u32>
        requires live { IsSome (item_at self.now.items node) }
        ensures { (i : ℕ) → has node (slice_index_or (family_of family self.now) i []) ≡ true → result ≡ after node (slice_index_or (family_of family self.now) i []) }
    {
        match family {
            Family::First => self.first.next(node),
            Family::Second => self.second.next(node),
        }
    }

    /// How many nodes a list has.
    pub fn len(&self, family: Family, list: u32) -> u32
        requires list { list < length (family_of family self.now) }
        ensures { result ≡ length (slice_index_or (family_of family self.now) list []) }
    {
        match family {
            Family::First => self.first.len(list),
            Family::Second => self.second.len(list),
        }
    }

    /// The item of a live node.
    pub fn item(&self, node: u32) -> &T
        requires live { IsSome (item_at self.now.items node) }
        ensures { Some result.now ≡ item_at self.now.items node }
    {
        match &self.items[node as usize] {
            Some(item) => item,
            None => unreachable!(),
        }
    }

    /// Appends a node with this item to a list of each family, and gives its number.
    pub fn link(&mut self, first: u32, second: u32, item: T) -> Result<u32, LinkFault>
        requires first { first < length self.old.first }
        requires second { second < length self.old.second }
        ensures fresh { IfOk result (λ n. item_at self.old.items n ≡ None) }
        ensures number { IfOk result (λ n. n ≤ length self.old.items) }
        ensures ok { IfOk result (λ n. self.new ≡ linked n first second item self.old) }
        ensures room { OnOk result (live self.old.items < 1048576) }
        ensures full { IfErr result (λ e. (e ≡ faults.Full) ↔ (live self.old.items ≡ 1048576)) }
        ensures err { OnErr result (self.new ≡ self.old) }
    {
        let node = free_node(
            &mut self.first,
            &mut self.second,
            &mut self.spare,
            &mut self.items,
        )?;
        fill(
            &mut self.first,
            &mut self.second,
            &mut self.spare,
            &mut self.items,
            (first, second),
            node,
            item,
        );
        Ok(node)
    }

    /// Takes a live node out of its two lists, and gives its item. It takes no memory.
    pub fn unlink(&mut self, node: u32) -> T
        requires live { IsSome (item_at self.old.items node) }
        ensures item { Some result ≡ item_at self.old.items node }
        ensures left { self.new ≡ unlinked node self.old }
    {
        match free(
            &mut self.first,
            &mut self.second,
            &mut self.spare,
            &mut self.items,
            node,
        ) {
            Some(item) => item,
            None => unreachable!(),
        }
    }

    /// The item of a node, if it is live.
    pub fn get(&self, node: u32) -> Option<&T>
        ensures { option_copied result ≡ item_at self.now.items node }
    {
        if (node as usize) < self.items.len() {
            self.items[node as usize].as_ref()
        } else {
            None
        }
    }

    /// A live node is at one place of one list of each family, and no other node is on a list.
    pub fn placed(&self)
        ensures first { (x : ℕ) → is_on x self.now.first ≡ is_some (item_at self.now.items x) }
        ensures second { (x : ℕ) → is_on x self.now.second ≡ is_some (item_at self.now.items x) }
        ensures once_first { (i : ℕ) → Distinct (slice_index_or self.now.first i []) }
        ensures once_second { (i : ℕ) → Distinct (slice_index_or self.now.second i []) }
        ensures alone_first { (i j x : ℕ) → has x (slice_index_or self.now.first i []) ≡ true → has x (slice_index_or self.now.first j []) ≡ true → i ≡ j }
        ensures alone_second { (i j x : ℕ) → has x (slice_index_or self.now.second i []) ≡ true → has x (slice_index_or self.now.second j []) ≡ true → i ≡ j }
    {
        self.first.apart();
        self.second.apart();
    }

    /// Takes out all nodes of a list, and gives their items in order.
    pub fn cut_list(&mut self, alloc: Global, family: Family, list: u32) -> Result<Vec<T>, Memory>
        requires list { list < length (family_of family self.old) }
        ensures items { IfOk result (λ v. map Some v.items ≡ map (item_at self.old.items) (slice_index_or (family_of family self.old) list [])) }
        ensures left { OnOk result (self.new ≡ cut (slice_index_or (family_of family self.old) list []) self.old) }
        ensures empty { OnOk result (slice_index_or (family_of family self.new) list [] ≡ []) }
        ensures err { OnErr result (self.new ≡ self.old) }
    {
        let count = self.len(family, list) as usize;
        let mut items = Vec::new(alloc);
        items.reserve(count)?;
        for _turn in 0..count {
            let node = match self.head(family, list) {
                Some(node) => node,
                None => unreachable!(),
            };
            items.push_reserved(self.unlink(node));
        }
        Ok(items)
    }
}
