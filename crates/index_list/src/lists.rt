//! A family of lists over numbered nodes: a node is on at most one of them.

ghost use Rattle.std.specs.Prelude.{◌≡◌, ◌<◌, ◌+◌, ℕ, true, false, [], ◌∷◌, ◌++◌, length, map, IfSome, OnOk, OnErr, IfOk, slice_index_or, slice_set};
ghost use Rattle.index_list.specs.Chains.{Distinct};
ghost use Rattle.index_list.specs.Places.{is_on, without, first_of, after, has};

use crate::chain::{Ends, Link, NIL, append_to, take_from};
use std::alloc::{AllocError, Global};
use std::marker::Model;

/// Lists of numbered nodes.
#[derive(Drop)]
pub struct Lists {
    links: Vec<Link>,
    homes: Vec<u32>,
    lists: Vec<Ends>,
    lens: Vec<u32>,
}

impl Model for Lists {
    ghost use Rattle.std.specs.Prelude.{length};
    ghost use Rattle.index_list.specs.Places.{Places};
    ghost use Rattle.index_list.specs.Views.{lists_of};
    ghost use Rattle.index_list.specs.Inside.{Sound};

    ghost Value = { Places };

    ghost view = { λ a. record { size = length a.links.items; lists = lists_of a.links.items a.lists.items a.lens.items } };

    ghost invariant = { λ a. Sound a.links.items a.homes.items a.lists.items a.lens.items };
}

impl Lists {
    pub fn new(alloc: Global) -> Lists
        ensures { result ≡ record { size = 0; lists = [] } }
    {
        Lists {
            links: Vec::new(alloc),
            homes: Vec::new(alloc),
            lists: Vec::new(alloc),
            lens: Vec::new(alloc),
        }
    }

    /// Appends a node, which is on no list, to a list.
    pub fn append(&mut self, list: u32, node: u32)
        requires list { list < length self.old.lists }
        requires node { node < self.old.size }
        requires apart { is_on node self.old.lists ≡ false }
        ensures { self.new ≡ record self.old { lists = slice_set self.old.lists list (slice_index_or self.old.lists list [] ++ node ∷ []) } }
    {
        append_to(
            &mut self.links,
            &mut self.homes,
            &mut self.lists,
            &mut self.lens,
            list,
            node,
        );
    }

    /// Takes a node out of the list on which it is, if it is on one.
    pub fn take(&mut self, node: u32)
        requires { node < self.old.size }
        ensures { self.new ≡ record self.old { lists = map (without node) self.old.lists } }
    {
        take_from(
            &mut self.links,
            &mut self.homes,
            &mut self.lists,
            &mut self.lens,
            node,
        );
    }

    /// The first node of a list.
    pub fn head(&self, list: u32) -> Option<u32>
        requires { list < length self.now.lists }
        ensures first { result ≡ first_of (slice_index_or self.now.lists list []) }
        ensures apart { IfSome result (λ n. slice_index_or self.now.lists list [] ≡ n ∷ without n (slice_index_or self.now.lists list [])) }
    {
        let head = self.lists[list as usize].head;
        if head == NIL { None } else { Some(head) }
    }

    /// No list has a node twice, and no node is on two lists.
    pub fn apart(&self)
        ensures once { (i : ℕ) → Distinct (slice_index_or self.now.lists i []) }
        ensures alone { (i j x : ℕ) → has x (slice_index_or self.now.lists i []) ≡ true → has x (slice_index_or self.now.lists j []) ≡ true → i ≡ j }
    {
        let _links = &self.links;
    }

    /// The node behind a node in its list.
    pub fn next(&self, node: u32) -> Option<u32>
        requires { node < self.now.size }
        ensures { (i : ℕ) → has node (slice_index_or self.now.lists i []) ≡ true → result ≡ after node (slice_index_or self.now.lists i []) }
    {
        let next = self.links[node as usize].next;
        if next == NIL { None } else { Some(next) }
    }

    /// How many nodes have a place.
    pub fn size(&self) -> u32
        ensures { result ≡ self.now.size }
    {
        self.links.len() as u32
    }

    /// How many nodes a list has.
    pub fn len(&self, list: u32) -> u32
        requires { list < length self.now.lists }
        ensures { result ≡ length (slice_index_or self.now.lists list []) }
    {
        self.lens[list as usize]
    }

    /// Makes room for one more node.
    pub fn grow(&mut self) -> Result<(), AllocError>
        requires { self.old.size < 0xFFFF_FFFF }
        ensures ok { OnOk result (self.new ≡ record self.old { size = self.old.size + 1 }) }
        ensures err { OnErr result (self.new ≡ self.old) }
    {
        self.links.reserve(1)?;
        self.homes.push(NIL)?;
        self.links.push_reserved(Link {
            prev: NIL,
            next: NIL,
        });
        Ok(())
    }

    /// Makes an empty list.
    pub fn new_list(&mut self) -> Result<u32, AllocError>
        requires { length self.old.lists < 0xFFFF_FFFF }
        ensures number { IfOk result (λ n. n ≡ length self.old.lists) }
        ensures ok { OnOk result (self.new ≡ record self.old { lists = self.old.lists ++ [] ∷ [] }) }
        ensures err { OnErr result (self.new ≡ self.old) }
    {
        let number = self.lists.len() as u32;
        self.lists.reserve(1)?;
        self.lens.push(0)?;
        self.lists.push_reserved(Ends {
            head: NIL,
            tail: NIL,
        });
        Ok(number)
    }
}
