//! The nodes of a list one after another.

ghost use Rattle.std.specs.Prelude.{◌≡◌, ◌<◌, [], length, Some, slice_index_or};
ghost use Rattle.std.specs.Iterator.{YieldsFirstBy, item_count};
ghost use Rattle.index_list.specs.Nodes.{family_of};
ghost use Rattle.index_list.specs.Walks.{shown};

use crate::family::Family;
use crate::nodes::IndexList;
use std::marker::Model;

/// The nodes of a list in order, each as its number and its item. Contracts see those that are left.
#[derive(Drop)]
pub struct Walk<'a, T> {
    nodes: &'a IndexList<T>,
    family: Family,
    list: u32,
    at: Option<u32>,
}

impl<'a, T> Model for Walk<'a, T> {
    ghost use Rattle.std.specs.Prelude.{◌≡◌, ℕ, true, List, [], Option, IfSome, slice_index_or};
    ghost use Rattle.index_list.specs.Nodes.{family_of};
    ghost use Rattle.index_list.specs.Places.{has};
    ghost use Rattle.index_list.specs.Walks.{shown, nodes_left};

    ghost Value = { List (ℕ × Option T) };

    ghost view = { λ w. shown w.nodes.now.items (nodes_left w.at (slice_index_or (family_of w.family w.nodes.now) w.list [])) };

    ghost invariant = { λ w. IfSome w.at (λ n. has n (slice_index_or (family_of w.family w.nodes.now) w.list []) ≡ true) };
}

impl<'a, T: Drop> Iterator for Walk<'a, T> {
    type Item = (u32, &'a T);

    ghost next_gives = { YieldsFirstBy (λ node. (node.0, Some node.1.now)) (λ left. left) };

    ghost remaining = { item_count (λ left. left) };

    fn next(&mut self) -> Option<(u32, &'a T)> {
        let node = self.at?;
        self.nodes.placed();
        self.at = self.nodes.next(self.family, node);
        Some((node, self.nodes.item(node)))
    }
}

impl<T: Drop> IndexList<T> {
    /// The nodes of a list in order, each as its number and its item.
    pub fn walk(&self, family: Family, list: u32) -> Walk<'_, T>
        requires list { list < length (family_of family self.now) }
        ensures { result ≡ shown self.now.items (slice_index_or (family_of family self.now) list []) }
    {
        Walk {
            nodes: self,
            family,
            list,
            at: self.head(family, list),
        }
    }
}
