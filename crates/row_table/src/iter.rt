//! The rows of a table one after another.

ghost use Rattle.std.specs.Iterator.{YieldsFirstRef, item_count};

use crate::Row;
use crate::tree::Tree;
use crate::walk::{Start, first_from};
use std::marker::Model;

/// Rows that are there, in the order of their keys. Contracts see those that are left.
#[derive(Drop)]
pub struct Rows<'a, R: Row> {
    pub(crate) tree: &'a Tree<R>,
    /// The row that comes next.
    pub(crate) next: Option<&'a R>,
}

impl<'a, R: Row> Model for Rows<'a, R> {
    ghost use Rattle.std.specs.Prelude.{List};
    ghost use Rattle.std.specs.Option.{option_copied};
    ghost use Rattle.row_table.specs.Slots.{InOrder, rows_now};
    ghost use Rattle.row_table.specs.Trees.{tree_slots};
    ghost use Rattle.row_table.specs.Walks.{rows_left};

    ghost Value = { List R };

    ghost view = { λ r. rows_left R.cmp R.key (option_copied r.next) (rows_now (tree_slots r.tree.now)) };

    ghost invariant = { λ r. InOrder R.cmp R.key (tree_slots r.tree.now) };
}

impl<'a, R: Row> Iterator for Rows<'a, R> {
    type Item = &'a R;

    ghost next_gives = { YieldsFirstRef (λ s. s) };

    ghost remaining = { item_count (λ s. s) };

    fn next(&mut self) -> Option<&'a R> {
        let row = self.next?;
        self.next = first_from(self.tree, row, Start::Behind);
        Some(row)
    }
}
