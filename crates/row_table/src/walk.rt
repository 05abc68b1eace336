//! Looking for rows in a tree of slots, and going over them.

ghost use Rattle.std.specs.Prelude.{◌≡◌, ◌++◌, [], Bool, filter, IfOk, OnOk};
ghost use Rattle.std.specs.Option.{option_copied};
ghost use Rattle.std.specs.List.{cons_option, list_any};
ghost use Rattle.cat_model.specs.Tables.{row_at};
ghost use Rattle.row_table.specs.Slots.{now_of, rows_now};
ghost use Rattle.row_table.specs.Trees.{tree_slots, TreeInOrder};
ghost use Rattle.row_table.specs.Tests.{Tells, passing};
ghost use Rattle.row_table.specs.Walks.{belongs, first_row, rows_from};

use crate::slot::Slot;
use crate::tree::Tree;
use crate::{Probe, Row};
use cat_model::Memory;
use std::alloc::Global;
use std::cmp::Ordering;

/// Where a walk over rows starts.
#[derive(Clone, Copy)]
pub(crate) enum Start {
    /// At the row of a key, or else at the first one behind it.
    At,
    /// At the first row behind a key.
    Behind,
}

impl Start {
    // Whether a row that stands so to the key belongs to the walk.
    fn takes(self, place: Ordering) -> bool
        ensures { result ≡ belongs self place }
    {
        match self {
            Start::At => place.is_ge(),
            Start::Behind => place.is_gt(),
        }
    }
}

// The row of a key.
pub(crate) fn find<'a, R: Row, P: Probe<R>>(tree: &'a Tree<R>, probe: &P) -> Option<&'a R>
    requires order { TreeInOrder R.cmp R.key tree.now }
    ensures { option_copied result ≡ row_at R.cmp R.key (P.sought probe.now) (rows_now (tree_slots tree.now)) }
{
    match tree {
        Tree::Leaf => None,
        Tree::Fork(node) => match probe.place(&node.slot.row) {
            Ordering::Less => find(&node.right, probe),
            Ordering::Greater => find(&node.left, probe),
            Ordering::Equal => node.slot.now(),
        },
    }
}

// Whether a row passes the test.
pub(crate) fn any_row<R: Row, F: Fn(&R) -> bool>(tree: &Tree<R>, test: &F) -> bool
    requires { F.IsAlwaysCallable test.now }
    ensures { (t : R → Bool) → Tells F.Fn test.now t → result ≡ list_any t (rows_now (tree_slots tree.now)) }
{
    match tree {
        Tree::Leaf => false,
        Tree::Fork(node) => {
            if any_row(&node.left, test) {
                return true;
            }
            if node.slot.passes(test) {
                return true;
            }
            any_row(&node.right, test)
        }
    }
}

// Adds copies of the rows that pass the test.
pub(crate) fn copies<R: Row, F: Fn(&R) -> bool>(
    tree: &Tree<R>,
    test: &F,
    found: &mut Vec<R>,
) -> Result<(), Memory>
    requires { F.IsAlwaysCallable test.now }
    ensures { (t : R → Bool) → Tells F.Fn test.now t → OnOk result (found.new.items ≡ found.old.items ++ filter t (rows_now (tree_slots tree.now))) }
{
    match tree {
        Tree::Leaf => Ok(()),
        Tree::Fork(node) => {
            copies(&node.left, test, found)?;
            copy_passing(&node.slot, test, found)?;
            copies(&node.right, test, found)
        }
    }
}

// Copies of the rows that pass the test.
pub(crate) fn all_copies<R: Row, F: Fn(&R) -> bool>(
    alloc: Global,
    tree: &Tree<R>,
    test: &F,
) -> Result<Vec<R>, Memory>
    requires { F.IsAlwaysCallable test.now }
    ensures { (t : R → Bool) → Tells F.Fn test.now t → IfOk result (λ v. v.items ≡ filter t (rows_now (tree_slots tree.now))) }
{
    let mut found = Vec::new(alloc);
    copies(tree, test, &mut found)?;
    Ok(found)
}

// Adds a copy of the slot's row where it is there and passes the test.
fn copy_passing<R: Row, F: Fn(&R) -> bool>(
    slot: &Slot<R>,
    test: &F,
    found: &mut Vec<R>,
) -> Result<(), Memory>
    requires { F.IsAlwaysCallable test.now }
    ensures { (t : R → Bool) → Tells F.Fn test.now t → OnOk result (found.new.items ≡ found.old.items ++ cons_option (passing t (now_of slot.now)) []) }
{
    if let Some(row) = slot.passing(test) {
        found.push(row.copy()?)?;
    }
    Ok(())
}

// The first row.
pub(crate) fn first<'a, R: Row>(tree: &'a Tree<R>) -> Option<&'a R>
    ensures { option_copied result ≡ first_row (rows_now (tree_slots tree.now)) }
{
    match tree {
        Tree::Leaf => None,
        Tree::Fork(node) => match first(&node.left) {
            Some(row) => Some(row),
            None => match node.slot.now() {
                Some(row) => Some(row),
                None => first(&node.right),
            },
        },
    }
}

// The first row of those from a start on.
pub(crate) fn first_from<'a, R: Row, P: Probe<R>>(
    tree: &'a Tree<R>,
    probe: &P,
    start: Start,
) -> Option<&'a R>
    requires order { TreeInOrder R.cmp R.key tree.now }
    ensures { option_copied result ≡ first_row (rows_from start R.cmp R.key (P.sought probe.now) (rows_now (tree_slots tree.now))) }
{
    match tree {
        Tree::Leaf => None,
        Tree::Fork(node) => {
            if !start.takes(probe.place(&node.slot.row)) {
                return first_from(&node.right, probe, start);
            }
            match first_from(&node.left, probe, start) {
                Some(row) => Some(row),
                None => match node.slot.now() {
                    Some(row) => Some(row),
                    None => first(&node.right),
                },
            }
        }
    }
}
