//! The rows of a group, which stand one after another in a tree of slots.

ghost use Rattle.std.specs.Prelude.{◌≡◌, ◌++◌, [], false, filter, IfOk, OnOk};
ghost use Rattle.std.specs.List.{cons_option};
ghost use Rattle.std.specs.Ordering.{is_eq};
ghost use Rattle.row_table.specs.Groups.{AllWithin, Within};
ghost use Rattle.row_table.specs.Slots.{now_of, rows_now};
ghost use Rattle.row_table.specs.Trees.{tree_slots, TreeInOrder};

use crate::slot::Slot;
use crate::tree::Tree;
use crate::{Group, Row, Seen};
use cat_model::Memory;
use std::alloc::Global;
use std::cmp::Ordering;

/// What is known of all rows of a tree.
#[derive(Clone, Copy)]
pub(crate) struct Ends {
    /// None stands below the group.
    low: bool,
    /// None stands above the group.
    high: bool,
}

// How the row stands to the group, which is not asked where it is known.
fn place<R: Row, G: Group<R>>(group: &G, row: &R, ends: Ends) -> Ordering
    ensures { Within ends (G.stands group.now (R.key row.now)) → result ≡ G.stands group.now (R.key row.now) }
{
    if ends.low && ends.high {
        Ordering::Equal
    } else {
        group.place(row)
    }
}

// Adds the slot's row where it is there.
fn add_row<'a, R: Row>(slot: &'a Slot<R>, found: &mut Vec<Seen<'a, R>>) -> Result<(), Memory>
    ensures { OnOk result (found.new.items ≡ found.old.items ++ cons_option (now_of slot.now) []) }
{
    if let Some(row) = slot.now() {
        found.push(Seen::new(row))?;
    }
    Ok(())
}

// Adds the rows of the group.
fn add_group<'a, R: Row, G: Group<R>>(
    tree: &'a Tree<R>,
    group: &G,
    ends: Ends,
    found: &mut Vec<Seen<'a, R>>,
) -> Result<(), Memory>
    requires order { TreeInOrder R.cmp R.key tree.now }
    ensures { AllWithin R.key (G.stands group.now) ends (tree_slots tree.now) → OnOk result (found.new.items ≡ found.old.items ++ filter (λ r. is_eq (G.stands group.now (R.key r))) (rows_now (tree_slots tree.now))) }
{
    match tree {
        Tree::Leaf => Ok(()),
        Tree::Fork(node) => match place(group, &node.slot.row, ends) {
            Ordering::Less => add_group(&node.right, group, ends, found),
            Ordering::Greater => add_group(&node.left, group, ends, found),
            Ordering::Equal => {
                add_group(
                    &node.left,
                    group,
                    Ends {
                        low: ends.low,
                        high: true,
                    },
                    found,
                )?;
                add_row(&node.slot, found)?;
                add_group(
                    &node.right,
                    group,
                    Ends {
                        low: true,
                        high: ends.high,
                    },
                    found,
                )
            }
        },
    }
}

// The rows of the group.
pub(crate) fn rows_in<'a, R: Row, G: Group<R>>(
    alloc: Global,
    tree: &'a Tree<R>,
    group: &G,
) -> Result<Vec<Seen<'a, R>>, Memory>
    requires order { TreeInOrder R.cmp R.key tree.now }
    ensures { IfOk result (λ v. v.items ≡ filter (λ r. is_eq (G.stands group.now (R.key r))) (rows_now (tree_slots tree.now))) }
{
    let mut found = Vec::new(alloc);
    let ends = Ends {
        low: false,
        high: false,
    };
    add_group(tree, group, ends, &mut found)?;
    Ok(found)
}
