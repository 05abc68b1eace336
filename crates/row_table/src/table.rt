ghost use Rattle.std.specs.Prelude.{◌≡◌, [], Bool, filter, IfOk, IfErr, OnOk, OnErr, is_some};
ghost use Rattle.std.specs.Option.{option_copied};
ghost use Rattle.std.specs.Ordering.{is_eq, is_ge};
ghost use Rattle.std.specs.List.{list_any};
ghost use Rattle.cat_model.specs.Tables.{row_at, put, without, Ascends};
ghost use Rattle.row_table.specs.Tests.{Tells};

use crate::edit::{keep, put_row, remove, remove_where, undo};
use crate::group::rows_in;
use crate::tree::{Tree, take};
use crate::walk::{Start, all_copies, any_row, find, first, first_from};
use crate::{Group, Probe, Row, Rows, Seen};
use cat_model::Memory;
use std::alloc::Global;
use std::marker::Model;

/// Rows in the order of their keys, at most one for each. Contracts see them as they are now, and as they stood at the
/// last `keep`, or at `new` where there was none.
#[derive(Drop)]
pub struct RowTable<R: Row> {
    alloc: Global,
    tree: Tree<R>,
}

impl<R: Row> Model for RowTable<R> {
    ghost use Rattle.row_table.specs.Versions.{Versions};
    ghost use Rattle.row_table.specs.Slots.{InOrder, rows_now, rows_before};
    ghost use Rattle.row_table.specs.Trees.{tree_slots, MarksHold};

    ghost Value = { Versions R };

    ghost view = { λ r. record { now = rows_now (tree_slots r.tree); before = rows_before (tree_slots r.tree) } };

    ghost invariant = { λ r. InOrder R.cmp R.key (tree_slots r.tree) × MarksHold r.tree };
}

impl<R: Row> RowTable<R> {
    /// The empty table, which takes no memory.
    pub fn new(alloc: Global) -> RowTable<R>
        ensures now { result.now ≡ [] }
        ensures before { result.before ≡ [] }
    {
        RowTable {
            alloc,
            tree: Tree::Leaf,
        }
    }

    /// The row of a key.
    pub fn get<P: Probe<R>>(&self, probe: &P) -> Option<&R>
        ensures { option_copied result ≡ row_at R.cmp R.key (P.sought probe.now) self.now.now }
    {
        find(&self.tree, probe)
    }

    /// Puts the row in the place of the one of its key. After lack of memory it comes back.
    pub fn set(&mut self, row: R) -> Result<(), (R, Memory)>
        ensures ok { OnOk result (self.new.now ≡ put R.cmp R.key row self.old.now) }
        ensures before { self.new.before ≡ self.old.before }
        ensures err { IfErr result (λ e. e.0 ≡ row) }
        ensures same { OnErr result (self.new.now ≡ self.old.now) }
    {
        put_row(self.alloc, &mut self.tree, row)
    }

    /// Removes the row of a key, and tells whether there was one.
    pub fn remove<P: Probe<R>>(&mut self, probe: &P) -> bool
        ensures rows { self.new.now ≡ without (λ r. is_eq (R.cmp (P.sought probe.now) (R.key r))) self.old.now }
        ensures before { self.new.before ≡ self.old.before }
        ensures there { result ≡ is_some (row_at R.cmp R.key (P.sought probe.now) self.old.now) }
    {
        remove(&mut self.tree, probe)
    }

    /// Removes each row that passes the test.
    pub fn remove_where<F: Fn(&R) -> bool>(&mut self, test: F)
        requires { F.IsAlwaysCallable test }
        ensures rows { (t : R → Bool) → Tells F.Fn test t → self.new.now ≡ without t self.old.now }
        ensures before { self.new.before ≡ self.old.before }
    {
        remove_where(&mut self.tree, &test);
    }

    /// Whether a row passes the test.
    pub fn any<F: Fn(&R) -> bool>(&self, test: F) -> bool
        requires { F.IsAlwaysCallable test }
        ensures { (t : R → Bool) → Tells F.Fn test t → result ≡ list_any t self.now.now }
    {
        any_row(&self.tree, &test)
    }

    /// The rows one after another, in the order of their keys.
    pub fn rows(&self) -> Rows<'_, R>
        ensures { result ≡ self.now.now }
    {
        Rows {
            tree: &self.tree,
            next: first(&self.tree),
        }
    }

    /// The rows from a key on, in the order of their keys.
    pub fn rows_from<P: Probe<R>>(&self, probe: &P) -> Rows<'_, R>
        ensures { result ≡ filter (λ r. is_ge (R.cmp (R.key r) (P.sought probe.now))) self.now.now }
    {
        Rows {
            tree: &self.tree,
            next: first_from(&self.tree, probe, Start::At),
        }
    }

    /// The rows of a group where they stand, in the order of their keys.
    pub fn group<G: Group<R>>(&self, alloc: Global, group: &G) -> Result<Vec<Seen<'_, R>>, Memory>
        ensures { IfOk result (λ v. v.items ≡ filter (λ r. is_eq (G.stands group.now (R.key r))) self.now.now) }
    {
        rows_in(alloc, &self.tree, group)
    }

    /// Copies of the rows that pass the test, in the order of their keys.
    pub fn copied<F: Fn(&R) -> bool>(&self, alloc: Global, test: F) -> Result<Vec<R>, Memory>
        requires { F.IsAlwaysCallable test }
        ensures rows { (t : R → Bool) → Tells F.Fn test t → IfOk result (λ v. v.items ≡ filter t self.now.now) }
        ensures order { (t : R → Bool) → Tells F.Fn test t → IfOk result (λ v. Ascends R.cmp R.key v.items) }
    {
        all_copies(alloc, &self.tree, &test)
    }

    /// Tells a proof that the rows are in the order of their keys.
    pub fn in_order(&self)
        ensures { Ascends R.cmp R.key self.now.now }
    {
        let _ = &self.tree;
    }

    /// Makes the rows that are there those to which `undo` goes back.
    pub fn keep(&mut self)
        ensures now { self.new.now ≡ self.old.now }
        ensures before { self.new.before ≡ self.old.now }
    {
        self.tree = keep(take(&mut self.tree));
    }

    /// Makes the rows again those of the last `keep`, or of `new` where there was none.
    pub fn undo(&mut self)
        ensures now { self.new.now ≡ self.old.before }
        ensures before { self.new.before ≡ self.old.before }
    {
        self.tree = undo(take(&mut self.tree));
    }
}
