ghost use Rattle.std.specs.Prelude.{◌≡◌, [], None, Some, OnErr, OnOk};
ghost use Rattle.std.proofs.lemmas.Cmp.{nat_list_cmp_total};
ghost use Rattle.std.proofs.lemmas.Map.Lookups.{exact_bytes};
ghost use Rattle.cat_model.specs.Keys.{text_cmp};
ghost use Rattle.touch_positions.specs.NameVersions.{own_position, OthersStay};

use cat_model::{Memory, Text};
use row_table::{Probe, Row, RowTable};
use std::alloc::Global;
use std::cmp::Ordering;
use std::marker::Model;

/// A name with its position.
#[derive(Drop)]
pub(crate) struct Entry {
    name: Text,
    position: u64,
}

impl Model for Entry {
    ghost use Rattle.std.specs.Prelude.{ℕ, List};

    ghost Value = { List ℕ × ℕ };

    ghost view = { λ e. (e.name, e.position) };
}

impl Row for Entry {
    type Key = Text;

    ghost key = { λ e. e.0 };

    ghost cmp = { text_cmp };

    ghost total = { nat_list_cmp_total };

    ghost exact = { exact_bytes };

    fn order(&self, other: &Entry) -> Ordering {
        self.name.as_str().cmp(other.name.as_str())
    }

    fn copy(&self) -> Result<Entry, Memory> {
        Ok(Entry {
            name: self.name.clone()?,
            position: self.position,
        })
    }
}

/// Looks for the position of this name.
#[derive(Clone, Copy)]
struct ByName<'a>(&'a str);

impl<'a> Probe<Entry> for ByName<'a> {
    ghost sought = { λ p. p.0.now };

    fn place(&self, row: &Entry) -> Ordering {
        row.name.as_str().cmp(self.0)
    }
}

// The position of the name, where it has one of its own.
fn own(table: &RowTable<Entry>, name: &str) -> Option<u64>
    ensures { result ≡ own_position name.now table.now.now }
{
    match table.get(&ByName(name)) {
        Some(entry) => Some(entry.position),
        None => None,
    }
}

// Gives the name the position.
fn touch(table: &mut RowTable<Entry>, name: Text, position: u64) -> Result<(), Memory>
    ensures own { OnOk result (own_position name table.new.now ≡ Some position) }
    ensures others { OnOk result (OthersStay name table.old.now table.new.now) }
    ensures before { table.new.before ≡ table.old.before }
    ensures err { OnErr result (table.new.now ≡ table.old.now) }
{
    match table.set(Entry { name, position }) {
        Ok(()) => Ok(()),
        Err((_, memory)) => Err(memory),
    }
}

// Takes the position of the name away.
fn vanish(table: &mut RowTable<Entry>, name: &str)
    ensures own { own_position name.now table.new.now ≡ None }
    ensures others { OthersStay name.now table.old.now table.new.now }
    ensures before { table.new.before ≡ table.old.before }
{
    table.remove(&ByName(name));
}

/// The positions of names, now and at the last `keep`.
#[derive(Drop)]
pub(crate) struct Names {
    table: RowTable<Entry>,
}

impl Model for Names {
    ghost use Rattle.touch_positions.specs.NameVersions.{NameVersions};

    ghost Value = { NameVersions };

    ghost view = { λ n. record { now = n.table.now; before = n.table.before } };
}

impl Names {
    ghost use Rattle.touch_positions.specs.NameVersions.{NameVersions};

    pub(crate) fn new(alloc: Global) -> Names
        ensures now { result.now ≡ [] }
        ensures before { result.before ≡ [] }
    {
        Names {
            table: RowTable::new(alloc),
        }
    }

    /// The position of the name, where it has one of its own.
    pub(crate) fn own(&self, name: &str) -> Option<u64>
        ensures { result ≡ own_position name.now self.now.now }
    {
        own(&self.table, name)
    }

    /// Gives the name the position.
    pub(crate) fn touch(&mut self, alloc: Global, name: &str, position: u64) -> Result<(), Memory>
        ensures own { OnOk result (own_position name.now self.new.now ≡ Some position) }
        ensures others { OnOk result (OthersStay name.now self.old.now self.new.now) }
        ensures before { self.new.before ≡ self.old.before }
        ensures err { OnErr result (self.new.now ≡ self.old.now) }
    {
        touch(&mut self.table, Text::new(alloc, name)?, position)
    }

    /// Takes the position of the name away.
    pub(crate) fn vanish(&mut self, name: &str)
        ensures own { own_position name.now self.new.now ≡ None }
        ensures others { OthersStay name.now self.old.now self.new.now }
        ensures before { self.new.before ≡ self.old.before }
    {
        vanish(&mut self.table, name);
    }

    pub(crate) fn keep(&mut self)
        ensures now { self.new.now ≡ self.old.now }
        ensures before { self.new.before ≡ self.old.now }
    {
        self.table.keep();
    }

    pub(crate) fn undo(&mut self)
        ensures now { self.new.now ≡ self.old.before }
        ensures before { self.new.before ≡ self.old.before }
    {
        self.table.undo();
    }
}
