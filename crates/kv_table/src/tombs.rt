//! Tombstones: for each key that was removed the last position at which it was.

ghost use Rattle.std.specs.Prelude.{◌≡◌, ◌∷◌, [], OnErr, OnOk};
ghost use Rattle.std.proofs.lemmas.Cmp.{nat_list_cmp_total};
ghost use Rattle.std.proofs.lemmas.Map.Lookups.{exact_bytes};
ghost use Rattle.cat_model.specs.Keys.{has_prefix, same_text, text_cmp};
ghost use Rattle.cat_model.specs.KvIndexes.{last_tomb};
ghost use Rattle.kv_table.specs.States.{SameTombs};

use crate::prefix::begins;
use cat_model::{Memory, Text};
use row_table::{Probe, Row, RowTable};
use std::alloc::Global;
use std::cmp::Ordering;
use std::marker::Model;

/// A key with the last position at which it was removed.
#[derive(Drop)]
pub(crate) struct Tomb {
    key: Text,
    position: u64,
}

impl Model for Tomb {
    ghost use Rattle.std.specs.Prelude.{ℕ, List};

    ghost Value = { List ℕ × ℕ };

    ghost view = { λ t. (t.key, t.position) };
}

impl Row for Tomb {
    type Key = Text;

    ghost key = { λ t. t.0 };

    ghost cmp = { text_cmp };

    ghost total = { nat_list_cmp_total };

    ghost exact = { exact_bytes };

    fn order(&self, other: &Tomb) -> Ordering {
        self.key.as_str().cmp(other.key.as_str())
    }

    fn copy(&self) -> Result<Tomb, Memory> {
        Ok(Tomb {
            key: self.key.clone()?,
            position: self.position,
        })
    }
}

/// Looks for the tombstone of this key.
#[derive(Clone, Copy)]
pub(crate) struct ByTombKey<'a>(&'a str);

impl<'a> Probe<Tomb> for ByTombKey<'a> {
    ghost sought = { λ p. p.0.now };

    fn place(&self, row: &Tomb) -> Ordering {
        row.key.as_str().cmp(self.0)
    }
}

/// The tombstones and the floor, now and at the last `keep`.
#[derive(Drop)]
pub(crate) struct Tombs {
    table: RowTable<Tomb>,
    floor: u64,
    past_floor: u64,
}

impl Model for Tombs {
    ghost use Rattle.kv_table.specs.TombVersions.{TombVersions};

    ghost Value = { TombVersions };

    ghost view = { λ t. record { now = record { tombs = t.table.now; floor = t.floor }; before = record { tombs = t.table.before; floor = t.past_floor } } };
}

// The last position at which the key was removed, or the floor.
fn last_at(tombs: &RowTable<Tomb>, key: &str, floor: u64) -> u64
    ensures { result ≡ last_tomb (λ k. same_text k key.now) floor tombs.now.now }
{
    tombs.in_order();
    match tombs.get(&ByTombKey(key)) {
        Some(tomb) => tomb.position.max(floor),
        None => floor,
    }
}

// The last position at which a key under the prefix was removed, or the floor.
fn last_under(tombs: &RowTable<Tomb>, prefix: &str, floor: u64) -> u64
    ensures { result ≡ last_tomb (has_prefix prefix.now) floor tombs.now.now }
{
    tombs.in_order();
    let mut last = floor;
    for tomb in tombs.rows_from(&ByTombKey(prefix)) {
        if !begins(tomb.key.as_str(), prefix) {
            break;
        }
        last = last.max(tomb.position);
    }
    last
}

// Puts a tombstone in the place of an earlier one of its key.
fn bury(tombs: &mut RowTable<Tomb>, key: Text, position: u64) -> Result<(), Memory>
    ensures ok { OnOk result (SameTombs ((key, position) ∷ tombs.old.now) tombs.new.now) }
    ensures err { OnErr result (tombs.new.now ≡ tombs.old.now) }
    ensures before { tombs.new.before ≡ tombs.old.before }
{
    tombs.in_order();
    let last = last_at(tombs, key.as_str(), position);
    let tomb = Tomb {
        key,
        position: last,
    };
    match tombs.set(tomb) {
        Ok(()) => Ok(()),
        Err((_, memory)) => Err(memory),
    }
}

impl Tombs {
    ghost use Rattle.kv_table.specs.TombVersions.{no_tombs};

    pub(crate) fn new(alloc: Global) -> Tombs
        ensures { result ≡ record { now = no_tombs; before = no_tombs } }
    {
        Tombs {
            table: RowTable::new(alloc),
            floor: 1,
            past_floor: 1,
        }
    }

    pub(crate) fn push(&mut self, key: Text, position: u64) -> Result<(), Memory>
        ensures ok { OnOk result (SameTombs ((key, position) ∷ self.old.now.tombs) self.new.now.tombs) }
        ensures err { OnErr result (self.new.now.tombs ≡ self.old.now.tombs) }
        ensures floor { self.new.now.floor ≡ self.old.now.floor }
        ensures before { self.new.before ≡ self.old.before }
    {
        bury(&mut self.table, key, position)
    }

    pub(crate) fn reap(&mut self, position: u64)
        ensures tombs { self.new.now.tombs ≡ [] }
        ensures floor { self.new.now.floor ≡ position }
        ensures before { self.new.before ≡ self.old.before }
    {
        self.table.remove_where(|_| true);
        self.floor = position;
    }

    pub(crate) fn last_at(&self, key: &str) -> u64
        ensures { result ≡ last_tomb (λ k. same_text k key.now) self.now.now.floor self.now.now.tombs }
    {
        last_at(&self.table, key, self.floor)
    }

    pub(crate) fn last_under(&self, prefix: &str) -> u64
        ensures { result ≡ last_tomb (has_prefix prefix.now) self.now.now.floor self.now.now.tombs }
    {
        last_under(&self.table, prefix, self.floor)
    }

    pub(crate) fn keep(&mut self)
        ensures now { self.new.now ≡ self.old.now }
        ensures before { self.new.before ≡ self.old.now }
    {
        self.table.keep();
        self.past_floor = self.floor;
    }

    pub(crate) fn undo(&mut self)
        ensures now { self.new.now ≡ self.old.before }
        ensures before { self.new.before ≡ self.old.before }
    {
        self.table.undo();
        self.floor = self.past_floor;
    }
}
