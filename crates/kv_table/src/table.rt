ghost use Rattle.std.specs.Prelude.{◌≡◌, IfErr, IfOk, OnErr, OnOk, filter, is_some, map};
ghost use Rattle.std.specs.Option.{option_copied};
ghost use Rattle.cat_model.specs.Keys.{text_cmp, has_prefix};
ghost use Rattle.cat_model.specs.Tables.{Ascends};
ghost use Rattle.cat_model.specs.Catalog.{kv_at, kv_key};
ghost use Rattle.cat_model.specs.KvIndexes.{key_index, prefix_index};
ghost use Rattle.kv_table.specs.States.{empty_state, is_held_by, SetsRow, RemovesRow, AddsTomb, Reaps};

use crate::held::{Held, keys_of};
use crate::holders::{remove, set};
use crate::rows::{keys_under, modified_under, under};
use crate::tombs::Tombs;
use cat_model::{KvRow, List, Memory, Text, Texts};
use row_table::{ByKey, RowTable};
use std::alloc::Global;
use std::marker::Model;

/// The rows of the keys, with what the indexes of keys and prefixes need of those that are gone. Contracts see it as it
/// is now and as it stood at the last `keep`, or at `new` where there was none. Positions are those of the log.
#[derive(Drop)]
pub struct KvTable {
    rows: RowTable<KvRow>,
    held: RowTable<Held>,
    tombs: Tombs,
}

impl Model for KvTable {
    ghost use Rattle.kv_table.specs.States.{KvVersions};
    ghost use Rattle.kv_table.specs.Holders.{FilesHolders};

    ghost Value = { KvVersions };

    ghost view = { λ t. record { now = record { rows = t.rows.now; tombs = t.tombs.now.tombs; floor = t.tombs.now.floor }; before = record { rows = t.rows.before; tombs = t.tombs.before.tombs; floor = t.tombs.before.floor } } };

    ghost invariant = { λ t. FilesHolders t.rows.now t.held.now × FilesHolders t.rows.before t.held.before };
}

impl KvTable {
    /// The empty table, whose every index is 1.
    pub fn new(alloc: Global) -> Result<KvTable, Memory>
        ensures { IfOk result (λ t. t ≡ record { now = empty_state; before = empty_state }) }
    {
        Ok(KvTable {
            rows: RowTable::new(alloc),
            held: RowTable::new(alloc),
            tombs: Tombs::new(alloc),
        })
    }

    /// The row of a key. The rows are in the order of their keys, one for each key.
    pub fn get(&self, key: &str) -> Option<&KvRow>
        ensures row { option_copied result ≡ kv_at key.now self.now.now.rows }
        ensures order { Ascends text_cmp kv_key self.now.now.rows }
    {
        self.rows.in_order();
        self.rows.get(&ByKey(key))
    }

    /// Puts the row in the place of the one of its key. After lack of memory it comes back.
    pub fn set(&mut self, row: KvRow) -> Result<(), (KvRow, Memory)>
        ensures ok { OnOk result (SetsRow row self.old self.new) }
        ensures back { IfErr result (λ e. e.0 ≡ row) }
        ensures err { OnErr result (self.new ≡ self.old) }
    {
        set(&mut self.rows, &mut self.held, row)
    }

    /// Removes the row of a key, and tells whether there was one. The key gets its tombstone by `tombstone`.
    pub fn remove(&mut self, key: &str) -> Result<bool, Memory>
        ensures there { IfOk result (λ there. there ≡ is_some (kv_at key.now self.old.now.rows)) }
        ensures ok { OnOk result (RemovesRow key.now self.old self.new) }
        ensures err { OnErr result (self.new ≡ self.old) }
    {
        Ok(remove(&mut self.rows, &mut self.held, key))
    }

    /// Copies of the rows whose key begins with the prefix, in byte order.
    pub fn prefix(&self, alloc: Global, prefix: &str) -> Result<List<KvRow>, Memory>
        ensures rows { IfOk result (λ rows. rows ≡ filter (λ r. has_prefix prefix.now r.key) self.now.now.rows) }
        ensures order { IfOk result (Ascends text_cmp kv_key) }
    {
        Ok(List::from(under(alloc, &self.rows, prefix)?))
    }

    /// The keys that begin with the prefix, in byte order.
    pub fn names(&self, alloc: Global, prefix: &str) -> Result<Texts, Memory>
        ensures keys { IfOk result (λ keys. keys ≡ map kv_key (filter (λ r. has_prefix prefix.now r.key) self.now.now.rows)) }
        ensures order { IfOk result (Ascends text_cmp (λ key. key)) }
    {
        Ok(List::from(keys_under(alloc, &self.rows, prefix)?))
    }

    /// The keys that the session holds, in byte order.
    pub fn held_by(&self, alloc: Global, session: u128) -> Result<Texts, Memory>
        ensures keys { IfOk result (λ keys. keys ≡ map kv_key (filter (is_held_by session) self.now.now.rows)) }
        ensures order { IfOk result (Ascends text_cmp (λ key. key)) }
    {
        Ok(List::from(keys_of(alloc, &self.rows, &self.held, session)?))
    }

    /// Marks that the key was removed at the position.
    pub fn tombstone(&mut self, key: Text, position: u64) -> Result<(), Memory>
        ensures ok { OnOk result (AddsTomb key position self.old self.new) }
        ensures err { OnErr result (self.new ≡ self.old) }
    {
        self.tombs.push(key, position)?;
        Ok(())
    }

    /// Drops all tombstones. The indexes of prefixes and absent keys are from now on at least the position.
    pub fn reap(&mut self, position: u64)
        ensures { Reaps position self.old self.new }
    {
        self.tombs.reap(position);
    }

    /// The index of a key: its row's `modify`, or the last position at which it was removed, or the floor.
    pub fn index_key(&self, key: &str) -> u64
        ensures { result ≡ key_index key.now self.now.now.rows self.now.now.tombs self.now.now.floor }
    {
        match self.rows.get(&ByKey(key)) {
            Some(row) => row.modify,
            None => self.tombs.last_at(key),
        }
    }

    /// The index of a prefix: the last position at which a key under it was written or removed, or the floor.
    pub fn index_prefix(&self, prefix: &str) -> u64
        ensures { result ≡ prefix_index prefix.now self.now.now.rows self.now.now.tombs self.now.now.floor }
    {
        modified_under(&self.rows, prefix, self.tombs.last_under(prefix))
    }

    /// Makes the table as it is now that to which `undo` goes back.
    pub fn keep(&mut self)
        ensures now { self.new.now ≡ self.old.now }
        ensures before { self.new.before ≡ self.old.now }
    {
        self.rows.keep();
        self.held.keep();
        self.tombs.keep();
    }

    /// Makes the table again what it was at the last `keep`, or at `new` where there was none.
    pub fn undo(&mut self)
        ensures now { self.new.now ≡ self.old.before }
        ensures before { self.new.before ≡ self.old.before }
    {
        self.rows.undo();
        self.held.undo();
        self.tombs.undo();
    }
}
