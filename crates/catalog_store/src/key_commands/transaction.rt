//! The changes of a transaction, which are made as one step.

ghost use Rattle.std.specs.Prelude.{◌≡◌, IfOk, OnOk, map};
ghost use Rattle.std.specs.List.{AllByRecursion};
ghost use Rattle.cat_model.specs.Keys.{text_cmp};
ghost use Rattle.cat_model.specs.Tables.{Ascends};
ghost use Rattle.kv_table.specs.States.{SetsRow};
ghost use Rattle.txn_engine.specs.Changes.{change_key, changed};
ghost use Rattle.catalog_store.specs.Changes.{IsChange, Makes, MakesEach};
ghost use Rattle.catalog_store.specs.Steps.{Earlier, Moves};

use crate::key_commands::keys::bury;
use cat_model::{Chan, KvRow, List, Memory};
use kv_table::KvTable;
use std::alloc::Global;
use txn_engine::Change;

// Puts a copy of the row into the table.
fn put_copy(table: &mut KvTable, row: &KvRow) -> Result<(), Memory>
    ensures ok { OnOk result (SetsRow row.now table.old table.new) }
    ensures before { table.new.before ≡ table.old.before }
{
    match table.set(row.clone()?) {
        Ok(()) => Ok(()),
        Err((_, memory)) => Err(memory),
    }
}

// Makes a change at the position.
fn make(table: &mut KvTable, position: u64, change: &Change) -> Result<(), Memory>
    ensures ok { OnOk result (Makes change.now position table.old table.new) }
    ensures before { table.new.before ≡ table.old.before }
{
    match change {
        Change::Put(row) => put_copy(table, row),
        Change::Removed(key) => bury(table, position, key),
    }
}

// Makes the changes at the position, one after the other.
fn make_each(table: &mut KvTable, position: u64, changes: &[Change]) -> Result<(), Memory>
    ensures ok { OnOk result (MakesEach changes.now position table.old table.new) }
    ensures before { table.new.before ≡ table.old.before }
{
    for change in changes {
        make(table, position, change)?;
    }
    Ok(())
}

// The channel of the changed key.
fn chan_of(change: &Change) -> Result<Chan, Memory>
    ensures { IfOk result (λ chan. chan ≡ Chan.Key (change_key change.now)) }
{
    match change {
        Change::Put(row) => Ok(Chan::Key(row.key.clone()?)),
        Change::Removed(key) => Ok(Chan::Key(key.clone()?)),
    }
}

// The channels of the changed keys.
fn chans_of(alloc: Global, changes: &[Change]) -> Result<List<Chan>, Memory>
    ensures { IfOk result (λ l. l ≡ map (λ change. Chan.Key (change_key change)) changes.now) }
{
    let mut chans = List::new(alloc);
    for change in changes {
        let chan = chan_of(change)?;
        chans.push(chan)?;
    }
    Ok(chans)
}

/// Makes the changes of a transaction at the position, and gives the channels that they fire. The changes stand in the
/// order of their keys, one for each key.
pub fn write_changes(
    alloc: Global,
    table: &mut KvTable,
    position: u64,
    changes: &[Change],
) -> Result<List<Chan>, Memory>
    requires earlier { Earlier position table.old.now.rows }
    requires order { Ascends text_cmp change_key changes.now }
    requires changes { AllByRecursion (λ change. IsChange position table.old.now.rows change) changes.now }
    ensures rows { OnOk result (table.new.now.rows ≡ changed changes.now table.old.now.rows) }
    ensures moves { IfOk result (λ chans. Moves position table.old table.new chans) }
    ensures before { table.new.before ≡ table.old.before }
{
    let chans = chans_of(alloc, changes)?;
    make_each(table, position, changes)?;
    Ok(chans)
}
