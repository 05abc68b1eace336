//! The changes of the operations so far, laid over the rows.

ghost use Rattle.std.specs.Prelude.{◌≡◌, ℕ, List, IfOk, OnOk, OnErr, filter};
ghost use Rattle.std.specs.Option.{option_copied};
ghost use Rattle.cat_model.specs.Keys.{text_cmp, has_prefix};
ghost use Rattle.cat_model.specs.Tables.{put, Ascends};
ghost use Rattle.cat_model.specs.Catalog.{kv_at, kv_key};
ghost use Rattle.cat_model.specs.Kv.{kv_delete, kv_delete_tree};
ghost use Rattle.cat_model.specs.declared.row.KvRow.{KvRow};
ghost use Rattle.txn_engine.specs.Changes.{change_key, made, changed, can_be_made, WrittenAt, AllWritten};
ghost use Rattle.txn_engine.specs.Outcomes.{each_removed, LeadTo};

use crate::Change;
use cat_model::{KvRow, KvRows, List, Memory, Text};
use row_table::{ByKey, Row, RowTable};
use std::alloc::Global;

/// The row of a key, as the operations so far left it.
pub(crate) fn row_of<'a, R: KvRows>(
    rows: &'a R,
    changes: &'a RowTable<Change>,
    key: &str,
) -> Option<&'a KvRow>
    ensures { option_copied result ≡ kv_at key.now (changed changes.now.now (R.rows rows.now)) }
{
    changes.in_order();
    match changes.get(&ByKey(key)) {
        None => rows.row(key),
        Some(Change::Put(row)) => Some(row),
        Some(Change::Removed(_)) => None,
    }
}

// Puts the row in the place of the one of its key.
fn set<T: Row>(table: &mut RowTable<T>, row: T) -> Result<(), Memory>
    ensures ok { OnOk result (table.new.now ≡ put T.cmp T.key row table.old.now) }
    ensures same { OnErr result (table.new.now ≡ table.old.now) }
{
    match table.set(row) {
        Ok(()) => Ok(()),
        Err((_, memory)) => Err(memory),
    }
}

// Puts the change in the place of the one of its key.
fn put_change(changes: &mut RowTable<Change>, change: Change) -> Result<(), Memory>
    ensures ok { OnOk result (changes.new.now ≡ put text_cmp change_key change changes.old.now) }
    ensures written { (i : ℕ) → WrittenAt i change → AllWritten i changes.old.now → AllWritten i changes.new.now }
{
    set(changes, change)
}

/// Notes a change in the place of the one of its key.
pub(crate) fn note<R: KvRows>(
    rows: &R,
    changes: &mut RowTable<Change>,
    change: Change,
) -> Result<(), Memory>
    requires { Ascends text_cmp kv_key (R.rows rows.now) }
    ensures rows { OnOk result (changed changes.new.now (R.rows rows.now) ≡ made change (changed changes.old.now (R.rows rows.now))) }
    ensures written { (i : ℕ) → WrittenAt i change → AllWritten i changes.old.now → AllWritten i changes.new.now }
{
    changes.in_order();
    put_change(changes, change)
}

// Whether the text begins with the prefix.
fn begins(text: &str, prefix: &str) -> bool
    ensures { result ≡ has_prefix prefix.now text.now }
{
    text.as_bytes().starts_with(prefix.as_bytes())
}

// The rows, which are in the order of their keys, as a table. They are moved into it from the last on.
fn table_of(alloc: Global, rows: List<KvRow>) -> Result<RowTable<KvRow>, Memory>
    requires { Ascends text_cmp kv_key rows }
    ensures { IfOk result (λ t. t.now ≡ rows) }
{
    let mut table = RowTable::new(alloc);
    let mut left = rows.into_vec();
    while let Some(row) = left.pop() {
        set(&mut table, row)?;
    }
    Ok(table)
}

// Makes the change in a table of rows.
#[tactic(auto, unfolding(cat_model::specs::Kv::kv_delete))]
fn make(table: &mut RowTable<KvRow>, change: &Change) -> Result<(), Memory>
    ensures { OnOk result (table.new.now ≡ made change.now table.old.now) }
{
    match change {
        Change::Put(row) => set(table, row.clone()?),
        Change::Removed(key) => {
            let _was_there = table.remove(&ByKey(key.as_str()));
            Ok(())
        }
    }
}

// Makes the changes under the prefix in a table of rows.
fn make_under(
    table: &mut RowTable<KvRow>,
    changes: &RowTable<Change>,
    prefix: &str,
) -> Result<(), Memory>
    ensures { OnOk result (table.new.now ≡ changed (filter (λ c. has_prefix prefix.now (change_key c)) changes.now.now) table.old.now) }
{
    for change in changes.rows() {
        if begins(change.key(), prefix) {
            make(table, change)?;
        }
    }
    Ok(())
}

/// The rows whose key has the prefix, as the operations so far left them.
pub(crate) fn under<R: KvRows>(
    alloc: Global,
    rows: &R,
    changes: &RowTable<Change>,
    prefix: &str,
) -> Result<RowTable<KvRow>, Memory>
    requires { Ascends text_cmp kv_key (R.rows rows.now) }
    ensures { IfOk result (λ t. t.now ≡ filter (λ r. has_prefix prefix.now r.key) (changed changes.now.now (R.rows rows.now))) }
{
    changes.in_order();
    let mut table = table_of(alloc, rows.rows_under(alloc, prefix)?)?;
    make_under(&mut table, changes, prefix)?;
    Ok(table)
}

fn removal_of(row: &KvRow) -> Result<Change, Memory>
    ensures { IfOk result (λ c. c ≡ Change.Removed row.now.key) }
{
    Ok(Change::Removed(row.key.clone()?))
}

// Notes that each of the rows is removed.
fn remove_each(table: &RowTable<KvRow>, changes: &mut RowTable<Change>) -> Result<(), Memory>
    ensures ok { OnOk result (changes.new.now ≡ each_removed table.now.now changes.old.now) }
    ensures written { (i : ℕ) → AllWritten i changes.old.now → AllWritten i changes.new.now }
{
    for row in table.rows() {
        let removal = removal_of(row)?;
        put_change(changes, removal)?;
    }
    Ok(())
}

/// Removes the rows whose key has the prefix.
pub(crate) fn remove_under<R: KvRows>(
    alloc: Global,
    rows: &R,
    changes: &mut RowTable<Change>,
    prefix: &str,
) -> Result<(), Memory>
    requires { Ascends text_cmp kv_key (R.rows rows.now) }
    ensures rows { OnOk result (changed changes.new.now (R.rows rows.now) ≡ kv_delete_tree prefix.now (changed changes.old.now (R.rows rows.now))) }
    ensures written { (i : ℕ) → AllWritten i changes.old.now → AllWritten i changes.new.now }
{
    changes.in_order();
    let table = under(alloc, rows, changes, prefix)?;
    remove_each(&table, changes)
}

// Whether the change does something to the rows: what was not there is not removed.
fn can_be_made<R: KvRows>(rows: &R, change: &Change) -> bool
    ensures { result ≡ can_be_made (R.rows rows.now) change.now }
{
    match change {
        Change::Put(_) => true,
        Change::Removed(key) => rows.row(key.as_str()).is_some(),
    }
}

// The changes that do something to the rows.
fn standing<R: KvRows>(
    alloc: Global,
    rows: &R,
    changes: &RowTable<Change>,
) -> Result<List<Change>, Memory>
    ensures { IfOk result (λ l. l ≡ filter (can_be_made (R.rows rows.now)) changes.now.now) }
{
    let mut kept = List::new(alloc);
    for change in changes.rows() {
        if can_be_made(rows, change) {
            kept.push(change.copy()?)?;
        }
    }
    Ok(kept)
}

/// The changes that lead from the rows to those that the operations left.
pub(crate) fn changes_made<R: KvRows>(
    alloc: Global,
    rows: &R,
    changes: &RowTable<Change>,
) -> Result<List<Change>, Memory>
    requires { Ascends text_cmp kv_key (R.rows rows.now) }
    ensures lead { IfOk result (λ l. LeadTo (R.rows rows.now) (changed changes.now.now (R.rows rows.now)) l) }
    ensures written { (i : ℕ) → AllWritten i changes.now.now → IfOk result (λ l. AllWritten i l) }
{
    changes.in_order();
    standing(alloc, rows, changes)
}
