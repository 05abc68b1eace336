//! One operation, on what the ones before left.

ghost use Rattle.std.specs.Prelude.{◌≡◌, ℕ, List, [], ◌∷◌, ◌++◌, IfOk, OnOk, Some, None, filter};
ghost use Rattle.std.specs.Option.{option_copied};
ghost use Rattle.cat_model.specs.Keys.{text_cmp, has_prefix};
ghost use Rattle.cat_model.specs.Tables.{Ascends};
ghost use Rattle.cat_model.specs.Catalog.{kv_at, kv_key};
ghost use Rattle.cat_model.specs.Kv.{giving, giving_nothing, result_of, row_with_value, absent_row, each_with_value, held_by, operate};
ghost use Rattle.cat_model.specs.declared.command.Verb.TheVariants.{Set as ASet, Cas, Lock, Unlock, Get, GetOrEmpty, GetTree, CheckIndex, CheckSession, CheckNotExists, Delete, DeleteTree, DeleteCas};
ghost use Rattle.txn_engine.specs.Changes.{changed, AllWritten};
ghost use Rattle.txn_engine.specs.Outcomes.{where_through, outcome};

use crate::Change;
use crate::overlay::{remove_under, row_of, under};
use crate::writes::{self, holder_of, is_same_option};
use cat_model::{Bytes, KvRow, KvRows, List, Memory, Text, TxnOp, TxnResult, Verb};
use row_table::RowTable;
use std::alloc::Global;

/// The results of an operation, or none where it fails.
type Results = Option<List<TxnResult>>;

// The one result.
fn one(alloc: Global, shown: TxnResult) -> Result<List<TxnResult>, Memory>
    ensures { IfOk result (λ l. l ≡ shown ∷ []) }
{
    let mut results = List::new(alloc);
    results.push(shown)?;
    Ok(results)
}

// The row without its value, where there is one.
fn result_of(alloc: Global, row: Option<&KvRow>) -> Result<List<TxnResult>, Memory>
    ensures { IfOk result (λ l. l ≡ result_of (option_copied row.entry)) }
{
    let Some(row) = row else {
        return Ok(List::new(alloc));
    };
    let row = row.clone()?;
    let with_value = false;
    one(alloc, TxnResult { row, with_value })
}

fn with_value(row: &KvRow) -> Result<TxnResult, Memory>
    ensures { IfOk result (λ r. r ≡ row_with_value row.now) }
{
    Ok(TxnResult {
        row: row.clone()?,
        with_value: true,
    })
}

// The key's row without its value, where the operation went through.
fn gives<R: KvRows>(
    alloc: Global,
    rows: &R,
    changes: &RowTable<Change>,
    key: &Text,
    went: bool,
) -> Result<Results, Memory>
    ensures { let left = changed changes.now.now (R.rows rows.now) in IfOk result (λ o. outcome left o ≡ giving key.now (where_through went left)) }
{
    if !went {
        return Ok(None);
    }
    let results = result_of(alloc, row_of(rows, changes, key.as_str()))?;
    Ok(Some(results))
}

// No results, where the operation went through.
fn gives_nothing(alloc: Global, went: bool) -> Results
    ensures { (left : List KvRow) → outcome left result ≡ giving_nothing (where_through went left) }
{
    if !went {
        return None;
    }
    Some(List::new(alloc))
}

// The row of an absent key, as it is shown.
fn absent(alloc: Global, key: &Text) -> Result<TxnResult, Memory>
    ensures { IfOk result (λ r. r ≡ row_with_value (absent_row key.now)) }
{
    let row = KvRow {
        key: key.clone()?,
        value: Bytes::new(alloc, &[])?,
        flags: 0,
        session: None,
        lock_index: 0,
        create: 0,
        modify: 0,
    };
    let with_value = true;
    Ok(TxnResult { row, with_value })
}

// The rows with their values.
fn all_with_value(alloc: Global, table: &RowTable<KvRow>) -> Result<List<TxnResult>, Memory>
    ensures { IfOk result (λ l. l ≡ each_with_value table.now.now) }
{
    let mut results = List::new(alloc);
    for row in table.rows() {
        results.push(with_value(row)?)?;
    }
    Ok(results)
}

fn get<R: KvRows>(
    alloc: Global,
    rows: &R,
    changes: &RowTable<Change>,
    op: &TxnOp,
) -> Result<Results, Memory>
    ensures { let left = changed changes.now.now (R.rows rows.now) in IfOk result (λ o. outcome left o ≡ operate 0 0 [] Get op.now left) }
{
    let Some(row) = row_of(rows, changes, op.key.as_str()) else {
        return Ok(None);
    };
    let results = one(alloc, with_value(row)?)?;
    Ok(Some(results))
}

fn get_or_empty<R: KvRows>(
    alloc: Global,
    rows: &R,
    changes: &RowTable<Change>,
    op: &TxnOp,
) -> Result<Results, Memory>
    ensures { let left = changed changes.now.now (R.rows rows.now) in IfOk result (λ o. outcome left o ≡ operate 0 0 [] GetOrEmpty op.now left) }
{
    if let Some(row) = row_of(rows, changes, op.key.as_str()) {
        let results = one(alloc, with_value(row)?)?;
        return Ok(Some(results));
    }
    let results = one(alloc, absent(alloc, &op.key)?)?;
    Ok(Some(results))
}

fn get_tree<R: KvRows>(
    alloc: Global,
    rows: &R,
    changes: &RowTable<Change>,
    op: &TxnOp,
) -> Result<Results, Memory>
    requires { Ascends text_cmp kv_key (R.rows rows.now) }
    ensures { let left = changed changes.now.now (R.rows rows.now) in IfOk result (λ o. outcome left o ≡ operate 0 0 [] GetTree op.now left) }
{
    let table = under(alloc, rows, changes, op.key.as_str())?;
    let results = all_with_value(alloc, &table)?;
    Ok(Some(results))
}

fn check_index<R: KvRows>(
    alloc: Global,
    rows: &R,
    changes: &RowTable<Change>,
    op: &TxnOp,
) -> Result<Results, Memory>
    ensures { let left = changed changes.now.now (R.rows rows.now) in IfOk result (λ o. outcome left o ≡ operate 0 0 [] CheckIndex op.now left) }
{
    match row_of(rows, changes, op.key.as_str()) {
        None => Ok(None),
        Some(row) => gives(alloc, rows, changes, &op.key, row.modify == op.index),
    }
}

// Whether the session holds the row.
fn is_held_by(session: Option<u128>, row: Option<&KvRow>) -> bool
    ensures { result ≡ held_by session (option_copied row.entry) }
{
    match session {
        None => false,
        Some(id) => is_same_option(holder_of(row), Some(id)),
    }
}

fn check_session<R: KvRows>(
    alloc: Global,
    rows: &R,
    changes: &RowTable<Change>,
    op: &TxnOp,
) -> Result<Results, Memory>
    ensures { let left = changed changes.now.now (R.rows rows.now) in IfOk result (λ o. outcome left o ≡ operate 0 0 [] CheckSession op.now left) }
{
    let is_held = is_held_by(op.session, row_of(rows, changes, op.key.as_str()));
    gives(alloc, rows, changes, &op.key, is_held)
}

fn check_not_exists<R: KvRows>(
    alloc: Global,
    rows: &R,
    changes: &RowTable<Change>,
    op: &TxnOp,
) -> Results
    ensures { let left = changed changes.now.now (R.rows rows.now) in outcome left result ≡ operate 0 0 [] CheckNotExists op.now left }
{
    if row_of(rows, changes, op.key.as_str()).is_some() {
        return None;
    }
    Some(List::new(alloc))
}

fn set<R: KvRows>(
    alloc: Global,
    rows: &R,
    changes: &mut RowTable<Change>,
    op: &TxnOp,
    position: u64,
) -> Result<Results, Memory>
    requires { Ascends text_cmp kv_key (R.rows rows.now) }
    ensures does { IfOk result (λ o. outcome (changed changes.new.now (R.rows rows.now)) o ≡ operate (R.version rows.now) position [] ASet op.now (changed changes.old.now (R.rows rows.now))) }
    ensures written { AllWritten position changes.old.now → AllWritten position changes.new.now }
{
    writes::set(rows, changes, op, position)?;
    gives(alloc, rows, changes, &op.key, true)
}

fn cas<R: KvRows>(
    alloc: Global,
    rows: &R,
    changes: &mut RowTable<Change>,
    op: &TxnOp,
    position: u64,
) -> Result<Results, Memory>
    requires { Ascends text_cmp kv_key (R.rows rows.now) }
    ensures does { IfOk result (λ o. outcome (changed changes.new.now (R.rows rows.now)) o ≡ operate (R.version rows.now) position [] Cas op.now (changed changes.old.now (R.rows rows.now))) }
    ensures written { AllWritten position changes.old.now → AllWritten position changes.new.now }
{
    let went = writes::cas(rows, changes, op, position)?;
    gives(alloc, rows, changes, &op.key, went)
}

fn lock<R: KvRows>(
    alloc: Global,
    rows: &R,
    changes: &mut RowTable<Change>,
    op: &TxnOp,
    position: u64,
) -> Result<Results, Memory>
    requires { Ascends text_cmp kv_key (R.rows rows.now) }
    ensures does { IfOk result (λ o. outcome (changed changes.new.now (R.rows rows.now)) o ≡ operate (R.version rows.now) position (R.sessions rows.now) Lock op.now (changed changes.old.now (R.rows rows.now))) }
    ensures written { AllWritten position changes.old.now → AllWritten position changes.new.now }
{
    let Some(id) = op.session else {
        return Ok(None);
    };
    if !rows.session_known(id) {
        return Ok(None);
    }
    let went = writes::lock(rows, changes, op, position, id)?;
    gives(alloc, rows, changes, &op.key, went)
}

fn unlock<R: KvRows>(
    alloc: Global,
    rows: &R,
    changes: &mut RowTable<Change>,
    op: &TxnOp,
    position: u64,
) -> Result<Results, Memory>
    requires { Ascends text_cmp kv_key (R.rows rows.now) }
    ensures does { IfOk result (λ o. outcome (changed changes.new.now (R.rows rows.now)) o ≡ operate (R.version rows.now) position [] Unlock op.now (changed changes.old.now (R.rows rows.now))) }
    ensures written { AllWritten position changes.old.now → AllWritten position changes.new.now }
{
    let Some(id) = op.session else {
        return Ok(None);
    };
    let went = writes::unlock(rows, changes, op, position, id)?;
    gives(alloc, rows, changes, &op.key, went)
}

fn delete<R: KvRows>(
    alloc: Global,
    rows: &R,
    changes: &mut RowTable<Change>,
    op: &TxnOp,
) -> Result<Results, Memory>
    requires { Ascends text_cmp kv_key (R.rows rows.now) }
    ensures does { IfOk result (λ o. outcome (changed changes.new.now (R.rows rows.now)) o ≡ operate 0 0 [] Delete op.now (changed changes.old.now (R.rows rows.now))) }
    ensures written { (i : ℕ) → AllWritten i changes.old.now → AllWritten i changes.new.now }
{
    writes::delete(rows, changes, &op.key)?;
    Ok(Some(List::new(alloc)))
}

fn delete_tree<R: KvRows>(
    alloc: Global,
    rows: &R,
    changes: &mut RowTable<Change>,
    op: &TxnOp,
) -> Result<Results, Memory>
    requires { Ascends text_cmp kv_key (R.rows rows.now) }
    ensures does { IfOk result (λ o. outcome (changed changes.new.now (R.rows rows.now)) o ≡ operate 0 0 [] DeleteTree op.now (changed changes.old.now (R.rows rows.now))) }
    ensures written { (i : ℕ) → AllWritten i changes.old.now → AllWritten i changes.new.now }
{
    remove_under(alloc, rows, changes, op.key.as_str())?;
    Ok(Some(List::new(alloc)))
}

fn delete_cas<R: KvRows>(
    alloc: Global,
    rows: &R,
    changes: &mut RowTable<Change>,
    op: &TxnOp,
) -> Result<Results, Memory>
    requires { Ascends text_cmp kv_key (R.rows rows.now) }
    ensures does { IfOk result (λ o. outcome (changed changes.new.now (R.rows rows.now)) o ≡ operate 0 0 [] DeleteCas op.now (changed changes.old.now (R.rows rows.now))) }
    ensures written { (i : ℕ) → AllWritten i changes.old.now → AllWritten i changes.new.now }
{
    let went = writes::delete_cas(rows, changes, op)?;
    Ok(gives_nothing(alloc, went))
}

/// Does an operation at the position. It gives the results, or none where it fails.
pub(crate) fn operate<R: KvRows>(
    alloc: Global,
    rows: &R,
    changes: &mut RowTable<Change>,
    op: &TxnOp,
    position: u64,
) -> Result<Results, Memory>
    requires { Ascends text_cmp kv_key (R.rows rows.now) }
    ensures does { IfOk result (λ o. outcome (changed changes.new.now (R.rows rows.now)) o ≡ operate (R.version rows.now) position (R.sessions rows.now) op.now.verb op.now (changed changes.old.now (R.rows rows.now))) }
    ensures written { AllWritten position changes.old.now → AllWritten position changes.new.now }
{
    match op.verb {
        Verb::Set => set(alloc, rows, changes, op, position),
        Verb::Cas => cas(alloc, rows, changes, op, position),
        Verb::Lock => lock(alloc, rows, changes, op, position),
        Verb::Unlock => unlock(alloc, rows, changes, op, position),
        Verb::Get => get(alloc, rows, changes, op),
        Verb::GetOrEmpty => get_or_empty(alloc, rows, changes, op),
        Verb::GetTree => get_tree(alloc, rows, changes, op),
        Verb::CheckIndex => check_index(alloc, rows, changes, op),
        Verb::CheckSession => check_session(alloc, rows, changes, op),
        Verb::CheckNotExists => Ok(check_not_exists(alloc, rows, changes, op)),
        Verb::Delete => delete(alloc, rows, changes, op),
        Verb::DeleteTree => delete_tree(alloc, rows, changes, op),
        Verb::DeleteCas => delete_cas(alloc, rows, changes, op),
    }
}
