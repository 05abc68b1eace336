//! The operations that write, on the rows as the operations before left them.

ghost use Rattle.std.specs.Prelude.{◌≡◌, ℕ, ◌+◌, true, IfOk, OnOk, Some};
ghost use Rattle.std.specs.Option.{option_copied};
ghost use Rattle.cat_model.specs.Keys.{text_cmp, same_option};
ghost use Rattle.cat_model.specs.Tables.{Ascends};
ghost use Rattle.cat_model.specs.Same.{alike_kv};
ghost use Rattle.cat_model.specs.Catalog.{kv_at, kv_key};
ghost use Rattle.cat_model.specs.Kv.{holder, locks, written, changes_nothing, write_kv, index_fits, kv_set, kv_cas, kv_lock, kv_unlock, kv_delete, kv_delete_cas};
ghost use Rattle.txn_engine.specs.Changes.{changed, AllWritten};
ghost use Rattle.txn_engine.specs.Outcomes.{where_through};

use crate::Change;
use crate::overlay::{note, row_of};
use cat_model::{KvRow, KvRows, Memory, Text, TxnOp};
use row_table::RowTable;

/// Who holds a row, and its lock index.
#[derive(Clone, Copy)]
struct Hold {
    session: Option<u128>,
    lock_index: u64,
}

/// Who holds the row.
pub(crate) fn holder_of(row: Option<&KvRow>) -> Option<u128>
    ensures { result ≡ holder (option_copied row.entry) }
{
    row.and_then(|r| r.session)
}

// The lock index of a row, 0 where there is none.
fn locks_of(row: Option<&KvRow>) -> u64
    ensures { result ≡ locks (option_copied row.entry) }
{
    row.map_or(0, |r| r.lock_index)
}

/// Whether both are absent, or equal.
pub(crate) fn is_same_option(a: Option<u128>, b: Option<u128>) -> bool
    ensures { result ≡ same_option a b }
{
    match (a, b) {
        (None, None) => true,
        (Some(a), Some(b)) => a == b,
        _ => false,
    }
}

// The row that a write of the operation's value and flags makes of the one that was there.
fn written_row(op: &TxnOp, position: u64, hold: Hold, old: Option<&KvRow>) -> Result<KvRow, Memory>
    ensures row { IfOk result (λ r. r ≡ written position op.now.key op.now.value op.now.flags hold.session hold.lock_index (option_copied old.entry)) }
    ensures at { IfOk result (λ r. r.modify ≡ position) }
{
    let create = match old {
        Some(row) => row.create,
        None => position,
    };
    Ok(KvRow {
        key: op.key.clone()?,
        value: op.value.clone()?,
        flags: op.flags,
        session: hold.session,
        lock_index: hold.lock_index,
        create,
        modify: position,
    })
}

// Whether the rows are equal in all but the positions at which they were made and written.
fn are_alike(a: &KvRow, b: &KvRow) -> bool
    ensures { result ≡ alike_kv a.now b.now }
{
    a.key.as_str() == b.key.as_str()
        && a.value.as_slice() == b.value.as_slice()
        && a.flags == b.flags
        && is_same_option(a.session, b.session)
        && a.lock_index == b.lock_index
}

// Whether the write changes nothing, so that from version 2 on the row stays as it was.
fn leaves_it(version: u32, new: &KvRow, old: Option<&KvRow>) -> bool
    ensures { result ≡ changes_nothing version new.now (option_copied old.entry) }
{
    match old {
        None => false,
        Some(row) => version >= 2 && are_alike(row, new),
    }
}

// Writes value and flags of a key, with this holder and lock index.
#[tactic(auto, unfolding(cat_model::specs::Kv::write_kv))]
fn write<R: KvRows>(
    rows: &R,
    changes: &mut RowTable<Change>,
    op: &TxnOp,
    position: u64,
    hold: Hold,
) -> Result<(), Memory>
    requires { Ascends text_cmp kv_key (R.rows rows.now) }
    ensures rows { OnOk result (changed changes.new.now (R.rows rows.now) ≡ write_kv (R.version rows.now) position op.now.key op.now.value op.now.flags hold.session hold.lock_index (changed changes.old.now (R.rows rows.now))) }
    ensures written { AllWritten position changes.old.now → AllWritten position changes.new.now }
{
    let old = row_of(rows, changes, op.key.as_str());
    let new = written_row(op, position, hold, old)?;
    if leaves_it(rows.version(), &new, old) {
        return Ok(());
    }
    note(rows, changes, Change::Put(new))
}

// The holder and the lock index that the key has.
fn hold_of<R: KvRows>(rows: &R, changes: &RowTable<Change>, key: &str) -> Hold
    ensures holder { result.session ≡ holder (kv_at key.now (changed changes.now.now (R.rows rows.now))) }
    ensures locks { result.lock_index ≡ locks (kv_at key.now (changed changes.now.now (R.rows rows.now))) }
{
    let row = row_of(rows, changes, key);
    Hold {
        session: holder_of(row),
        lock_index: locks_of(row),
    }
}

/// Writes the key, which keeps its holder.
#[tactic(auto, unfolding(cat_model::specs::Kv::kv_set))]
pub(crate) fn set<R: KvRows>(
    rows: &R,
    changes: &mut RowTable<Change>,
    op: &TxnOp,
    position: u64,
) -> Result<(), Memory>
    requires { Ascends text_cmp kv_key (R.rows rows.now) }
    ensures rows { OnOk result (changed changes.new.now (R.rows rows.now) ≡ kv_set (R.version rows.now) position op.now.key op.now.value op.now.flags (changed changes.old.now (R.rows rows.now))) }
    ensures written { AllWritten position changes.old.now → AllWritten position changes.new.now }
{
    let hold = hold_of(rows, changes, op.key.as_str());
    write(rows, changes, op, position, hold)
}

// Whether a check-and-set at this index goes through: 0 wants no row, another one the row last written there.
fn fits(index: u64, row: Option<&KvRow>) -> bool
    ensures { result ≡ index_fits index (option_copied row.entry) }
{
    match row {
        None => index == 0,
        Some(old) => index != 0 && old.modify == index,
    }
}

/// Writes the key, where its row was last written at the operation's index, or is absent for an index of 0. Tells whether
/// it did.
#[tactic(auto, unfolding(cat_model::specs::Kv::kv_cas))]
pub(crate) fn cas<R: KvRows>(
    rows: &R,
    changes: &mut RowTable<Change>,
    op: &TxnOp,
    position: u64,
) -> Result<bool, Memory>
    requires { Ascends text_cmp kv_key (R.rows rows.now) }
    ensures rows { IfOk result (λ b. where_through b (changed changes.new.now (R.rows rows.now)) ≡ kv_cas (R.version rows.now) position op.now.key op.now.value op.now.flags op.now.index (changed changes.old.now (R.rows rows.now))) }
    ensures written { AllWritten position changes.old.now → AllWritten position changes.new.now }
{
    let row = row_of(rows, changes, op.key.as_str());
    if !fits(op.index, row) {
        return Ok(false);
    }
    set(rows, changes, op, position)?;
    Ok(true)
}

// The lock index of a key that is acquired once more. That is at most `u64::MAX` times, and then never again for lack of
// memory.
fn once_more(lock_index: u64) -> Result<u64, Memory>
    ensures { IfOk result (λ more. more ≡ lock_index + 1) }
{
    match lock_index.checked_add(1) {
        Some(more) => Ok(more),
        None => Err(Memory),
    }
}

/// Writes the key, and the session acquires its lock or keeps it. Not where another session holds it. Tells whether it did.
#[tactic(auto, unfolding(cat_model::specs::Kv::kv_lock))]
pub(crate) fn lock<R: KvRows>(
    rows: &R,
    changes: &mut RowTable<Change>,
    op: &TxnOp,
    position: u64,
    id: u128,
) -> Result<bool, Memory>
    requires { Ascends text_cmp kv_key (R.rows rows.now) }
    ensures rows { IfOk result (λ b. where_through b (changed changes.new.now (R.rows rows.now)) ≡ kv_lock (R.version rows.now) position op.now.key op.now.value op.now.flags id (changed changes.old.now (R.rows rows.now))) }
    ensures written { AllWritten position changes.old.now → AllWritten position changes.new.now }
{
    let held = hold_of(rows, changes, op.key.as_str());
    let is_free = is_same_option(held.session, None);
    if !is_free && !is_same_option(held.session, Some(id)) {
        return Ok(false);
    }
    let lock_index = if is_free {
        once_more(held.lock_index)?
    } else {
        held.lock_index
    };
    let session = Some(id);
    write(
        rows,
        changes,
        op,
        position,
        Hold {
            session,
            lock_index,
        },
    )?;
    Ok(true)
}

/// Writes the key and releases its lock, where the session holds it. Tells whether it did.
#[tactic(auto, unfolding(cat_model::specs::Kv::kv_unlock))]
pub(crate) fn unlock<R: KvRows>(
    rows: &R,
    changes: &mut RowTable<Change>,
    op: &TxnOp,
    position: u64,
    id: u128,
) -> Result<bool, Memory>
    requires { Ascends text_cmp kv_key (R.rows rows.now) }
    ensures rows { IfOk result (λ b. where_through b (changed changes.new.now (R.rows rows.now)) ≡ kv_unlock (R.version rows.now) position op.now.key op.now.value op.now.flags id (changed changes.old.now (R.rows rows.now))) }
    ensures written { AllWritten position changes.old.now → AllWritten position changes.new.now }
{
    let held = hold_of(rows, changes, op.key.as_str());
    if !is_same_option(held.session, Some(id)) {
        return Ok(false);
    }
    let released = Hold {
        session: None,
        lock_index: held.lock_index,
    };
    write(rows, changes, op, position, released)?;
    Ok(true)
}

/// Removes the key, where it is there.
pub(crate) fn delete<R: KvRows>(
    rows: &R,
    changes: &mut RowTable<Change>,
    key: &Text,
) -> Result<(), Memory>
    requires { Ascends text_cmp kv_key (R.rows rows.now) }
    ensures rows { OnOk result (changed changes.new.now (R.rows rows.now) ≡ kv_delete key.now (changed changes.old.now (R.rows rows.now))) }
    ensures written { (i : ℕ) → AllWritten i changes.old.now → AllWritten i changes.new.now }
{
    note(rows, changes, Change::Removed(key.clone()?))
}

/// Removes the key, where its row was last written at the operation's index. An absent key is no failure. Tells whether
/// it went through.
#[tactic(auto, unfolding(cat_model::specs::Kv::kv_delete_cas))]
pub(crate) fn delete_cas<R: KvRows>(
    rows: &R,
    changes: &mut RowTable<Change>,
    op: &TxnOp,
) -> Result<bool, Memory>
    requires { Ascends text_cmp kv_key (R.rows rows.now) }
    ensures rows { IfOk result (λ b. where_through b (changed changes.new.now (R.rows rows.now)) ≡ kv_delete_cas op.now.key op.now.index (changed changes.old.now (R.rows rows.now))) }
    ensures written { (i : ℕ) → AllWritten i changes.old.now → AllWritten i changes.new.now }
{
    let row = row_of(rows, changes, op.key.as_str());
    if row.is_none() {
        return Ok(true);
    }
    if !fits(op.index, row) {
        return Ok(false);
    }
    delete(rows, changes, &op.key)?;
    Ok(true)
}
