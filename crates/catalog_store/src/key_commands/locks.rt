//! Locks on keys: a session acquires one, and releases it.

ghost use Rattle.std.specs.Prelude.{◌≡◌, IfOk, List};
ghost use Rattle.std.specs.Option.{option_copied};
ghost use Rattle.cat_model.specs.Catalog.{kv_at};
ghost use Rattle.cat_model.specs.declared.row.SessionRow.{SessionRow};
ghost use Rattle.cat_model.specs.declared.command.Command.TheVariants.{KvLock, KvUnlock};
ghost use Rattle.catalog_store.specs.Steps.{acquired, Earlier, KeyStep, Tells};

use crate::key_commands::keys::{Lock, Writing, is_same_holder, lock_at, lock_of, put};
use cat_model::{Applied, Chan, KvRow, List, Memory, Refuse, Text};
use kv_table::KvTable;
use std::alloc::Global;

// The lock index of the row once the session holds it, or none where another one does. A row is acquired at most
// `u64::MAX` times, and then never again for lack of memory.
fn acquired(row: Option<&KvRow>, session: u128) -> Result<Option<u64>, Memory>
    ensures { IfOk result (λ o. o ≡ acquired session (option_copied row.entry)) }
{
    let lock = lock_of(row);
    if is_same_holder(lock.session, None) {
        let Some(more) = lock.index.checked_add(1) else {
            return Err(Memory);
        };
        return Ok(Some(more));
    }
    if is_same_holder(lock.session, Some(session)) {
        return Ok(Some(lock.index));
    }
    Ok(None)
}

// The lock index of the key once the session holds it, or none where another one does.
fn acquired_at(table: &KvTable, key: &Text, session: u128) -> Result<Option<u64>, Memory>
    ensures { IfOk result (λ o. o ≡ acquired session (kv_at key.now table.now.now.rows)) }
{
    acquired(table.get(key.as_str()), session)
}

/// Writes the key and acquires its lock, where no other session holds it. The session is to be there.
pub(crate) fn acquire(
    alloc: Global,
    table: &mut KvTable,
    w: &Writing,
    session: u128,
    known: bool,
) -> Result<(Applied, List<Chan>), Memory>
    requires { Earlier w.now.position table.old.now.rows }
    ensures step { let c = KvLock w.now.key.now w.now.flags w.now.value.now session in IfOk result (λ d. (sessions : List SessionRow) → Tells known c sessions → KeyStep w.now.version sessions w.now.position c table.old table.new d.0 d.1) }
    ensures before { table.new.before ≡ table.old.before }
{
    if !known {
        let refusal = Applied::Refused(Refuse::UnknownSession);
        return Ok((refusal, List::new(alloc)));
    }
    let Some(index) = acquired_at(table, w.key, session)? else {
        return Ok((Applied::No, List::new(alloc)));
    };
    let lock = Lock {
        session: Some(session),
        index,
    };
    let chans = put(alloc, table, w, lock)?;
    Ok((Applied::Yes, chans))
}

/// Writes the key and releases its lock, where the session holds it.
pub(crate) fn release(
    alloc: Global,
    table: &mut KvTable,
    w: &Writing,
    session: u128,
) -> Result<(Applied, List<Chan>), Memory>
    requires { Earlier w.now.position table.old.now.rows }
    ensures step { IfOk result (λ d. (sessions : List SessionRow) → KeyStep w.now.version sessions w.now.position (KvUnlock w.now.key.now w.now.flags w.now.value.now session) table.old table.new d.0 d.1) }
    ensures before { table.new.before ≡ table.old.before }
{
    let held = lock_at(table, w.key);
    if !is_same_holder(held.session, Some(session)) {
        return Ok((Applied::No, List::new(alloc)));
    }
    let lock = Lock {
        session: None,
        index: held.index,
    };
    let chans = put(alloc, table, w, lock)?;
    Ok((Applied::Yes, chans))
}
