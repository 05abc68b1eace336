//! The commands on keys, each with its answer and the channels that it fires.

ghost use Rattle.std.specs.Prelude.{◌≡◌, true, IfOk, List};
ghost use Rattle.cat_model.specs.declared.row.SessionRow.{SessionRow};
ghost use Rattle.catalog_store.specs.Steps.{is_on_keys, is_write, Tells, Earlier, KeyStep};

use crate::key_commands::keys::{
    Writing, check_and_remove, check_and_set, reap, remove, remove_tree, write,
};
use crate::key_commands::locks::{acquire, release};
use cat_model::{Applied, Bytes, Chan, Command, List, Memory, Text};
use kv_table::KvTable;
use std::alloc::Global;

// What a command writes.
fn writing<'a>(
    version: u32,
    position: u64,
    key: &'a Text,
    flags: u64,
    value: &'a Bytes,
) -> Writing<'a>
    ensures at { (result.version ≡ version) × (result.position ≡ position) }
    ensures row { (result.key.now ≡ key.now) × (result.flags ≡ flags) × (result.value.now ≡ value.now) }
{
    Writing {
        version,
        position,
        key,
        value,
        flags,
    }
}

// Applies a command that writes a key.
fn apply_write(
    alloc: Global,
    table: &mut KvTable,
    version: u32,
    position: u64,
    session_known: bool,
    command: &Command,
) -> Result<(Applied, List<Chan>), Memory>
    requires earlier { Earlier position table.old.now.rows }
    requires kind { is_write command.now ≡ true }
    ensures step { IfOk result (λ d. (sessions : List SessionRow) → Tells session_known command.now sessions → KeyStep version sessions position command.now table.old table.new d.0 d.1) }
    ensures before { table.new.before ≡ table.old.before }
{
    match command {
        Command::KvSet { key, flags, value } => {
            let w = writing(version, position, key, *flags, value);
            write(alloc, table, &w)
        }
        Command::KvCas {
            key,
            flags,
            value,
            index,
        } => {
            let w = writing(version, position, key, *flags, value);
            check_and_set(alloc, table, &w, *index)
        }
        Command::KvLock {
            key,
            flags,
            value,
            session,
        } => {
            let w = writing(version, position, key, *flags, value);
            acquire(alloc, table, &w, *session, session_known)
        }
        Command::KvUnlock {
            key,
            flags,
            value,
            session,
        } => {
            let w = writing(version, position, key, *flags, value);
            release(alloc, table, &w, *session)
        }
        _ => unreachable!(),
    }
}

/// Applies a command on keys, a Noop or a Reap, by the machine of this version. For a KvLock it is told whether its
/// session is there.
pub fn apply(
    alloc: Global,
    table: &mut KvTable,
    version: u32,
    position: u64,
    session_known: bool,
    command: &Command,
) -> Result<(Applied, List<Chan>), Memory>
    requires earlier { Earlier position table.old.now.rows }
    requires kind { is_on_keys command.now ≡ true }
    ensures step { IfOk result (λ d. (sessions : List SessionRow) → Tells session_known command.now sessions → KeyStep version sessions position command.now table.old table.new d.0 d.1) }
    ensures before { table.new.before ≡ table.old.before }
{
    match command {
        Command::Noop => Ok((Applied::Done, List::new(alloc))),
        Command::KvDelete { key } => remove(alloc, table, position, key),
        Command::KvDeleteCas { key, index } => {
            check_and_remove(alloc, table, position, key, *index)
        }
        Command::KvDeleteTree { prefix } => remove_tree(alloc, table, position, prefix),
        Command::Reap => reap(alloc, table, position),
        _ => apply_write(alloc, table, version, position, session_known, command),
    }
}
