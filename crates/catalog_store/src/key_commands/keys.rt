//! The commands on keys, with the channels that they fire.

ghost use Rattle.std.specs.Prelude.{◌≡◌, [], ◌∷◌, Bool, true, false, if◌then◌else◌, not, List, None, Some, IfOk, OnOk, is_some, map};
ghost use Rattle.std.specs.Option.{option_copied};
ghost use Rattle.cat_model.specs.Keys.{text_cmp, same_option};
ghost use Rattle.cat_model.specs.Tables.{Ascends};
ghost use Rattle.cat_model.specs.Catalog.{kv_at, kv_key};
ghost use Rattle.cat_model.specs.Same.{alike_kv};
ghost use Rattle.cat_model.specs.Kv.{holder, locks, written, changes_nothing, write_kv, index_fits, kv_set, kv_delete, kv_delete_tree};
ghost use Rattle.cat_model.specs.declared.row.KvRow.{KvRow};
ghost use Rattle.cat_model.specs.declared.row.SessionRow.{SessionRow};
ghost use Rattle.cat_model.specs.declared.command.Command.TheVariants.{Noop, KvSet, KvCas, KvDelete, KvDeleteCas, KvDeleteTree, Reap};
ghost use Rattle.kv_table.specs.States.{SameTombs, SetsRow};
ghost use Rattle.catalog_store.specs.Steps.{Earlier, Moves, KeyStep, PlainStep, Buries, BuriesEach, is_refused};

use cat_model::{Applied, Bytes, Chan, KvRow, List, Memory, Text};
use kv_table::KvTable;
use std::alloc::Global;

/// What is written of a key at a position of the log, by the machine of this version.
#[derive(Clone, Copy)]
pub(crate) struct Writing<'a> {
    pub(crate) version: u32,
    pub(crate) position: u64,
    pub(crate) key: &'a Text,
    pub(crate) value: &'a Bytes,
    pub(crate) flags: u64,
}

/// Who holds a key, and how often it was acquired.
#[derive(Clone, Copy)]
pub(crate) struct Lock {
    pub(crate) session: Option<u128>,
    pub(crate) index: u64,
}

// The channel of a key.
fn chan_of(alloc: Global, key: &Text) -> Result<List<Chan>, Memory>
    ensures { IfOk result (λ l. l ≡ Chan.Key key.now ∷ []) }
{
    let mut chans = List::new(alloc);
    chans.push(Chan::Key(key.clone()?))?;
    Ok(chans)
}

/// The lock of a row. One that is not there was never acquired.
pub(crate) fn lock_of(row: Option<&KvRow>) -> Lock
    ensures session { result.session ≡ holder (option_copied row.entry) }
    ensures index { result.index ≡ locks (option_copied row.entry) }
{
    match row {
        None => Lock {
            session: None,
            index: 0,
        },
        Some(old) => Lock {
            session: old.session,
            index: old.lock_index,
        },
    }
}

/// The lock of the key.
pub(crate) fn lock_at(table: &KvTable, key: &Text) -> Lock
    ensures session { result.session ≡ holder (kv_at key.now table.now.now.rows) }
    ensures index { result.index ≡ locks (kv_at key.now table.now.now.rows) }
{
    lock_of(table.get(key.as_str()))
}

// The row that the write makes. A row that was there keeps its `create`.
fn row_of(w: &Writing, lock: Lock, old: Option<&KvRow>) -> Result<KvRow, Memory>
    ensures { IfOk result (λ r. r ≡ written w.now.position w.now.key.now w.now.value.now w.now.flags lock.session lock.index (option_copied old.entry)) }
{
    let create = match old {
        Some(row) => row.create,
        None => w.position,
    };
    Ok(KvRow {
        key: w.key.clone()?,
        value: w.value.clone()?,
        flags: w.flags,
        session: lock.session,
        lock_index: lock.index,
        create,
        modify: w.position,
    })
}

/// Whether both hold it, or nobody does.
pub(crate) fn is_same_holder(a: Option<u128>, b: Option<u128>) -> bool
    ensures { result ≡ same_option a b }
{
    match (a, b) {
        (None, None) => true,
        (Some(a), Some(b)) => a == b,
        _ => false,
    }
}

// Whether the row has all that the write gives it.
fn is_alike(w: &Writing, lock: Lock, row: &KvRow) -> bool
    ensures { result ≡ alike_kv row.now (written w.now.position w.now.key.now w.now.value.now w.now.flags lock.session lock.index (Some row.now)) }
{
    row.key.as_str() == w.key.as_str()
        && row.value.as_slice() == w.value.as_slice()
        && row.flags == w.flags
        && is_same_holder(row.session, lock.session)
        && row.lock_index == lock.index
}

// Whether the write leaves the row as it was.
fn changes_nothing(w: &Writing, lock: Lock, old: Option<&KvRow>) -> bool
    ensures { let was = option_copied old.entry in result ≡ changes_nothing w.now.version (written w.now.position w.now.key.now w.now.value.now w.now.flags lock.session lock.index was) was }
{
    match old {
        None => false,
        Some(row) => w.version >= 2 && is_alike(w, lock, row),
    }
}

// The row that the write puts into the table, or none where it changes nothing.
fn change_of(table: &KvTable, w: &Writing, lock: Lock) -> Result<Option<KvRow>, Memory>
    ensures { let old = kv_at w.now.key.now table.now.now.rows in let new = written w.now.position w.now.key.now w.now.value.now w.now.flags lock.session lock.index old in IfOk result (λ o. o ≡ (if changes_nothing w.now.version new old then None else Some new)) }
{
    let old = table.get(w.key.as_str());
    if changes_nothing(w, lock, old) {
        return Ok(None);
    }
    Ok(Some(row_of(w, lock, old)?))
}

// Puts the row into the table. Its key's channel fires.
fn put_row(alloc: Global, table: &mut KvTable, row: KvRow) -> Result<List<Chan>, Memory>
    ensures row { OnOk result (SetsRow row table.old table.new) }
    ensures chans { IfOk result (λ chans. chans ≡ Chan.Key row.key ∷ []) }
    ensures before { table.new.before ≡ table.old.before }
{
    let chans = chan_of(alloc, &row.key)?;
    match table.set(row) {
        Ok(()) => Ok(chans),
        Err((_, memory)) => Err(memory),
    }
}

/// Writes the key, with this lock.
pub(crate) fn put(
    alloc: Global,
    table: &mut KvTable,
    w: &Writing,
    lock: Lock,
) -> Result<List<Chan>, Memory>
    requires { Earlier w.now.position table.old.now.rows }
    ensures rows { OnOk result (table.new.now.rows ≡ write_kv w.now.version w.now.position w.now.key.now w.now.value.now w.now.flags lock.session lock.index table.old.now.rows) }
    ensures moves { IfOk result (λ chans. Moves w.now.position table.old table.new chans) }
    ensures before { table.new.before ≡ table.old.before }
{
    match change_of(table, w, lock)? {
        None => Ok(List::new(alloc)),
        Some(row) => put_row(alloc, table, row),
    }
}

/// Writes the key, whose lock stays.
#[tactic(auto, unfolding(cat_model::specs::Kv::kv_set))]
pub(crate) fn set(alloc: Global, table: &mut KvTable, w: &Writing) -> Result<List<Chan>, Memory>
    requires { Earlier w.now.position table.old.now.rows }
    ensures rows { OnOk result (table.new.now.rows ≡ kv_set w.now.version w.now.position w.now.key.now w.now.value.now w.now.flags table.old.now.rows) }
    ensures moves { IfOk result (λ chans. Moves w.now.position table.old table.new chans) }
    ensures before { table.new.before ≡ table.old.before }
{
    let lock = lock_at(table, w.key);
    put(alloc, table, w, lock)
}

// Whether a check-and-set at this index goes through: 0 wants no row, another one the row last written there.
fn fits(index: u64, row: Option<&KvRow>) -> bool
    ensures { result ≡ index_fits index (option_copied row.entry) }
{
    match row {
        None => index == 0,
        Some(old) => index != 0 && old.modify == index,
    }
}

// Whether a check-and-set of the key at this index goes through.
fn can_set(table: &KvTable, key: &Text, index: u64) -> bool
    ensures { result ≡ index_fits index (kv_at key.now table.now.now.rows) }
{
    fits(index, table.get(key.as_str()))
}

/// Removes the key's row, and marks that it was removed.
pub(crate) fn bury(table: &mut KvTable, position: u64, key: &Text) -> Result<(), Memory>
    ensures ok { OnOk result (Buries key.now position table.old table.new) }
    ensures before { table.new.before ≡ table.old.before }
{
    table.remove(key.as_str())?;
    table.tombstone(key.clone()?, position)
}

// Whether the key has no row.
fn is_absent(table: &KvTable, key: &Text) -> bool
    ensures absent { result ≡ not (is_some (kv_at key.now table.now.now.rows)) }
    ensures order { Ascends text_cmp kv_key table.now.now.rows }
{
    table.get(key.as_str()).is_none()
}

// Removes the key, where it is there.
fn delete(
    alloc: Global,
    table: &mut KvTable,
    position: u64,
    key: &Text,
) -> Result<List<Chan>, Memory>
    ensures rows { OnOk result (table.new.now.rows ≡ kv_delete key.now table.old.now.rows) }
    ensures moves { IfOk result (λ chans. Moves position table.old table.new chans) }
    ensures before { table.new.before ≡ table.old.before }
{
    if is_absent(table, key) {
        return Ok(List::new(alloc));
    }
    let chans = chan_of(alloc, key)?;
    bury(table, position, key)?;
    Ok(chans)
}

// Whether a check-and-delete at this index leaves the row there.
fn is_kept(index: u64, row: Option<&KvRow>) -> bool
    ensures { result ≡ is_refused index (option_copied row.entry) }
{
    row.is_some() && !fits(index, row)
}

// Whether a check-and-delete of the key at this index is refused.
fn is_held(table: &KvTable, key: &Text, index: u64) -> bool
    ensures { result ≡ is_refused index (kv_at key.now table.now.now.rows) }
{
    is_kept(index, table.get(key.as_str()))
}

/// Writes the key.
pub(crate) fn write(
    alloc: Global,
    table: &mut KvTable,
    w: &Writing,
) -> Result<(Applied, List<Chan>), Memory>
    requires { Earlier w.now.position table.old.now.rows }
    ensures step { IfOk result (λ d. (sessions : List SessionRow) → KeyStep w.now.version sessions w.now.position (KvSet w.now.key.now w.now.flags w.now.value.now) table.old table.new d.0 d.1) }
    ensures before { table.new.before ≡ table.old.before }
{
    let chans = set(alloc, table, w)?;
    Ok((Applied::Yes, chans))
}

/// Writes the key, where its row was last written at the index, or is absent for an index of 0.
pub(crate) fn check_and_set(
    alloc: Global,
    table: &mut KvTable,
    w: &Writing,
    index: u64,
) -> Result<(Applied, List<Chan>), Memory>
    requires { Earlier w.now.position table.old.now.rows }
    ensures step { IfOk result (λ d. (sessions : List SessionRow) → KeyStep w.now.version sessions w.now.position (KvCas w.now.key.now w.now.flags w.now.value.now index) table.old table.new d.0 d.1) }
    ensures before { table.new.before ≡ table.old.before }
{
    if !can_set(table, w.key, index) {
        return Ok((Applied::No, List::new(alloc)));
    }
    let chans = set(alloc, table, w)?;
    Ok((Applied::Yes, chans))
}

/// Removes the key.
pub(crate) fn remove(
    alloc: Global,
    table: &mut KvTable,
    position: u64,
    key: &Text,
) -> Result<(Applied, List<Chan>), Memory>
    ensures step { IfOk result (λ d. PlainStep position (KvDelete key.now) table.old table.new d.0 d.1) }
    ensures before { table.new.before ≡ table.old.before }
{
    let chans = delete(alloc, table, position, key)?;
    Ok((Applied::Yes, chans))
}

/// Removes the key, where its row was last written at the index. An absent key is no failure.
pub(crate) fn check_and_remove(
    alloc: Global,
    table: &mut KvTable,
    position: u64,
    key: &Text,
    index: u64,
) -> Result<(Applied, List<Chan>), Memory>
    ensures step { IfOk result (λ d. PlainStep position (KvDeleteCas key.now index) table.old table.new d.0 d.1) }
    ensures before { table.new.before ≡ table.old.before }
{
    if is_held(table, key, index) {
        return Ok((Applied::No, List::new(alloc)));
    }
    let chans = delete(alloc, table, position, key)?;
    Ok((Applied::Yes, chans))
}

// Removes the rows of these keys.
fn bury_each(table: &mut KvTable, position: u64, keys: &[Text]) -> Result<(), Memory>
    ensures ok { OnOk result (BuriesEach keys.now position table.old table.new) }
    ensures before { table.new.before ≡ table.old.before }
{
    for key in keys {
        bury(table, position, key)?;
    }
    Ok(())
}

// The channels of these keys.
fn chans_of(alloc: Global, keys: &[Text]) -> Result<List<Chan>, Memory>
    ensures { IfOk result (λ l. l ≡ map (λ key. Chan.Key key) keys.now) }
{
    let mut chans = List::new(alloc);
    for key in keys {
        let chan = Chan::Key(key.clone()?);
        chans.push(chan)?;
    }
    Ok(chans)
}

/// Removes the keys that begin with the prefix.
pub(crate) fn remove_tree(
    alloc: Global,
    table: &mut KvTable,
    position: u64,
    prefix: &Text,
) -> Result<(Applied, List<Chan>), Memory>
    ensures step { IfOk result (λ d. PlainStep position (KvDeleteTree prefix.now) table.old table.new d.0 d.1) }
    ensures before { table.new.before ≡ table.old.before }
{
    let keys = table.names(alloc, prefix.as_str())?;
    let chans = chans_of(alloc, keys.as_slice())?;
    bury_each(table, position, keys.as_slice())?;
    Ok((Applied::Yes, chans))
}

/// Forgets at which positions keys were removed.
pub(crate) fn reap(
    alloc: Global,
    table: &mut KvTable,
    position: u64,
) -> Result<(Applied, List<Chan>), Memory>
    ensures step { IfOk result (λ d. PlainStep position Reap table.old table.new d.0 d.1) }
    ensures before { table.new.before ≡ table.old.before }
{
    let mut chans = List::new(alloc);
    chans.push(Chan::Reaped)?;
    table.reap(position);
    Ok((Applied::Done, chans))
}
