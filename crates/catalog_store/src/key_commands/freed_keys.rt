//! Sessions that end free the keys that they held.

ghost use Rattle.std.specs.Prelude.{◌≡◌, ◌∷◌, [], IfOk, OnOk, map};
ghost use Rattle.std.specs.Ordering.{nat_cmp};
ghost use Rattle.std.proofs.lemmas.Cmp.{nat_list_cmp_total};
ghost use Rattle.std.proofs.lemmas.Map.Lookups.{exact_bytes};
ghost use Rattle.cat_model.specs.Keys.{text_cmp};
ghost use Rattle.cat_model.specs.Tables.{put, Ascends};
ghost use Rattle.cat_model.specs.Catalog.{kv_at, kv_key, session_key};
ghost use Rattle.cat_model.specs.declared.query.Chan.TheVariants.{Key};
ghost use Rattle.kv_table.specs.States.{SetsRow};
ghost use Rattle.catalog_store.specs.Steps.{Moves};
ghost use Rattle.catalog_store.specs.Freeing.{freed_holding, freed_rows, freed_keys, holding, holding_key, holdings, released, Notes, NotesOf, Releases, Frees};

use crate::key_commands::keys::bury;
use cat_model::{Behavior, Freed, KvRow, List, Memory, SessionRow, Text};
use kv_table::KvTable;
use row_table::{Row, RowTable};
use std::alloc::Global;
use std::cmp::Ordering;

/// A key that an ended session held, with what the session says of its end.
#[derive(Drop)]
pub(crate) struct Holding {
    key: Text,
    delay_ms: u64,
    behavior: Behavior,
}

impl Row for Holding {
    type Key = Text;

    ghost key = { holding_key };

    ghost cmp = { text_cmp };

    ghost total = { nat_list_cmp_total };

    ghost exact = { exact_bytes };

    fn order(&self, other: &Holding) -> Ordering {
        self.key.as_str().cmp(other.key.as_str())
    }

    fn copy(&self) -> Result<Holding, Memory> {
        Ok(Holding {
            key: self.key.clone()?,
            delay_ms: self.delay_ms,
            behavior: self.behavior,
        })
    }
}

// The key as the session holds it.
fn holding_of(session: &SessionRow, key: &Text) -> Result<Holding, Memory>
    ensures { IfOk result (λ h. h ≡ holding session.now key.now) }
{
    Ok(Holding {
        key: key.clone()?,
        delay_ms: session.delay_ms,
        behavior: session.behavior,
    })
}

// Puts the holding in the place of one of its key.
fn note(found: &mut RowTable<Holding>, holding: Holding) -> Result<(), Memory>
    ensures { OnOk result (found.new.now ≡ put text_cmp holding_key holding found.old.now) }
{
    match found.set(holding) {
        Ok(()) => Ok(()),
        Err((_, memory)) => Err(memory),
    }
}

// Notes the keys that the session holds.
fn note_each(
    found: &mut RowTable<Holding>,
    session: &SessionRow,
    keys: &[Text],
) -> Result<(), Memory>
    ensures { OnOk result (Notes session.now keys.now found.old.now found.new.now) }
{
    for key in keys {
        note(found, holding_of(session, key)?)?;
    }
    Ok(())
}

/// Tells a proof that the rows are in the order of their keys.
pub(crate) fn in_order(table: &KvTable)
    ensures { Ascends text_cmp kv_key table.now.now.rows }
{
    let _ = table.get("");
}

// Notes the keys that these sessions hold.
fn note_all(
    alloc: Global,
    table: &KvTable,
    gone: &[SessionRow],
) -> Result<RowTable<Holding>, Memory>
    requires { Ascends nat_cmp session_key gone.now }
    ensures found { IfOk result (λ found. NotesOf gone.now table.now.now.rows found.now) }
    ensures order { Ascends text_cmp kv_key table.now.now.rows }
{
    in_order(table);
    let mut found = RowTable::new(alloc);
    for session in gone {
        let keys = table.held_by(alloc, session.id)?;
        note_each(&mut found, session, keys.as_slice())?;
    }
    Ok(found)
}

// Copies of them all.
fn all_of(alloc: Global, found: &RowTable<Holding>) -> Result<Vec<Holding>, Memory>
    ensures all { IfOk result (λ v. v.items ≡ found.now.now) }
    ensures order { Ascends text_cmp holding_key found.now.now }
{
    found.in_order();
    let all = found.copied(alloc, |_| true)?;
    Ok(all)
}

// The keys that these sessions hold, in byte order.
fn holdings_of(alloc: Global, table: &KvTable, gone: &[SessionRow]) -> Result<Vec<Holding>, Memory>
    requires { Ascends nat_cmp session_key gone.now }
    ensures found { IfOk result (λ v. v.items ≡ holdings gone.now table.now.now.rows) }
    ensures keys { IfOk result (λ v. Ascends text_cmp holding_key v.items) }
    ensures order { IfOk result (λ v. Ascends text_cmp kv_key table.now.now.rows) }
{
    let found = note_all(alloc, table, gone)?;
    let all = all_of(alloc, &found)?;
    Ok(all)
}

// The key's row without its session.
fn released_row(table: &KvTable, position: u64, key: &Text) -> Result<Option<KvRow>, Memory>
    ensures { IfOk result (λ row. row ≡ released position (kv_at key.now table.now.now.rows)) }
{
    match table.get(key.as_str()) {
        None => Ok(None),
        Some(row) => {
            let mut row = row.clone()?;
            row.session = None;
            row.modify = position;
            Ok(Some(row))
        }
    }
}

// Puts the row in the place of the one of its key.
fn put_row(table: &mut KvTable, row: KvRow) -> Result<(), Memory>
    ensures ok { OnOk result (SetsRow row table.old table.new) }
    ensures before { table.new.before ≡ table.old.before }
{
    match table.set(row) {
        Ok(()) => Ok(()),
        Err((_, memory)) => Err(memory),
    }
}

// Takes the key from its session.
fn release(table: &mut KvTable, position: u64, key: &Text) -> Result<(), Memory>
    ensures ok { OnOk result (Releases key.now position table.old table.new) }
    ensures before { table.new.before ≡ table.old.before }
{
    match released_row(table, position, key)? {
        None => Ok(()),
        Some(row) => put_row(table, row),
    }
}

// Releases the key or removes it, as its session says.
fn free_key(table: &mut KvTable, position: u64, holding: &Holding) -> Result<(), Memory>
    ensures ok { OnOk result (Frees (holding.now ∷ []) position table.old table.new) }
    ensures before { table.new.before ≡ table.old.before }
{
    match holding.behavior {
        Behavior::Release => release(table, position, &holding.key),
        Behavior::Delete => bury(table, position, &holding.key),
    }
}

// Frees these keys.
fn free_each(table: &mut KvTable, position: u64, holdings: &[Holding]) -> Result<(), Memory>
    requires { Ascends text_cmp holding_key holdings.now }
    ensures ok { OnOk result (Frees holdings.now position table.old table.new) }
    ensures before { table.new.before ≡ table.old.before }
{
    for holding in holdings {
        free_key(table, position, holding)?;
    }
    Ok(())
}

// The keys with their delays.
fn freed_of(alloc: Global, holdings: Vec<Holding>) -> Result<List<Freed>, Memory>
    ensures { IfOk result (λ freed. freed ≡ map freed_holding holdings.items) }
{
    let mut freed = List::new(alloc);
    for holding in holdings {
        let key = holding.key;
        let delay_ms = holding.delay_ms;
        freed.push(Freed { key, delay_ms })?;
    }
    Ok(freed)
}

/// Frees the keys that these sessions held: each is released or removed, as its session's behaviour says. Gives the
/// freed keys in byte order, each with its session's lock delay.
pub fn free(
    alloc: Global,
    table: &mut KvTable,
    position: u64,
    gone: &[SessionRow],
) -> Result<List<Freed>, Memory>
    requires order { Ascends nat_cmp session_key gone.now }
    ensures rows { OnOk result (table.new.now.rows ≡ freed_rows position gone.now table.old.now.rows) }
    ensures freed { IfOk result (λ freed. map (λ f. (f.key, f.delay_ms)) freed ≡ freed_keys gone.now table.old.now.rows) }
    ensures moves { IfOk result (λ freed. Moves position table.old table.new (map (λ f. Key f.key) freed)) }
    ensures before { table.new.before ≡ table.old.before }
{
    let holdings = holdings_of(alloc, table, gone)?;
    free_each(table, position, holdings.as_slice())?;
    let freed = freed_of(alloc, holdings)?;
    Ok(freed)
}
