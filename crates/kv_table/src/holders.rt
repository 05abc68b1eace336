//! The rows of keys together with the index of those that sessions hold.

ghost use Rattle.std.specs.Prelude.{◌≡◌, ◌≢◌, IfErr, IfOk, OnErr, OnOk, is_some};
ghost use Rattle.std.specs.Ordering.{is_eq};
ghost use Rattle.cat_model.specs.Keys.{text_cmp};
ghost use Rattle.cat_model.specs.Catalog.{kv_at, kv_key};
ghost use Rattle.cat_model.specs.Tables.{put, without};
ghost use Rattle.row_table.specs.Filing.{place_of};
ghost use Rattle.kv_table.specs.Holders.{holder_of, FilesHolders};

use crate::held::{Held, hold, let_go};
use cat_model::{KvRow, Memory, Text};
use row_table::{ByKey, RowTable};

// The session that holds the key.
fn holder_at(rows: &RowTable<KvRow>, key: &str) -> Option<u128>
    ensures { result ≡ place_of holder_of (kv_at key.now rows.now.now) }
{
    match rows.get(&ByKey(key)) {
        Some(row) => row.session,
        None => None,
    }
}

fn copy_of(key: &Text) -> Result<Text, Memory>
    ensures { IfOk result (λ copy. copy ≡ key.now) }
{
    Ok(key.clone()?)
}

// Puts a row in the place of the one of its key, which another session held, or none.
fn hand_over(
    rows: &mut RowTable<KvRow>,
    held: &mut RowTable<Held>,
    old: Option<u128>,
    row: KvRow,
) -> Result<(), (KvRow, Memory)>
    requires files { FilesHolders rows.old.now held.old.now }
    requires old { old ≡ place_of holder_of (kv_at row.key rows.old.now) }
    requires new { old ≢ row.session }
    ensures files { FilesHolders rows.new.now held.new.now }
    ensures ok { OnOk result (rows.new.now ≡ put text_cmp kv_key row rows.old.now) }
    ensures before { rows.new.before ≡ rows.old.before }
    ensures held_before { held.new.before ≡ held.old.before }
    ensures back { IfErr result (λ e. e.0 ≡ row) }
    ensures err { OnErr result (rows.new.now ≡ rows.old.now) }
{
    let new = row.session;
    let key = match copy_of(&row.key) {
        Ok(key) => key,
        Err(memory) => return Err((row, memory)),
    };
    if let Err(memory) = hold(held, new, &key) {
        return Err((row, memory));
    }
    if let Err(refused) = rows.set(row) {
        let_go(held, new, key.as_str());
        return Err(refused);
    }
    let_go(held, old, key.as_str());
    Ok(())
}

// Puts the row in the place of the one of its key.
pub(crate) fn set(
    rows: &mut RowTable<KvRow>,
    held: &mut RowTable<Held>,
    row: KvRow,
) -> Result<(), (KvRow, Memory)>
    requires files { FilesHolders rows.old.now held.old.now }
    ensures files { FilesHolders rows.new.now held.new.now }
    ensures ok { OnOk result (rows.new.now ≡ put text_cmp kv_key row rows.old.now) }
    ensures before { rows.new.before ≡ rows.old.before }
    ensures held_before { held.new.before ≡ held.old.before }
    ensures back { IfErr result (λ e. e.0 ≡ row) }
    ensures err { OnErr result (rows.new.now ≡ rows.old.now) }
{
    let old = holder_at(rows, row.key.as_str());
    if old == row.session {
        rows.set(row)
    } else {
        hand_over(rows, held, old, row)
    }
}

// Removes the row of a key, and tells whether there was one.
pub(crate) fn remove(rows: &mut RowTable<KvRow>, held: &mut RowTable<Held>, key: &str) -> bool
    requires files { FilesHolders rows.old.now held.old.now }
    ensures files { FilesHolders rows.new.now held.new.now }
    ensures rows { rows.new.now ≡ without (λ r. is_eq (text_cmp key.now (kv_key r))) rows.old.now }
    ensures before { rows.new.before ≡ rows.old.before }
    ensures held_before { held.new.before ≡ held.old.before }
    ensures there { result ≡ is_some (kv_at key.now rows.old.now) }
{
    let old = holder_at(rows, key);
    let_go(held, old, key);
    rows.remove(&ByKey(key))
}
