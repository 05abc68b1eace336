//! The rows under a prefix. Their keys stand one after another, from the prefix on.

ghost use Rattle.std.specs.Prelude.{◌≡◌, IfOk, filter, map};
ghost use Rattle.cat_model.specs.Keys.{text_cmp, has_prefix};
ghost use Rattle.cat_model.specs.Catalog.{kv_key};
ghost use Rattle.cat_model.specs.KvIndexes.{last_modify};
ghost use Rattle.cat_model.specs.Tables.{Ascends};

use crate::prefix::begins;
use cat_model::{KvRow, Memory, Text};
use row_table::{ByKey, Row, RowTable};
use std::alloc::Global;

// Copies of the rows whose key begins with the prefix.
pub(crate) fn under(
    alloc: Global,
    rows: &RowTable<KvRow>,
    prefix: &str,
) -> Result<Vec<KvRow>, Memory>
    ensures rows { IfOk result (λ v. v.items ≡ filter (λ r. has_prefix prefix.now r.key) rows.now.now) }
    ensures order { IfOk result (λ v. Ascends text_cmp kv_key v.items) }
{
    rows.in_order();
    let mut found = Vec::new(alloc);
    for row in rows.rows_from(&ByKey(prefix)) {
        if !begins(row.key.as_str(), prefix) {
            break;
        }
        found.push(row.copy()?)?;
    }
    Ok(found)
}

// The keys that begin with the prefix.
pub(crate) fn keys_under(
    alloc: Global,
    rows: &RowTable<KvRow>,
    prefix: &str,
) -> Result<Vec<Text>, Memory>
    ensures keys { IfOk result (λ v. v.items ≡ map kv_key (filter (λ r. has_prefix prefix.now r.key) rows.now.now)) }
    ensures order { IfOk result (λ v. Ascends text_cmp (λ key. key) v.items) }
{
    rows.in_order();
    let mut found = Vec::new(alloc);
    for row in rows.rows_from(&ByKey(prefix)) {
        if !begins(row.key.as_str(), prefix) {
            break;
        }
        found.push(Text::new(alloc, row.key.as_str())?)?;
    }
    Ok(found)
}

// The last position at which a row under the prefix was written, or the least.
pub(crate) fn modified_under(rows: &RowTable<KvRow>, prefix: &str, least: u64) -> u64
    ensures { result ≡ last_modify (has_prefix prefix.now) least rows.now.now }
{
    rows.in_order();
    let mut last = least;
    for row in rows.rows_from(&ByKey(prefix)) {
        if !begins(row.key.as_str(), prefix) {
            break;
        }
        last = last.max(row.modify);
    }
    last
}
