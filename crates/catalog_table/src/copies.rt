//! Copies of rows: of all of a table, of those of one node, and of one check.

ghost use Rattle.std.specs.Prelude.{◌≡◌, ◌++◌, [], IfOk, OnOk, filter, true};
ghost use Rattle.std.specs.List.{cons_option};
ghost use Rattle.cat_model.specs.Catalog.{check_at};
ghost use Rattle.cat_model.specs.Keys.{same_text};

use crate::same::is_text;
use cat_model::{CheckRow, List, Memory, ServiceRow, Text};
use row_table::{ByPair, Row, RowTable};
use std::alloc::Global;

pub(crate) fn copy_of(text: &Text) -> Result<Text, Memory>
    ensures { IfOk result (λ copy. copy ≡ text.now) }
{
    Ok(text.clone()?)
}

fn each<R: Row>(alloc: Global, rows: &RowTable<R>) -> Result<Vec<R>, Memory>
    ensures { IfOk result (λ v. v.items ≡ filter (λ _. true) rows.now.now) }
{
    rows.copied(alloc, |_| true)
}

/// Copies of all rows.
pub(crate) fn all<R: Row>(alloc: Global, rows: &RowTable<R>) -> Result<List<R>, Memory>
    ensures { IfOk result (λ l. l ≡ rows.now.now) }
{
    Ok(List::from(each(alloc, rows)?))
}

/// Copies of the rows of the node's services, which stand one after another.
pub(crate) fn services_on(
    alloc: Global,
    rows: &RowTable<ServiceRow>,
    node: &str,
) -> Result<Vec<ServiceRow>, Memory>
    ensures { IfOk result (λ v. v.items ≡ filter (λ r. same_text r.node node.now) rows.now.now) }
{
    rows.in_order();
    let mut found = Vec::new(alloc);
    for row in rows.rows_from(&ByPair { node, id: "" }) {
        if !is_text(&row.node, node) {
            break;
        }
        found.push(row.copy()?)?;
    }
    Ok(found)
}

/// Copies of the rows of the node's checks, which stand one after another.
pub(crate) fn checks_on(
    alloc: Global,
    rows: &RowTable<CheckRow>,
    node: &str,
) -> Result<Vec<CheckRow>, Memory>
    ensures { IfOk result (λ v. v.items ≡ filter (λ r. same_text r.node node.now) rows.now.now) }
{
    rows.in_order();
    let mut found = Vec::new(alloc);
    for row in rows.rows_from(&ByPair { node, id: "" }) {
        if !is_text(&row.node, node) {
            break;
        }
        found.push(row.copy()?)?;
    }
    Ok(found)
}

/// Adds a copy of the check of a key, if it is there.
pub(crate) fn add_check(
    found: &mut Vec<CheckRow>,
    rows: &RowTable<CheckRow>,
    node: &Text,
    id: &Text,
) -> Result<(), Memory>
    ensures { OnOk result (found.new.items ≡ found.old.items ++ cons_option (check_at (node.now, id.now) rows.now.now) []) }
{
    let key = ByPair {
        node: node.as_str(),
        id: id.as_str(),
    };
    if let Some(row) = rows.get(&key) {
        found.push(row.copy()?)?;
    }
    Ok(())
}
