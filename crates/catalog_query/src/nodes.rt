//! A node with its services.

ghost use Rattle.std.specs.Prelude.{◌≡◌, IfOk};
ghost use Rattle.std.specs.Option.{option_copied};
ghost use Rattle.cat_model.specs.Queries.{answer};
ghost use Rattle.cat_model.specs.Indexes.{has_node};
ghost use Rattle.cat_model.specs.declared.query.Query.TheVariants as q;
ghost use Rattle.catalog_table.specs.Rows.{catalog_of};

use cat_model::lists::copy_of;
use cat_model::{Answer, Memory, NodeRow, Text};
use catalog_table::CatalogTable;
use std::alloc::Global;

pub(crate) fn is_there(catalog: &CatalogTable, node: &Text) -> bool
    ensures { result ≡ has_node node.now (catalog_of catalog.now.now) }
{
    catalog.node(node.as_str()).is_some()
}

fn copy_if_there(row: Option<&NodeRow>) -> Result<Option<NodeRow>, Memory>
    ensures { IfOk result (λ o. o ≡ option_copied row.entry) }
{
    match row {
        None => Ok(None),
        Some(row) => Ok(Some(copy_of(row)?)),
    }
}

/// The node's row, if it is there, with its services.
pub(crate) fn node_view(
    alloc: Global,
    catalog: &CatalogTable,
    node: &Text,
) -> Result<Answer, Memory>
    ensures { IfOk result (λ x. x ≡ answer (q.NodeServices node.now) (catalog_of catalog.now.now)) }
{
    let row = copy_if_there(catalog.node(node.as_str()))?;
    let services = catalog.services_of(alloc, node.as_str())?;
    Ok(Answer::NodeView(row, services))
}
