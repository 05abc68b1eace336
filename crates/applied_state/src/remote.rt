//! The rows of one node.

ghost use Rattle.std.specs.Prelude.{◌≡◌, IfOk};
ghost use Rattle.cluster_rules.specs.Agents.{remote_of};
ghost use Rattle.catalog_table.specs.Rows.{catalog_of};

use cat_model::Memory;
use catalog_table::CatalogTable;
use node_rows::CatalogRows;
use std::alloc::Global;

/// The node's row, its services and its checks, where they stand.
pub(crate) fn rows_of_node<'a>(
    alloc: Global,
    catalog: &'a CatalogTable,
    node: &str,
) -> Result<CatalogRows<'a>, Memory>
    ensures { IfOk result (λ r. r ≡ remote_of node.now (catalog_of catalog.now.now)) }
{
    Ok(CatalogRows {
        node: catalog.node(node),
        services: catalog.services_on(alloc, node)?,
        checks: catalog.checks_on(alloc, node)?,
    })
}
