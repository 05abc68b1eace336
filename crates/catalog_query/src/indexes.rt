//! The indexes of queries, from the positions that the tables keep.

ghost use Rattle.std.specs.Prelude.{◌≡◌, List, if◌then◌else◌};
ghost use Rattle.std.proofs.Common.{max};
ghost use Rattle.cat_model.specs.Indexes.{has_node};
ghost use Rattle.cat_model.specs.declared.row.SessionRow.{SessionRow};
ghost use Rattle.cat_model.specs.declared.row.QueryRow.{QueryRow};
ghost use Rattle.catalog_table.specs.Rows.{catalog_of};
ghost use Rattle.touch_positions.specs.States.{table_position, host_position, host_checks_position};
ghost use Rattle.catalog_query.specs.Standing.{kept_of, view_index};

use crate::nodes::is_there;
use cat_model::{Query, Text};
use catalog_table::CatalogTable;
use kv_table::KvTable;
use touch_positions::{Table, TableIndex};

fn later(indexes: &TableIndex, one: Table, other: Table) -> u64
    ensures { result ≡ max (table_position one indexes.now.now) (table_position other indexes.now.now) }
{
    indexes.index(one).max(indexes.index(other))
}

/// The last change of the node's row, services and checks. Checks that are gone with their node move no index.
fn of_health(catalog: &CatalogTable, indexes: &TableIndex, node: &Text) -> u64
    ensures { result ≡ (if has_node node.now (catalog_of catalog.now.now) then max (host_position node.now indexes.now.now) (host_checks_position node.now indexes.now.now) else host_position node.now indexes.now.now) }
{
    let own = indexes.node_index(node.as_str());
    if is_there(catalog, node) {
        own.max(indexes.node_checks_index(node.as_str()))
    } else {
        own
    }
}

#[tactic(auto, unfolding(crate::specs::Standing::view_index, cat_model::specs::Views::kept_index))]
pub(crate) fn of_query(
    kv: &KvTable,
    catalog: &CatalogTable,
    indexes: &TableIndex,
    query: &Query,
) -> u64
    ensures { (sessions : List SessionRow) (queries : List QueryRow) → result ≡ view_index query.now (kept_of kv.now.now catalog.now.now sessions queries indexes.now.now) }
{
    match query {
        Query::Nodes => indexes.index(Table::Nodes),
        Query::Services => indexes.index(Table::Services),
        Query::Service { name, .. } | Query::HealthService { name, .. } => {
            indexes.service_index(name.as_str())
        }
        Query::NodeServices { node } => indexes.node_index(node.as_str()),
        Query::HealthNode { node } => of_health(catalog, indexes, node),
        Query::HealthChecks { .. } | Query::HealthState { .. } => {
            later(indexes, Table::Checks, Table::Services)
        }
        Query::Key { key } => kv.index_key(key.as_str()),
        Query::Prefix { prefix } | Query::Keys { prefix, .. } => kv.index_prefix(prefix.as_str()),
        Query::SessionInfo { .. } | Query::SessionsOf { .. } | Query::Sessions => {
            indexes.index(Table::Sessions)
        }
        Query::QueryInfo { .. } | Query::Queries => indexes.index(Table::Queries),
    }
}
