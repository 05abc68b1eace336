//! The channels on which a waiting query hangs.

ghost use Rattle.std.specs.Prelude.{◌≡◌, [], ◌∷◌, IfOk, List, if◌then◌else◌};
ghost use Rattle.cat_model.specs.Indexes.{has_node};
ghost use Rattle.cat_model.specs.Channels.{service_chans, key_chans, node_chans, node_health_chans, chans};
ghost use Rattle.cat_model.specs.declared.row.SessionRow.{SessionRow};
ghost use Rattle.cat_model.specs.declared.row.QueryRow.{QueryRow};
ghost use Rattle.cat_model.specs.declared.query.Chan.TheVariants as chan;
ghost use Rattle.catalog_table.specs.Rows.{catalog_of, no_rows};
ghost use Rattle.catalog_query.specs.Standing.{rows_of};

use crate::nodes::is_there;
use cat_model::lists::{one, two};
use cat_model::{Chan, List, Memory, Query, Text};
use catalog_table::CatalogTable;
use kv_table::KvTable;
use std::alloc::Global;

fn of_service(alloc: Global, catalog: &CatalogTable, name: &Text) -> Result<List<Chan>, Memory>
    ensures { IfOk result (λ l. l ≡ service_chans name.now (catalog_of catalog.now.now)) }
{
    let service = Chan::Service(name.clone()?);
    if catalog.has_name(name.as_str()) {
        one(alloc, service)
    } else {
        two(alloc, service, Chan::Vanished)
    }
}

fn of_node(alloc: Global, catalog: &CatalogTable, node: &Text) -> Result<List<Chan>, Memory>
    ensures { IfOk result (λ l. l ≡ node_chans node.now (catalog_of catalog.now.now)) }
{
    let chan = Chan::Node(node.clone()?);
    if is_there(catalog, node) {
        one(alloc, chan)
    } else {
        two(alloc, chan, Chan::NodeGone)
    }
}

/// The channel of the node's checks, or that of nodes that go.
fn checks_or_gone(catalog: &CatalogTable, node: &Text) -> Result<Chan, Memory>
    ensures { IfOk result (λ c. c ≡ (if has_node node.now (catalog_of catalog.now.now) then chan.NodeChecks node.now else chan.NodeGone)) }
{
    if is_there(catalog, node) {
        Ok(Chan::NodeChecks(node.clone()?))
    } else {
        Ok(Chan::NodeGone)
    }
}

fn of_health(alloc: Global, catalog: &CatalogTable, node: &Text) -> Result<List<Chan>, Memory>
    ensures { IfOk result (λ l. l ≡ node_health_chans node.now (catalog_of catalog.now.now)) }
{
    let checks = checks_or_gone(catalog, node)?;
    two(alloc, Chan::Node(node.clone()?), checks)
}

fn of_key(alloc: Global, kv: &KvTable, key: &Text) -> Result<List<Chan>, Memory>
    ensures { IfOk result (λ l. l ≡ key_chans key.now (rows_of kv.now.now no_rows [] [])) }
{
    let chan = Chan::Key(key.clone()?);
    if kv.get(key.as_str()).is_some() {
        one(alloc, chan)
    } else {
        two(alloc, chan, Chan::Reaped)
    }
}

fn of_prefix(alloc: Global, prefix: &Text) -> Result<List<Chan>, Memory>
    ensures { IfOk result (λ l. l ≡ Chan.Prefix prefix.now ∷ Chan.Reaped ∷ []) }
{
    two(alloc, Chan::Prefix(prefix.clone()?), Chan::Reaped)
}

#[tactic(auto, unfolding(cat_model::specs::Channels::chans))]
pub(crate) fn of_query(
    alloc: Global,
    kv: &KvTable,
    catalog: &CatalogTable,
    query: &Query,
) -> Result<List<Chan>, Memory>
    ensures { (sessions : List SessionRow) (queries : List QueryRow) → IfOk result (λ l. l ≡ chans query.now (rows_of kv.now.now catalog.now.now sessions queries)) }
{
    match query {
        Query::Nodes => one(alloc, Chan::Nodes),
        Query::Services => one(alloc, Chan::Services),
        Query::Service { name, .. } | Query::HealthService { name, .. } => {
            of_service(alloc, catalog, name)
        }
        Query::NodeServices { node } => of_node(alloc, catalog, node),
        Query::HealthNode { node } => of_health(alloc, catalog, node),
        Query::HealthChecks { .. } | Query::HealthState { .. } => {
            two(alloc, Chan::Checks, Chan::Services)
        }
        Query::Key { key } => of_key(alloc, kv, key),
        Query::Prefix { prefix } | Query::Keys { prefix, .. } => of_prefix(alloc, prefix),
        Query::SessionInfo { .. } | Query::SessionsOf { .. } | Query::Sessions => {
            one(alloc, Chan::Sessions)
        }
        Query::QueryInfo { .. } | Query::Queries => one(alloc, Chan::Queries),
    }
}
