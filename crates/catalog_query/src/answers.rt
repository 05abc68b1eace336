//! The answer to each query.

ghost use Rattle.std.specs.Prelude.{◌≡◌, IfOk};
ghost use Rattle.cat_model.specs.Queries.{answer, names_and_tags};
ghost use Rattle.catalog_query.specs.Standing.{rows_of};

use crate::{checks, instances, keys, names, nodes, queries, sessions};
use cat_model::{Answer, Memory, Query};
use catalog_table::CatalogTable;
use kv_table::KvTable;
use query_table::QueryTable;
use session_table::SessionTable;
use std::alloc::Global;

fn of_services(alloc: Global, catalog: &CatalogTable) -> Result<Answer, Memory>
    ensures { IfOk result (λ x. x ≡ Answer.Services (names_and_tags catalog.now.now.services)) }
{
    Ok(Answer::Services(names::with_tags(alloc, catalog)?))
}

#[tactic(auto, unfolding(cat_model::specs::Queries::answer_from, cat_model::specs::Queries::reads))]
pub(crate) fn of_query(
    alloc: Global,
    kv: &KvTable,
    catalog: &CatalogTable,
    sessions: &SessionTable,
    queries: &QueryTable,
    query: &Query,
) -> Result<Answer, Memory>
    ensures { IfOk result (λ x. x ≡ answer query.now (rows_of kv.now.now catalog.now.now sessions.now.now queries.now.now)) }
{
    match query {
        Query::Nodes => Ok(Answer::Nodes(catalog.nodes(alloc)?)),
        Query::Services => of_services(alloc, catalog),
        Query::Service { name, tags } => Ok(Answer::Instances(instances::tagged(
            alloc, catalog, name, tags,
        )?)),
        Query::NodeServices { node } => nodes::node_view(alloc, catalog, node),
        Query::HealthService {
            name,
            tags,
            passing,
        } => Ok(Answer::Instances(instances::healthy(alloc, catalog, name, tags, *passing)?)),
        Query::HealthChecks { name } => checks::of_service(alloc, catalog, name),
        Query::HealthNode { node } => checks::of_node(alloc, catalog, node),
        Query::HealthState { state } => checks::in_state(alloc, catalog, *state),
        Query::Key { key } => keys::row_of(alloc, kv, key),
        Query::Prefix { prefix } => Ok(Answer::Rows(kv.prefix(alloc, prefix.as_str())?)),
        Query::Keys { prefix, separator } => Ok(Answer::Names(keys::names_under(
            alloc, kv, prefix, separator,
        )?)),
        Query::SessionInfo { id } => sessions::of_id(alloc, sessions, *id),
        Query::SessionsOf { node } => Ok(Answer::Sessions(sessions.of_node(alloc, node.as_str())?)),
        Query::Sessions => Ok(Answer::Sessions(sessions.all(alloc)?)),
        Query::QueryInfo { id } => queries::of_id(alloc, queries, *id),
        Query::Queries => Ok(Answer::Queries(queries.all(alloc)?)),
    }
}
