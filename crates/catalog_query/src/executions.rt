//! Executions of prepared queries.

ghost use Rattle.std.specs.Prelude.{◌≡◌, if◌then◌else◌, IfOk, filter};
ghost use Rattle.std.specs.Option.{option_copied};
ghost use Rattle.cat_model.specs.Queries.{all_pass};
ghost use Rattle.cat_model.specs.Executions.{none_critical, is_wanted, cut_at, execute_row, query_named, query_of};
ghost use Rattle.catalog_table.specs.Rows.{catalog_of};

use crate::filters::{meeting_tags, not_critical, only_passing};
use crate::instances::all_named;
use cat_model::{Instance, List, Memory, QueryRow, Ran};
use catalog_table::CatalogTable;
use query_table::QueryTable;
use std::alloc::Global;

fn healthy(found: List<Instance>, passing: bool) -> List<Instance>
    ensures { result ≡ filter (λ x. if passing then all_pass x else none_critical x) found }
{
    if passing {
        only_passing(found)
    } else {
        not_critical(found)
    }
}

fn wanted(found: List<Instance>, row: &QueryRow) -> List<Instance>
    ensures { result ≡ filter (is_wanted row.now) found }
{
    meeting_tags(healthy(found, row.only_passing), &row.tags)
}

/// The first so many instances, or all for 0.
fn first(found: List<Instance>, limit: u64) -> List<Instance>
    ensures { result ≡ cut_at limit found }
{
    if limit == 0 {
        return found;
    }
    let mut rows = found.into_vec();
    rows.truncate(limit as usize);
    List::from(rows)
}

/// What the query gives at these rows.
#[tactic(auto, unfolding(cat_model::specs::Executions::execute_row))]
pub(crate) fn run(
    alloc: Global,
    catalog: &CatalogTable,
    row: &QueryRow,
    limit: u64,
) -> Result<Ran, Memory>
    ensures { IfOk result (λ ran. ran ≡ execute_row (catalog_of catalog.now.now) limit row.now) }
{
    let found = all_named(alloc, catalog, &row.service)?;
    Ok(Ran {
        service: row.service.clone()?,
        dns_ttl_ms: row.dns_ttl_ms,
        nodes: first(wanted(found, row), limit),
    })
}

/// The query with this name. An empty name is none.
fn find_named<'a>(queries: &'a QueryTable, name: &str) -> Option<&'a QueryRow>
    ensures { option_copied result ≡ query_named name.now queries.now.now }
{
    if name.is_empty() {
        return None;
    }
    queries.by_name(name)
}

/// The query of this identifier, or else of this name.
#[tactic(auto, unfolding(cat_model::specs::Executions::query_of))]
pub(crate) fn find<'a>(
    queries: &'a QueryTable,
    id: Option<u128>,
    name: &str,
) -> Option<&'a QueryRow>
    ensures { option_copied result ≡ query_of id name.now queries.now.now }
{
    let Some(id) = id else {
        return find_named(queries, name);
    };
    match queries.by_id(id) {
        Some(row) => Some(row),
        None => find_named(queries, name),
    }
}
