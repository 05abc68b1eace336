//! Checks with the names of their services.

ghost use Rattle.std.specs.Prelude.{◌≡◌, ◌&&◌, not, IfOk, filter, map};
ghost use Rattle.cat_model.specs.Keys.{same_text, is_empty};
ghost use Rattle.cat_model.specs.Queries.{answer, check_view, has_status, service_named, check_views};
ghost use Rattle.cat_model.specs.declared.query.Query.TheVariants as q;
ghost use Rattle.catalog_table.specs.Rows.{catalog_of};

use crate::joins::name_or_blank;
use cat_model::lists::{copy_of, made};
use cat_model::{Answer, CheckRow, CheckView, List, Memory, Status, Text};
use catalog_table::CatalogTable;
use node_rows::{is_blank, is_same};
use std::alloc::Global;

fn service_name(alloc: Global, catalog: &CatalogTable, c: &CheckRow) -> Result<Text, Memory>
    ensures { IfOk result (λ name. name ≡ (check_view catalog.now.now.services c.now).service_name) }
{
    if is_blank(&c.service) {
        return Text::new(alloc, "");
    }
    name_or_blank(alloc, catalog.service(c.node.as_str(), c.service.as_str()))
}

fn view(alloc: Global, catalog: &CatalogTable, c: &CheckRow) -> Result<CheckView, Memory>
    ensures { IfOk result (λ v. v ≡ check_view catalog.now.now.services c.now) }
{
    let service_name = service_name(alloc, catalog, c)?;
    Ok(CheckView {
        row: copy_of(c)?,
        service_name,
    })
}

fn shown(alloc: Global, catalog: &CatalogTable, checks: List<CheckRow>) -> Result<Answer, Memory>
    ensures { IfOk result (λ x. x ≡ Answer.Checks (map (check_view catalog.now.now.services) checks)) }
{
    Ok(Answer::Checks(made(alloc, checks.as_slice(), |c| view(alloc, catalog, c))?))
}

/// Whether the check is of a service of this name. A node's own check is of none.
fn is_of_named(catalog: &CatalogTable, name: &Text, c: &CheckRow) -> bool
    ensures { result ≡ (same_text (check_view catalog.now.now.services c.now).service_name name.now && not (is_empty c.now.service)) }
{
    if is_blank(&c.service) {
        return false;
    }
    match catalog.service(c.node.as_str(), c.service.as_str()) {
        None => "" == name.as_str(),
        Some(s) => is_same(&s.name, name),
    }
}

fn of_named(catalog: &CatalogTable, name: &Text, checks: List<CheckRow>) -> List<CheckRow>
    ensures { result ≡ filter (service_named (catalog_of catalog.now.now) name.now) checks }
{
    let mut rows = checks.into_vec();
    rows.retain(|c| is_of_named(catalog, name, c));
    List::from(rows)
}

/// The checks of the services with this name.
pub(crate) fn of_service(
    alloc: Global,
    catalog: &CatalogTable,
    name: &Text,
) -> Result<Answer, Memory>
    ensures { IfOk result (λ x. x ≡ check_views (service_named (catalog_of catalog.now.now) name.now) (catalog_of catalog.now.now)) }
{
    let checks = of_named(catalog, name, catalog.checks(alloc)?);
    shown(alloc, catalog, checks)
}

/// The checks of this node, each with the name of its service there.
pub(crate) fn of_node(alloc: Global, catalog: &CatalogTable, node: &Text) -> Result<Answer, Memory>
    ensures { IfOk result (λ x. x ≡ answer (q.HealthNode node.now) (catalog_of catalog.now.now)) }
{
    let checks = catalog.checks_of(alloc, node.as_str())?;
    shown(alloc, catalog, checks)
}

fn with_status(
    alloc: Global,
    catalog: &CatalogTable,
    state: Option<Status>,
) -> Result<List<CheckRow>, Memory>
    ensures { IfOk result (λ l. l ≡ filter (has_status state) catalog.now.now.checks) }
{
    match state {
        None => catalog.checks(alloc),
        Some(status) => catalog.checks_with(alloc, status),
    }
}

/// The checks with this status, or all of them.
pub(crate) fn in_state(
    alloc: Global,
    catalog: &CatalogTable,
    state: Option<Status>,
) -> Result<Answer, Memory>
    ensures { IfOk result (λ x. x ≡ check_views (has_status state) (catalog_of catalog.now.now)) }
{
    let checks = with_status(alloc, catalog, state)?;
    shown(alloc, catalog, checks)
}
