//! The instances of a service.

ghost use Rattle.std.specs.Prelude.{◌≡◌, ◌∷◌, [], ◌&&◌, ◌||◌, not, IfOk, filter};
ghost use Rattle.std.specs.List.{cons_option};
ghost use Rattle.cat_model.specs.Keys.{same_text};
ghost use Rattle.cat_model.specs.Catalog.{node_at};
ghost use Rattle.cat_model.specs.Queries.{instances, service_rows, has_all_tags, all_pass};
ghost use Rattle.catalog_table.specs.Rows.{catalog_of};
ghost use Rattle.cat_model.specs.Lists.{flat};
ghost use Rattle.catalog_query.specs.Placing.{placed};

use crate::filters::{only_passing, with_tags};
use crate::joins::join;
use cat_model::lists::{copy_if_any, copy_of, gathered, one};
use cat_model::{Instance, List, Memory, ServiceRow, Text, Texts};
use catalog_table::CatalogTable;
use std::alloc::Global;

/// The instance of this service, where its node is there.
fn place(
    alloc: Global,
    catalog: &CatalogTable,
    service: &ServiceRow,
) -> Result<List<Instance>, Memory>
    ensures { IfOk result (λ l. l ≡ placed (catalog_of catalog.now.now) service.now) }
{
    let services = one(alloc, copy_of(service)?)?;
    let nodes = copy_if_any(alloc, catalog.node(service.node.as_str()))?;
    let checks = catalog.checks_for(alloc, service.node.as_str(), service.id.as_str())?;
    join(alloc, &services, &nodes, &checks)
}

fn place_each(
    alloc: Global,
    catalog: &CatalogTable,
    services: &[ServiceRow],
) -> Result<List<Instance>, Memory>
    ensures { IfOk result (λ l. l ≡ flat (placed (catalog_of catalog.now.now)) services.now) }
{
    gathered(alloc, services, |s| place(alloc, catalog, s))
}

/// The instances of the services with this name. Each is joined with its node and the checks that count for it alone.
pub(crate) fn all_named(
    alloc: Global,
    catalog: &CatalogTable,
    name: &Text,
) -> Result<List<Instance>, Memory>
    ensures { IfOk result (λ l. l ≡ instances (service_rows name.now (catalog_of catalog.now.now))) }
{
    let services = catalog.services_named(alloc, name.as_str())?;
    place_each(alloc, catalog, services.as_slice())
}

/// The instances of the services with this name that have all these tags.
pub(crate) fn tagged(
    alloc: Global,
    catalog: &CatalogTable,
    name: &Text,
    tags: &Texts,
) -> Result<List<Instance>, Memory>
    ensures { IfOk result (λ l. l ≡ filter (has_all_tags tags.now) (instances (service_rows name.now (catalog_of catalog.now.now)))) }
{
    let found = all_named(alloc, catalog, name)?;
    Ok(with_tags(found, tags))
}

fn passing_if(found: List<Instance>, passing: bool) -> List<Instance>
    ensures { result ≡ filter (λ x. not passing || all_pass x) found }
{
    if passing { only_passing(found) } else { found }
}

/// Those of them, where that is asked, all of whose checks pass.
pub(crate) fn healthy(
    alloc: Global,
    catalog: &CatalogTable,
    name: &Text,
    tags: &Texts,
    passing: bool,
) -> Result<List<Instance>, Memory>
    ensures { IfOk result (λ l. l ≡ filter (λ x. has_all_tags tags.now x && (not passing || all_pass x)) (instances (service_rows name.now (catalog_of catalog.now.now)))) }
{
    let found = tagged(alloc, catalog, name, tags)?;
    Ok(passing_if(found, passing))
}
