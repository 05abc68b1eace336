//! Names in byte order, each once.

ghost use Rattle.std.specs.Prelude.{◌≡◌, IfOk, filter};
ghost use Rattle.cat_model.specs.Keys.{same_text};
ghost use Rattle.cat_model.specs.Queries.{all_names, all_tags, names_and_tags};

use cat_model::lists::{copy_of, gathered, made};
use cat_model::{List, Memory, NameTags, ServiceRow, Text, Texts};
use catalog_table::CatalogTable;
use node_rows::is_same;
use std::alloc::Global;

/// The names in byte order, each once. Those that come in order, as keys do, are gone over just once.
pub(crate) fn sorted(names: Texts) -> Result<Texts, Memory>
    ensures { IfOk result (λ l. l ≡ all_names names) }
{
    let mut found = names.into_vec();
    found.sort_by(|a, b| a.as_str().cmp(b.as_str()))?;
    found.dedup_by(|a, b| is_same(a, b));
    Ok(List::from(found))
}

/// The tags of all these services, as they come.
fn tags_of(alloc: Global, services: &[ServiceRow]) -> Result<Texts, Memory>
    ensures { IfOk result (λ l. l ≡ all_tags services.now) }
{
    gathered(alloc, services, |s| copy_of(&s.tags))
}

fn tags_named(alloc: Global, catalog: &CatalogTable, name: &Text) -> Result<Texts, Memory>
    ensures { IfOk result (λ l. l ≡ all_names (all_tags (filter (λ s. same_text s.name name.now) catalog.now.now.services))) }
{
    let services = catalog.services_named(alloc, name.as_str())?;
    sorted(tags_of(alloc, services.as_slice())?)
}

fn name_with_tags(alloc: Global, catalog: &CatalogTable, name: &Text) -> Result<NameTags, Memory>
    ensures { IfOk result (λ n. n ≡ record { name = name.now; tags = all_names (all_tags (filter (λ s. same_text s.name name.now) catalog.now.now.services)) }) }
{
    let tags = tags_named(alloc, catalog, name)?;
    Ok(NameTags {
        name: name.clone()?,
        tags,
    })
}

/// Each service name with the tags of its instances.
pub(crate) fn with_tags(alloc: Global, catalog: &CatalogTable) -> Result<List<NameTags>, Memory>
    ensures { IfOk result (λ l. l ≡ names_and_tags catalog.now.now.services) }
{
    let names = sorted(catalog.service_names(alloc)?)?;
    made(
        alloc,
        names.as_slice(),
        |n| name_with_tags(alloc, catalog, n),
    )
}
