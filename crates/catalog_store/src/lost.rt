//! The checks that a command makes critical or takes away.

ghost use Rattle.std.specs.Prelude.{◌≡◌, ◌∷◌, [], IfOk, if◌then◌else◌};
ghost use Rattle.cat_model.specs.Keys.{is_empty};
ghost use Rattle.catalog_store.specs.Lost.{critical_id, ids_in_service, is_critical, lost_checks};

use cat_model::lists::{chosen, copy_of, made, one};
use cat_model::{CheckRow, Command, List, Memory, NewCheck, Status, Text, Texts};
use catalog_table::CatalogTable;
use std::alloc::Global;

fn is_critical(check: &NewCheck) -> bool
    ensures { result ≡ is_critical check.now }
{
    matches!(check.status, Status::Critical)
}

// The ID of the check, where it is critical.
fn critical_id(check: &NewCheck) -> Result<Option<Text>, Memory>
    ensures { IfOk result (λ id. id ≡ critical_id check.now) }
{
    if !is_critical(check) {
        return Ok(None);
    }
    Ok(Some(copy_of(&check.id)?))
}

fn id_of(row: &CheckRow) -> Result<Text, Memory>
    ensures { IfOk result (λ id. id ≡ row.now.id) }
{
    copy_of(&row.id)
}

// The checks of the node's service.
fn ids_in_service(
    alloc: Global,
    catalog: &CatalogTable,
    node: &Text,
    service: &Text,
) -> Result<Texts, Memory>
    ensures { IfOk result (λ l. l ≡ ids_in_service node.now service.now catalog.now.now.checks) }
{
    let rows = catalog.checks_of_service(alloc, node.as_str(), service.as_str())?;
    made(alloc, rows.as_slice(), |r| id_of(r))
}

// The checks that a Deregister takes away.
fn taken(
    alloc: Global,
    catalog: &CatalogTable,
    node: &Text,
    service: &Text,
    check: &Text,
) -> Result<Texts, Memory>
    ensures { IfOk result (λ l. l ≡ (if is_empty service.now then check.now ∷ [] else ids_in_service node.now service.now catalog.now.now.checks)) }
{
    if service.len() == 0 {
        one(alloc, copy_of(check)?)
    } else {
        ids_in_service(alloc, catalog, node, service)
    }
}

/// The checks of its node that the command makes critical or takes away; an empty one stands for all.
pub(crate) fn lost_checks(
    alloc: Global,
    catalog: &CatalogTable,
    command: &Command,
) -> Result<Texts, Memory>
    ensures { IfOk result (λ l. l ≡ lost_checks command.now catalog.now.now.checks) }
{
    match command {
        Command::Register { checks, .. } => chosen(alloc, checks.as_slice(), |c| critical_id(c)),
        Command::Deregister {
            node,
            service,
            check,
        } => taken(alloc, catalog, node, service, check),
        _ => Ok(List::new(alloc)),
    }
}
