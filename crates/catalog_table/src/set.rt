//! Rows that a registration puts. One that is equal in all but the positions stays as it was, and one that is written
//! anew keeps the position at which it was made.

ghost use Rattle.std.specs.Prelude.{◌≡◌, ◌++◌, IfOk, OnOk, not};
ghost use Rattle.std.specs.Option.{option_copied};
ghost use Rattle.cat_model.specs.Catalog.{node_at, service_at, check_at, node_key};
ghost use Rattle.cat_model.specs.Keys.{is_empty, text_cmp};
ghost use Rattle.cat_model.specs.Tables.{put};
ghost use Rattle.cat_model.specs.Machine.{put_node, put_service as the_service_put, put_given, put_check as the_check_put, put_checks};
ghost use Rattle.catalog_table.specs.Puts.{check_edits, checks_edits, given_edits, made_check, made_node, made_service, node_edits, put_check_over, put_service_over, service_edits};
ghost use Rattle.catalog_table.specs.Touching.{check_services, service_names};

use crate::checks::CheckTable;
use crate::copies::copy_of;
use crate::same::{are_alike_checks, are_alike_nodes, are_alike_services};
use crate::services::ServiceTable;
use cat_model::{CheckRow, List, Memory, NewCheck, NewService, NodeRow, ServiceRow, Text, Texts};
use row_table::{ByNode, RowTable};
use std::alloc::Global;

fn place(rows: &mut RowTable<NodeRow>, row: NodeRow) -> Result<(), Memory>
    ensures ok { OnOk result (rows.new.now ≡ put text_cmp node_key row rows.old.now) }
    ensures before { rows.new.before ≡ rows.old.before }
{
    match rows.set(row) {
        Ok(()) => Ok(()),
        Err((_, memory)) => Err(memory),
    }
}

/// The service of this ID on the node.
pub(crate) fn find_service<'a>(
    rows: &'a ServiceTable,
    node: &Text,
    id: &Text,
) -> Option<&'a ServiceRow>
    ensures { option_copied result ≡ service_at (node.now, id.now) rows.now.now }
{
    rows.get(node.as_str(), id.as_str())
}

fn find_check<'a>(rows: &'a CheckTable, node: &Text, id: &Text) -> Option<&'a CheckRow>
    ensures { option_copied result ≡ check_at (node.now, id.now) rows.now.now }
{
    rows.get(node.as_str(), id.as_str())
}

/// Puts the row of the node, and tells whether it is another one now.
pub(crate) fn set_node(
    rows: &mut RowTable<NodeRow>,
    position: u64,
    node: &Text,
    address: &Text,
) -> Result<bool, Memory>
    ensures ok { OnOk result (rows.new.now ≡ put_node position node.now address.now rows.old.now) }
    ensures told { IfOk result (λ b. b ≡ not (is_empty (node_edits (node_at node.now rows.old.now) (made_node position node.now address.now)))) }
    ensures before { rows.new.before ≡ rows.old.before }
{
    let new = NodeRow {
        node: node.clone()?,
        address: address.clone()?,
        create: position,
        modify: position,
    };
    let Some(old) = rows.get(&ByNode(node.as_str())) else {
        place(rows, new)?;
        return Ok(true);
    };
    if are_alike_nodes(old, &new) {
        return Ok(false);
    }
    let create = old.create;
    place(rows, NodeRow { create, ..new })?;
    Ok(true)
}

// The service as a row that is made at the position.
fn new_service(position: u64, node: &Text, s: &NewService) -> Result<ServiceRow, Memory>
    ensures { IfOk result (λ r. r ≡ made_service position node.now s.now) }
{
    Ok(ServiceRow {
        node: node.clone()?,
        id: s.id.clone()?,
        name: s.name.clone()?,
        tags: s.tags.clone()?,
        address: s.address.clone()?,
        port: s.port,
        tag_override: s.tag_override,
        create: position,
        modify: position,
    })
}

// Puts the row over the one of its key, and adds the names of the rows that go and come.
fn put_service(rows: &mut ServiceTable, names: &mut Texts, new: ServiceRow) -> Result<(), Memory>
    ensures ok { OnOk result (rows.new.now ≡ put_service_over (service_at (new.node, new.id) rows.old.now) new rows.old.now) }
    ensures told { OnOk result (names.new ≡ names.old ++ service_names (service_edits (service_at (new.node, new.id) rows.old.now) new)) }
    ensures before { rows.new.before ≡ rows.old.before }
{
    let Some(old) = find_service(rows, &new.node, &new.id) else {
        names.push(copy_of(&new.name)?)?;
        return rows.set(new);
    };
    if are_alike_services(old, &new) {
        return Ok(());
    }
    let create = old.create;
    names.push(copy_of(&old.name)?)?;
    names.push(copy_of(&new.name)?)?;
    rows.set(ServiceRow { create, ..new })
}

fn set_service(
    rows: &mut ServiceTable,
    names: &mut Texts,
    position: u64,
    node: &Text,
    s: &NewService,
) -> Result<(), Memory>
    ensures ok { OnOk result (rows.new.now ≡ the_service_put position node.now s.now rows.old.now) }
    ensures told { OnOk result (names.new ≡ names.old ++ service_names (service_edits (service_at (node.now, s.now.id) rows.old.now) (made_service position node.now s.now))) }
    ensures before { rows.new.before ≡ rows.old.before }
{
    let new = new_service(position, node, s)?;
    put_service(rows, names, new)
}

/// Puts the row of the service, if there is one, and tells the names of the rows that go and come.
pub(crate) fn set_given(
    alloc: Global,
    rows: &mut ServiceTable,
    position: u64,
    node: &Text,
    service: &Option<NewService>,
) -> Result<Texts, Memory>
    ensures ok { OnOk result (rows.new.now ≡ put_given position node.now service.now rows.old.now) }
    ensures told { IfOk result (λ names. names ≡ service_names (given_edits position node.now service.now rows.old.now)) }
    ensures before { rows.new.before ≡ rows.old.before }
{
    let mut names = List::new(alloc);
    if let Some(s) = service {
        set_service(rows, &mut names, position, node, s)?;
    }
    Ok(names)
}

// The check as a row that is made at the position.
fn new_check(position: u64, node: &Text, c: &NewCheck) -> Result<CheckRow, Memory>
    ensures { IfOk result (λ r. r ≡ made_check position node.now c.now) }
{
    Ok(CheckRow {
        node: node.clone()?,
        id: c.id.clone()?,
        name: c.name.clone()?,
        status: c.status,
        notes: c.notes.clone()?,
        output: c.output.clone()?,
        service: c.service.clone()?,
        create: position,
        modify: position,
    })
}

// Puts the row over the one of its key, and adds the services of the rows that go and come.
fn put_check(rows: &mut CheckTable, served: &mut Texts, new: CheckRow) -> Result<(), Memory>
    ensures ok { OnOk result (rows.new.now ≡ put_check_over (check_at (new.node, new.id) rows.old.now) new rows.old.now) }
    ensures told { OnOk result (served.new ≡ served.old ++ check_services (check_edits (check_at (new.node, new.id) rows.old.now) new)) }
    ensures before { rows.new.before ≡ rows.old.before }
{
    let Some(old) = find_check(rows, &new.node, &new.id) else {
        served.push(copy_of(&new.service)?)?;
        return rows.set(new);
    };
    if are_alike_checks(old, &new) {
        return Ok(());
    }
    let create = old.create;
    served.push(copy_of(&old.service)?)?;
    served.push(copy_of(&new.service)?)?;
    rows.set(CheckRow { create, ..new })
}

fn set_check(
    rows: &mut CheckTable,
    served: &mut Texts,
    position: u64,
    node: &Text,
    c: &NewCheck,
) -> Result<(), Memory>
    ensures ok { OnOk result (rows.new.now ≡ the_check_put position node.now c.now rows.old.now) }
    ensures told { OnOk result (served.new ≡ served.old ++ check_services (check_edits (check_at (node.now, c.now.id) rows.old.now) (made_check position node.now c.now))) }
    ensures before { rows.new.before ≡ rows.old.before }
{
    let new = new_check(position, node, c)?;
    put_check(rows, served, new)
}

/// Puts the rows of the checks, and tells the services of the rows that go and come.
pub(crate) fn set_checks(
    alloc: Global,
    rows: &mut CheckTable,
    position: u64,
    node: &Text,
    checks: &[NewCheck],
) -> Result<Texts, Memory>
    ensures ok { OnOk result (rows.new.now ≡ put_checks position node.now checks.now rows.old.now) }
    ensures told { IfOk result (λ served. served ≡ check_services (checks_edits position node.now checks.now rows.old.now)) }
    ensures before { rows.new.before ≡ rows.old.before }
{
    let mut served = List::new(alloc);
    let mut left = checks;
    while let Some((check, rest)) = left.split_first() {
        set_check(rows, &mut served, position, node, check)?;
        left = rest;
    }
    Ok(served)
}
