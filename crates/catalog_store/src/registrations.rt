//! Registration and its undoing, with the positions that they move and the channels that they fire.

ghost use Rattle.std.specs.Prelude.{◌≡◌, ◌++◌, ◌||◌, IfOk, OnOk, map};
ghost use Rattle.cat_model.specs.declared.command.Command.TheVariants.{Deregister};
ghost use Rattle.catalog_table.specs.Steps.{IsRegister};
ghost use Rattle.catalog_store.specs.States.{now_of, before_of};
ghost use Rattle.catalog_store.specs.Standing.{Ready, Within};
ghost use Rattle.catalog_store.specs.Registering.{Marks, MarksNames, MarksNode, TouchesEach, VanishesEach, RowStep, all_chans, changed_chans, goes, has_some, is_there as the_is_there, node_of, one_if, with_rows};

use crate::channels::{push_if, touch_if};
use crate::tables::Tables;
use cat_model::{Applied, Chan, Command, List, Memory, Refuse, Text};
use catalog_table::{CatalogTable, Changed, RegisterFault};
use std::alloc::Global;
use touch_positions::{Table, TableIndex};

/// What a change did to its node: whether it was there before and is now, and whether its row or services changed, and
/// its checks.
#[derive(Clone, Copy)]
pub(crate) struct NodeChange {
    pub(crate) was: bool,
    pub(crate) is: bool,
    pub(crate) rows: bool,
    pub(crate) checks: bool,
}

// Marks these names.
fn touch_each(
    alloc: Global,
    indexes: &mut TableIndex,
    names: &[Text],
    position: u64,
) -> Result<(), Memory>
    requires { Within position indexes.old.now }
    ensures ok { OnOk result (TouchesEach names.now position indexes.old.now indexes.new.now) }
    ensures within { OnOk result (Within position indexes.new.now) }
    ensures before { indexes.new.before ≡ indexes.old.before }
{
    for name in names {
        indexes.touch_service(alloc, name.as_str(), position)?;
    }
    Ok(())
}

// Marks that these names lost their last rows.
fn vanish_each(indexes: &mut TableIndex, names: &[Text], position: u64) -> Result<(), Memory>
    requires { Within position indexes.old.now }
    ensures ok { OnOk result (VanishesEach names.now position indexes.old.now indexes.new.now) }
    ensures before { indexes.new.before ≡ indexes.old.before }
{
    for name in names {
        indexes.vanish(name.as_str(), position)?;
    }
    Ok(())
}

// Marks what changed. A name that vanished changed too, and is marked as vanished last.
fn mark(
    alloc: Global,
    indexes: &mut TableIndex,
    changed: &Changed,
    position: u64,
) -> Result<(), Memory>
    requires { Within position indexes.old.now }
    ensures ok { OnOk result (MarksNames position changed.now indexes.old.now indexes.new.now) }
    ensures before { indexes.new.before ≡ indexes.old.before }
{
    touch_if(indexes, changed.nodes, Table::Nodes, position);
    touch_if(indexes, changed.services, Table::Services, position);
    touch_if(indexes, changed.checks, Table::Checks, position);
    touch_each(alloc, indexes, changed.names.as_slice(), position)?;
    vanish_each(indexes, changed.vanished.as_slice(), position)?;
    Ok(())
}

// The channels of these names.
fn name_chans(alloc: Global, names: &[Text]) -> Result<List<Chan>, Memory>
    ensures { IfOk result (λ l. l ≡ map (λ name. Chan.Service name) names.now) }
{
    let mut chans = List::new(alloc);
    for name in names {
        let chan = Chan::Service(name.clone()?);
        chans.push(chan)?;
    }
    Ok(chans)
}

fn is_some_of(names: &[Text]) -> bool
    ensures { result ≡ has_some names.now }
{
    !names.is_empty()
}

// The channels of what changed.
fn chans_of(alloc: Global, changed: &Changed) -> Result<List<Chan>, Memory>
    ensures { IfOk result (λ l. l ≡ changed_chans changed.now) }
{
    let mut chans = name_chans(alloc, changed.names.as_slice())?;
    push_if(&mut chans, changed.nodes, Chan::Nodes)?;
    push_if(&mut chans, changed.services, Chan::Services)?;
    push_if(&mut chans, changed.checks, Chan::Checks)?;
    push_if(
        &mut chans,
        is_some_of(changed.vanished.as_slice()),
        Chan::Vanished,
    )?;
    Ok(chans)
}

// Whether the node is there.
fn is_there(catalog: &CatalogTable, node: &Text) -> bool
    ensures { result ≡ the_is_there node.now catalog.now.now }
{
    catalog.node(node.as_str()).is_some()
}

// Marks what changed of the node.
fn mark_node(
    alloc: Global,
    indexes: &mut TableIndex,
    node: &Text,
    change: NodeChange,
    position: u64,
) -> Result<(), Memory>
    requires { Within position indexes.old.now }
    ensures ok { OnOk result (MarksNode position node.now change indexes.old.now indexes.new.now) }
    ensures before { indexes.new.before ≡ indexes.old.before }
{
    if change.was && !change.is {
        indexes.node_gone(node.as_str(), position);
        return Ok(());
    }
    if change.is && change.rows {
        indexes.touch_node(alloc, node.as_str(), position)?;
    }
    if change.is && change.checks {
        indexes.touch_node_checks(alloc, node.as_str(), position)?;
    }
    Ok(())
}

// The channels of what changed of the node, behind these.
fn push_node(chans: &mut List<Chan>, node: &Text, change: NodeChange) -> Result<(), Memory>
    ensures { OnOk result (chans.new ≡ ((chans.old ++ one_if change.rows (Chan.Node node.now)) ++ one_if change.checks (Chan.NodeChecks node.now)) ++ one_if (goes change) Chan.NodeGone) }
{
    let rows = Chan::Node(node.clone()?);
    push_if(chans, change.rows, rows)?;
    let checks = Chan::NodeChecks(node.clone()?);
    push_if(chans, change.checks, checks)?;
    push_if(chans, change.was && !change.is, Chan::NodeGone)
}

// Marks what changed, and gives its channels.
fn announce(
    alloc: Global,
    indexes: &mut TableIndex,
    changed: &Changed,
    node: &Text,
    change: NodeChange,
    position: u64,
) -> Result<List<Chan>, Memory>
    requires { Within position indexes.old.now }
    ensures ok { OnOk result (Marks position changed.now node.now change indexes.old.now indexes.new.now) }
    ensures chans { IfOk result (λ l. l ≡ all_chans changed.now node.now change) }
    ensures before { indexes.new.before ≡ indexes.old.before }
{
    mark(alloc, indexes, changed, position)?;
    mark_node(alloc, indexes, node, change, position)?;
    let mut chans = chans_of(alloc, changed)?;
    push_node(&mut chans, node, change)?;
    Ok(chans)
}

// What the change did to its node, which was there before it or not.
fn change_of(catalog: &CatalogTable, changed: &Changed, node: &Text, was: bool) -> NodeChange
    ensures { result ≡ record { was = was; is = the_is_there node.now catalog.now.now; rows = changed.now.nodes || changed.now.services; checks = changed.now.checks } }
{
    NodeChange {
        was,
        is: is_there(catalog, node),
        rows: changed.nodes || changed.services,
        checks: changed.checks,
    }
}

/// Registers the node, the service and the checks of the command. Where it is refused nothing changes.
pub(crate) fn register(
    alloc: Global,
    tables: &mut Tables,
    position: u64,
    command: &Command,
    node: &Text,
) -> Result<(Applied, List<Chan>), Memory>
    requires kind { IsRegister command.now }
    requires node { node_of command.now ≡ node.now }
    requires ready { Ready position (now_of tables.old) }
    ensures step { IfOk result (λ d. RowStep position command.now (now_of tables.old) tables.new.catalog.now tables.new.indexes.now d.0 d.1) }
    ensures others { now_of tables.new ≡ with_rows (now_of tables.old) tables.new.catalog.now tables.new.indexes.now }
    ensures before { before_of tables.new ≡ before_of tables.old }
{
    tables.catalog.in_order();
    let was = is_there(&tables.catalog, node);
    match tables.catalog.register(alloc, position, command) {
        Ok(changed) => {
            let change = change_of(&tables.catalog, &changed, node, was);
            let chans = announce(alloc, &mut tables.indexes, &changed, node, change, position)?;
            Ok((Applied::Yes, chans))
        }
        Err(RegisterFault::MissingService) => {
            Ok((Applied::Refused(Refuse::MissingService), List::new(alloc)))
        }
        Err(RegisterFault::Memory) => Err(Memory),
    }
}

/// Removes the service, or where that is empty the check, or where both are empty the node.
pub(crate) fn deregister(
    alloc: Global,
    tables: &mut Tables,
    position: u64,
    node: &Text,
    service: &Text,
    check: &Text,
) -> Result<(Applied, List<Chan>), Memory>
    requires ready { Ready position (now_of tables.old) }
    ensures step { IfOk result (λ d. RowStep position (Deregister node.now service.now check.now) (now_of tables.old) tables.new.catalog.now tables.new.indexes.now d.0 d.1) }
    ensures others { now_of tables.new ≡ with_rows (now_of tables.old) tables.new.catalog.now tables.new.indexes.now }
    ensures before { before_of tables.new ≡ before_of tables.old }
{
    tables.catalog.in_order();
    let was = is_there(&tables.catalog, node);
    let changed = tables.catalog.deregister(
        alloc,
        position,
        node.as_str(),
        service.as_str(),
        check.as_str(),
    )?;
    let change = change_of(&tables.catalog, &changed, node, was);
    let chans = announce(alloc, &mut tables.indexes, &changed, node, change, position)?;
    Ok((Applied::Yes, chans))
}
