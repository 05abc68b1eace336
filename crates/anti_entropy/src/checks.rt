//! The parts of a plan on checks.

ghost use Rattle.std.specs.Prelude.{◌≡◌, IfOk, is_some};
ghost use Rattle.std.specs.List.{filter_map, list_any};
ghost use Rattle.std.specs.Option.{option_copied};
ghost use Rattle.cat_model.specs.Catalog.{check_key, service_at, service_key};
ghost use Rattle.cat_model.specs.Keys.{pair_cmp};
ghost use Rattle.cat_model.specs.Syncs.{goes_along, lacks_check, listed};
ghost use Rattle.cat_model.specs.Tables.{Ascends};
ghost use Rattle.anti_entropy.specs.Parts.{check_command, new_checks, old_check, old_checks, own_plan};
ghost use Rattle.anti_entropy.specs.Ordered.{IsOrdered};

use crate::commands::{register_check, register_node, remove_check};
use crate::differences::{SERF_HEALTH, is_serf, is_uneven_check, lacks_node};
use crate::ordered::Ordered;
use cat_model::lists::{chosen, one};
use cat_model::{CheckRow, Command, List, Memory, NodeRow, ServiceRow, Text};
use node_rows::{Pair, found, is_blank, side_by_side};
use row_table::{ByPair, Seen};
use std::alloc::Global;

// Whether one of these services has this ID.
fn has_service(node: &Text, id: &Text, services: &[Seen<'_, ServiceRow>]) -> bool
    requires { Ascends pair_cmp service_key services.now }
    ensures { result ≡ is_some (service_at (node.now, id.now) services.now) }
{
    let key = ByPair {
        node: node.as_str(),
        id: id.as_str(),
    };
    found(services, &key).is_some()
}

// Whether the check goes with its service, which is the catalog's alone.
fn goes_along(own: &Ordered<'_>, there: &Ordered<'_>, check: &CheckRow) -> bool
    requires own { IsOrdered own.now }
    requires there { IsOrdered there.now }
    ensures { result ≡ goes_along own.now.services.items there.now.services.items check.now }
{
    !is_blank(&check.service)
        && !has_service(&check.node, &check.service, own.services.as_slice())
        && has_service(&check.node, &check.service, there.services.as_slice())
}

// Whether the catalog lacks the check, where there is one.
fn lacks_own(there: &[Seen<'_, CheckRow>], own: Option<&CheckRow>) -> bool
    requires { Ascends pair_cmp check_key there.now }
    ensures { result ≡ list_any (lacks_check there.now) (listed (option_copied own.entry)) }
{
    match own {
        None => false,
        Some(check) => is_uneven_check(check, found(there, check)),
    }
}

/// The registration of the node with the check of its own, where either is missing or different.
pub(crate) fn own_plan(
    alloc: Global,
    node: &NodeRow,
    node_there: Option<&NodeRow>,
    own: &Ordered<'_>,
    there: &Ordered<'_>,
) -> Result<List<Command>, Memory>
    requires own { IsOrdered own.now }
    requires there { IsOrdered there.now }
    ensures { IfOk result (λ l. l ≡ own_plan node.now (option_copied node_there.entry) own.now.checks.items there.now.checks.items) }
{
    let key = ByPair {
        node: node.node.as_str(),
        id: SERF_HEALTH,
    };
    let check = found(own.checks.as_slice(), &key);
    if lacks_node(node_there, node) || lacks_own(there.checks.as_slice(), check) {
        let command = register_node(alloc, node, check)?;
        let commands = one(alloc, command)?;
        return Ok(commands);
    }
    Ok(List::new(alloc))
}

// The registration of the check, where it is not the node's own and the catalog lacks it.
fn check_command(
    alloc: Global,
    node: &NodeRow,
    pair: &Pair<'_, CheckRow>,
) -> Result<Option<Command>, Memory>
    ensures { IfOk result (λ command. command ≡ check_command node.now pair.now) }
{
    if is_serf(pair.own) || !is_uneven_check(pair.own, pair.there) {
        return Ok(None);
    }
    Ok(Some(register_check(alloc, node, pair.own)?))
}

// A registration of each other check that the catalog lacks.
fn new_checks(
    alloc: Global,
    node: &NodeRow,
    pairs: &[Pair<'_, CheckRow>],
) -> Result<List<Command>, Memory>
    ensures { IfOk result (λ l. l ≡ filter_map (check_command node.now) pairs.now) }
{
    chosen(alloc, pairs, |pair| check_command(alloc, node, pair))
}

// The removal of the check, unless it goes with its service.
fn old_check(
    alloc: Global,
    node: &NodeRow,
    own: &Ordered<'_>,
    there: &Ordered<'_>,
    check: &CheckRow,
) -> Result<Option<Command>, Memory>
    requires own { IsOrdered own.now }
    requires there { IsOrdered there.now }
    ensures { IfOk result (λ command. command ≡ old_check node.now own.now.services.items there.now.services.items check.now) }
{
    if goes_along(own, there, check) {
        return Ok(None);
    }
    Ok(Some(remove_check(alloc, node, check)?))
}

// A removal of each of these checks that goes with no service.
fn old_checks(
    alloc: Global,
    node: &NodeRow,
    own: &Ordered<'_>,
    there: &Ordered<'_>,
    strays: &[Seen<'_, CheckRow>],
) -> Result<List<Command>, Memory>
    requires own { IsOrdered own.now }
    requires there { IsOrdered there.now }
    ensures { IfOk result (λ l. l ≡ filter_map (old_check node.now own.now.services.items there.now.services.items) strays.now) }
{
    let mut all = Vec::new(alloc);
    for stray in strays {
        if let Some(command) = old_check(alloc, node, own, there, stray.row())? {
            all.push(command)?;
        }
    }
    Ok(List::from(all))
}

/// A registration of each check that the catalog lacks, and a removal of each that the agent lacks, but for the node's own
/// and for those that go with a service.
pub(crate) fn check_parts<'b, 'a>(
    alloc: Global,
    node: &NodeRow,
    own: &'b Ordered<'a>,
    there: &'b Ordered<'a>,
) -> Result<(List<Command>, List<Command>), Memory>
    requires own { IsOrdered own.now }
    requires there { IsOrdered there.now }
    ensures new { IfOk result (λ parts. parts.0 ≡ new_checks node.now own.now.checks.items there.now.checks.items) }
    ensures old { IfOk result (λ parts. parts.1 ≡ old_checks node.now own.now.services.items there.now.services.items own.now.checks.items there.now.checks.items) }
{
    let sides = side_by_side(alloc, own.checks.as_slice(), there.checks.as_slice())?;
    let new = new_checks(alloc, node, sides.pairs.as_slice())?;
    let old = old_checks(alloc, node, own, there, sides.strays.as_slice())?;
    Ok((new, old))
}
