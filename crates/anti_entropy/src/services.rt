//! The parts of a plan on services.

ghost use Rattle.std.specs.Prelude.{◌≡◌, IfOk, map};
ghost use Rattle.std.specs.List.{filter_map};
ghost use Rattle.anti_entropy.specs.Parts.{new_services, old_services, removes_service, service_command};
ghost use Rattle.anti_entropy.specs.Ordered.{IsOrdered};

use crate::commands::{register_service, remove_service};
use crate::differences::is_uneven_service;
use crate::ordered::Ordered;
use cat_model::lists::{chosen, made};
use cat_model::{Command, List, Memory, NodeRow, ServiceRow};
use node_rows::{Pair, side_by_side};
use row_table::Seen;
use std::alloc::Global;

// The registration of the service, where the catalog lacks it.
fn service_command(
    alloc: Global,
    node: &NodeRow,
    pair: &Pair<'_, ServiceRow>,
) -> Result<Option<Command>, Memory>
    ensures { IfOk result (λ command. command ≡ service_command node.now pair.now) }
{
    if !is_uneven_service(pair.own, pair.there) {
        return Ok(None);
    }
    Ok(Some(register_service(alloc, node, pair.own, pair.there)?))
}

// A registration of each service that the catalog lacks.
fn new_services(
    alloc: Global,
    node: &NodeRow,
    pairs: &[Pair<'_, ServiceRow>],
) -> Result<List<Command>, Memory>
    ensures { IfOk result (λ l. l ≡ filter_map (service_command node.now) pairs.now) }
{
    chosen(alloc, pairs, |pair| service_command(alloc, node, pair))
}

// A removal of each of these services.
fn old_services(
    alloc: Global,
    node: &NodeRow,
    strays: &[Seen<'_, ServiceRow>],
) -> Result<List<Command>, Memory>
    ensures { IfOk result (λ l. l ≡ map (removes_service node.now) strays.now) }
{
    made(alloc, strays, |s| remove_service(alloc, node, s.row()))
}

/// A registration of each service that the catalog lacks, and a removal of each that the agent lacks.
pub(crate) fn service_parts<'b, 'a>(
    alloc: Global,
    node: &NodeRow,
    own: &'b Ordered<'a>,
    there: &'b Ordered<'a>,
) -> Result<(List<Command>, List<Command>), Memory>
    requires own { IsOrdered own.now }
    requires there { IsOrdered there.now }
    ensures new { IfOk result (λ parts. parts.0 ≡ new_services node.now own.now.services.items there.now.services.items) }
    ensures old { IfOk result (λ parts. parts.1 ≡ old_services node.now own.now.services.items there.now.services.items) }
{
    let sides = side_by_side(alloc, own.services.as_slice(), there.services.as_slice())?;
    let new = new_services(alloc, node, sides.pairs.as_slice())?;
    let old = old_services(alloc, node, sides.strays.as_slice())?;
    Ok((new, old))
}
