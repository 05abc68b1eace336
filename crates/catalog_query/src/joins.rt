//! Service rows joined with the rows of their nodes and the checks that count for them.

ghost use Rattle.std.specs.Prelude.{◌≡◌, [], ◌∷◌, IfOk, filter, map};
ghost use Rattle.std.specs.Option.{option_copied};
ghost use Rattle.cat_model.specs.Keys.{pair_cmp};
ghost use Rattle.cat_model.specs.Tables.{Ascends};
ghost use Rattle.cat_model.specs.Catalog.{node_at, service_at, service_key};
ghost use Rattle.cat_model.specs.Queries.{is_of, name_of, check_view, instance_of, instances};
ghost use Rattle.catalog_query.specs.Rows.{rows_with, instance_key, view_if};

use cat_model::lists::{chosen, copy_of};
use cat_model::{CheckRow, CheckView, Instance, List, Memory, NodeRow, ServiceRow, Text};
use node_rows::{compare, compare_pairs, is_blank, is_same};
use std::alloc::Global;

fn find_node<'a>(node: &Text, rows: &'a [NodeRow]) -> Option<&'a NodeRow>
    ensures { option_copied result ≡ node_at node.now rows.now }
{
    rows.iter().find(|r| compare(node, &r.node).is_eq())
}

fn find_service<'a>(node: &Text, id: &Text, rows: &'a [ServiceRow]) -> Option<&'a ServiceRow>
    ensures { option_copied result ≡ service_at (node.now, id.now) rows.now }
{
    rows.iter()
        .find(|r| compare_pairs(node, id, &r.node, &r.id).is_eq())
}

/// The name of the service, or an empty one where it is not there.
pub fn name_or_blank(alloc: Global, service: Option<&ServiceRow>) -> Result<Text, Memory>
    ensures { IfOk result (λ name. name ≡ name_of (option_copied service.entry)) }
{
    match service {
        None => Text::new(alloc, ""),
        Some(s) => Ok(s.name.clone()?),
    }
}

fn service_name(alloc: Global, services: &[ServiceRow], c: &CheckRow) -> Result<Text, Memory>
    ensures { IfOk result (λ name. name ≡ (check_view services.now c.now).service_name) }
{
    if is_blank(&c.service) {
        return Text::new(alloc, "");
    }
    name_or_blank(alloc, find_service(&c.node, &c.service, services))
}

/// The check with the name of its service.
fn view(alloc: Global, services: &[ServiceRow], c: &CheckRow) -> Result<CheckView, Memory>
    ensures { IfOk result (λ v. v ≡ check_view services.now c.now) }
{
    let service_name = service_name(alloc, services, c)?;
    Ok(CheckView {
        row: copy_of(c)?,
        service_name,
    })
}

/// Whether the check counts for the instance: it is its own, or its node's.
fn counts_for(s: &ServiceRow, c: &CheckRow) -> bool
    ensures { result ≡ is_of (s.now ∷ []) c.now }
{
    is_same(&s.node, &c.node) && (is_blank(&c.service) || is_same(&s.id, &c.service))
}

fn view_if_counts(
    alloc: Global,
    services: &[ServiceRow],
    s: &ServiceRow,
    c: &CheckRow,
) -> Result<Option<CheckView>, Memory>
    ensures { IfOk result (λ o. o ≡ view_if services.now s.now c.now) }
{
    if counts_for(s, c) {
        Ok(Some(view(alloc, services, c)?))
    } else {
        Ok(None)
    }
}

/// The checks that count for the instance.
fn views(
    alloc: Global,
    services: &[ServiceRow],
    checks: &[CheckRow],
    s: &ServiceRow,
) -> Result<List<CheckView>, Memory>
    ensures { IfOk result (λ l. l ≡ map (check_view services.now) (filter (is_of (s.now ∷ [])) checks.now)) }
{
    chosen(alloc, checks, |c| view_if_counts(alloc, services, s, c))
}

fn instance(
    alloc: Global,
    services: &[ServiceRow],
    checks: &[CheckRow],
    s: &ServiceRow,
    n: &NodeRow,
) -> Result<Instance, Memory>
    ensures { IfOk result (λ x. x ≡ instance_of (rows_with services.now [] checks.now) s.now n.now) }
{
    let checks = views(alloc, services, checks, s)?;
    Ok(Instance {
        node: copy_of(n)?,
        service: copy_of(s)?,
        checks,
    })
}

/// An instance for each service row whose node is among the nodes, in the order of the service rows: its node's row and
/// those of the checks that are its own or its node's, each with the name of its service.
///
/// Consul, Health HTTP endpoint: "List Service Instances for Service".
pub fn join(
    alloc: Global,
    services: &List<ServiceRow>,
    nodes: &List<NodeRow>,
    checks: &List<CheckRow>,
) -> Result<List<Instance>, Memory>
    ensures joined { IfOk result (λ l. l ≡ instances (rows_with services.now nodes.now checks.now)) }
    ensures order { Ascends pair_cmp service_key services.now → IfOk result (Ascends pair_cmp instance_key) }
{
    chosen(alloc, services.as_slice(), |s| {
        match find_node(&s.node, nodes.as_slice()) {
            None => Ok(None),
            Some(n) => Ok(Some(instance(alloc, services.as_slice(), checks.as_slice(), s, n)?)),
        }
    })
}
