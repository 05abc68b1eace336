//! The instances and nodes that a name asks for.

ghost use Rattle.std.specs.Prelude.{◌≡◌, ◌+◌, ◌≤◌, [], IfOk, filter, find, option_map, false};
ghost use Rattle.std.specs.List.{list_any};
ghost use Rattle.std.specs.Option.{option_copied};
ghost use mathlib.Core.List.{IsPrefix};
ghost use Rattle.cat_model.specs.Executions.{none_critical};
ghost use Rattle.cat_model.specs.declared.query.Query.TheVariants as q;
ghost use Rattle.dns_service.specs.Instances.{found_at, has_tag, instances_in, nodes_in, if_any};
ghost use Rattle.dns_service.specs.Reading.{answers_at};
ghost use Rattle.dns_service.specs.Sought.{same_letters};

use crate::CatalogReader;
use crate::sought::{Sought, are_same_letters};
use cat_model::lists::copy_of;
use cat_model::{Answer, Bytes, Instance, List, Memory, NodeRow, Query, Steps, Text, Texts};
use catalog_query::not_critical;
use std::alloc::Global;
use std::sync::ledger::Ledger;

/// What there is under a name.
#[derive(Debug, Drop)]
pub(crate) enum Found {
    /// Instances of a service, at least one.
    Instances(List<Instance>),
    Node(NodeRow),
    /// The address that the name itself is.
    Address(Bytes),
}

fn are_alike(a: &Text, b: &Text) -> bool
    ensures { result ≡ same_letters a.now b.now }
{
    are_same_letters(a.as_str().as_bytes(), b.as_str().as_bytes())
}

fn has_alike(tags: &Texts, tag: &Text) -> bool
    ensures { result ≡ list_any (same_letters tag.now) tags.now }
{
    tags.as_slice().iter().any(|t| are_alike(tag, t))
}

fn is_tagged(tag: &Option<Text>, x: &Instance) -> bool
    ensures { result ≡ has_tag tag.now x.now }
{
    match tag {
        None => true,
        Some(tag) => has_alike(&x.service.tags, tag),
    }
}

/// Those with the tag, where one is wanted. Takes no memory.
fn with_tag(list: List<Instance>, tag: &Option<Text>) -> List<Instance>
    ensures { result ≡ filter (has_tag tag.now) list }
{
    let mut found = list.into_vec();
    found.retain(|x| is_tagged(tag, x));
    List::from(found)
}

fn instances_of(alloc: Global, answer: Answer) -> List<Instance>
    ensures { result ≡ instances_in answer }
{
    match answer {
        Answer::Instances(found) => found,
        _ => List::new(alloc),
    }
}

fn nodes_of(alloc: Global, answer: Answer) -> List<NodeRow>
    ensures { result ≡ nodes_in answer }
{
    match answer {
        Answer::Nodes(rows) => rows,
        _ => List::new(alloc),
    }
}

/// Instances, if there are any.
fn some_of(list: List<Instance>) -> Option<Found>
    ensures { result ≡ if_any list }
{
    if list.len() == 0 {
        None
    } else {
        Some(Found::Instances(list))
    }
}

/// A node, if there is one.
fn some_node(row: Option<NodeRow>) -> Option<Found>
    ensures { result ≡ option_map Found.Node row }
{
    match row {
        Some(row) => Some(Found::Node(row)),
        None => None,
    }
}

fn is_named(row: &NodeRow, name: &Text) -> bool
    ensures { result ≡ same_letters name.now row.now.node }
{
    are_alike(name, &row.node)
}

/// The first node whose name is this but for ASCII case.
fn find_named<'a>(rows: &'a [NodeRow], name: &Text) -> Option<&'a NodeRow>
    ensures { option_copied result ≡ find (λ row. same_letters name.now row.node) rows.now }
{
    rows.iter().find(|row| is_named(row, name))
}

/// A copy of that node.
fn node_named(rows: &[NodeRow], name: &Text) -> Result<Option<NodeRow>, Memory>
    ensures { IfOk result (λ row. row ≡ find (λ row. same_letters name.now row.node) rows.now) }
{
    match find_named(rows, name) {
        None => Ok(None),
        Some(row) => Ok(Some(copy_of(row)?)),
    }
}

/// The instances of the service that have no critical check.
fn healthy<C: CatalogReader, L: Ledger>(
    alloc: Global,
    catalog: &mut C,
    name: Text,
    steps: &mut Steps<L>,
) -> Result<List<Instance>, Memory>
    ensures found { IfOk result (λ l. l ≡ filter none_critical (instances_in (answers_at (C.commands catalog.new) (q.HealthService name [] false)))) }
    ensures grown { IsPrefix (C.commands catalog.old) (C.commands catalog.new) }
    ensures cost { steps.new ≤ steps.old + 1 }
{
    let query = Query::HealthService {
        name,
        tags: List::new(alloc),
        passing: false,
    };
    let answer = catalog.read(alloc, &query, steps)?;
    Ok(not_critical(instances_of(alloc, answer)))
}

/// The node of that name.
fn node_under<C: CatalogReader, L: Ledger>(
    alloc: Global,
    catalog: &mut C,
    name: &Text,
    steps: &mut Steps<L>,
) -> Result<Option<NodeRow>, Memory>
    ensures found { IfOk result (λ row. row ≡ find (λ row. same_letters name.now row.node) (nodes_in (answers_at (C.commands catalog.new) q.Nodes))) }
    ensures grown { IsPrefix (C.commands catalog.old) (C.commands catalog.new) }
    ensures cost { steps.new ≤ steps.old + 1 }
{
    let answer = catalog.read(alloc, &Query::Nodes, steps)?;
    let rows = nodes_of(alloc, answer);
    node_named(rows.as_slice(), name)
}

/// What there is under the name. It reads the catalog once at most.
pub(crate) fn found_under<C: CatalogReader, L: Ledger>(
    alloc: Global,
    catalog: &mut C,
    sought: Sought,
    steps: &mut Steps<L>,
) -> Result<Option<Found>, Memory>
    ensures found { IfOk result (λ found. found ≡ found_at (answers_at (C.commands catalog.new)) sought) }
    ensures grown { IsPrefix (C.commands catalog.old) (C.commands catalog.new) }
    ensures cost { steps.new ≤ steps.old + 1 }
{
    match sought {
        Sought::Service(name, tag) => {
            let list = healthy(alloc, catalog, name, steps)?;
            Ok(some_of(with_tag(list, &tag)))
        }
        Sought::Node(name) => {
            let row = node_under(alloc, catalog, &name, steps)?;
            Ok(some_node(row))
        }
        Sought::Address(bytes) => Ok(Some(Found::Address(bytes))),
    }
}
