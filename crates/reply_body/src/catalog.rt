//! Nodes, services, checks and instances.

ghost use Rattle.std.specs.Prelude.{◌≡◌, IfOk, map, option_map};
ghost use Rattle.std.specs.Option.{option_copied};
ghost use Rattle.serde_json.specs.Data.{array};
ghost use Rattle.serde_json.specs.View.{view, items_of};
ghost use Rattle.row_objects.specs.Objects.{node_data, service_data, instance_data, check_data, health_data};
ghost use Rattle.reply_body.specs.Filtered.{kept};
ghost use Rattle.filter_expr.specs.Expressions.{expression_of};

use crate::json::{listed, listed_where};
use crate::rows::names_json;
use cat_model::{CheckView, Instance, NodeRow, ServiceRow};
use filter_expr::{Filter, Listed};
use row_objects::status_name;
use serde_json::{Value, json};
use std::alloc::{AllocError, Global};

#[tactic(auto, unfolding(row_objects::specs::Objects::node_data))]
pub(crate) fn node_json(alloc: Global, row: &NodeRow) -> Result<Value, AllocError>
    ensures { IfOk result (λ json. view json ≡ node_data row.now) }
{
    json!(in alloc; {
        "Address": row.address.as_str(),
        "CreateIndex": row.create,
        "Datacenter": "dc1",
        "ModifyIndex": row.modify,
        "Node": row.node.as_str()
    })
}

#[tactic(auto, unfolding(row_objects::specs::Objects::service_data))]
pub(crate) fn service_json(alloc: Global, row: &ServiceRow) -> Result<Value, AllocError>
    ensures { IfOk result (λ json. view json ≡ service_data row.now) }
{
    let tags = names_json(alloc, row.tags.as_slice())?;
    json!(in alloc; {
        "Address": row.address.as_str(),
        "CreateIndex": row.create,
        "EnableTagOverride": row.tag_override,
        "ID": row.id.as_str(),
        "ModifyIndex": row.modify,
        "Port": row.port,
        "Service": row.name.as_str(),
        "Tags": tags
    })
}

#[tactic(auto, unfolding(row_objects::specs::Objects::instance_data))]
fn instance_json(alloc: Global, item: &Instance) -> Result<Value, AllocError>
    ensures { IfOk result (λ json. view json ≡ instance_data item.now) }
{
    let row = &item.service;
    let tags = names_json(alloc, row.tags.as_slice())?;
    json!(in alloc; {
        "Address": item.node.address.as_str(),
        "CreateIndex": row.create,
        "Datacenter": "dc1",
        "ModifyIndex": row.modify,
        "Node": row.node.as_str(),
        "ServiceAddress": row.address.as_str(),
        "ServiceEnableTagOverride": row.tag_override,
        "ServiceID": row.id.as_str(),
        "ServiceName": row.name.as_str(),
        "ServicePort": row.port,
        "ServiceTags": tags
    })
}

#[tactic(auto, unfolding(row_objects::specs::Objects::check_data))]
fn check_json(alloc: Global, item: &CheckView) -> Result<Value, AllocError>
    ensures { IfOk result (λ json. view json ≡ check_data item.now) }
{
    let row = &item.row;
    json!(in alloc; {
        "CheckID": row.id.as_str(),
        "CreateIndex": row.create,
        "ModifyIndex": row.modify,
        "Name": row.name.as_str(),
        "Node": row.node.as_str(),
        "Notes": row.notes.as_str(),
        "Output": row.output.as_str(),
        "ServiceID": row.service.as_str(),
        "ServiceName": item.service_name.as_str(),
        "Status": status_name(row.status)
    })
}

/// The array of the checks that the filter keeps.
pub(crate) fn checks_json(
    alloc: Global,
    items: &[CheckView],
    filter: Option<&Filter>,
) -> Result<Value, AllocError>
    ensures { IfOk result (λ json. view json ≡ array (items_of (map check_data (kept check_data (option_map expression_of (option_copied filter.entry)) items.now)))) }
{
    match filter {
        None => listed(alloc, items, |item| check_json(alloc, item)),
        Some(filter) => listed_where(
            alloc,
            items,
            |item| filter.keeps(item),
            |item| check_json(alloc, item),
        ),
    }
}

#[tactic(auto, unfolding(row_objects::specs::Objects::health_data))]
fn health_json(alloc: Global, item: &Instance) -> Result<Value, AllocError>
    ensures { IfOk result (λ json. view json ≡ health_data item.now) }
{
    let checks = checks_json(alloc, item.checks.as_slice(), None)?;
    let node = node_json(alloc, &item.node)?;
    let service = service_json(alloc, &item.service)?;
    json!(in alloc; { "Checks": checks, "Node": node, "Service": service })
}

/// The array of the nodes that the filter keeps.
pub(crate) fn nodes_json(
    alloc: Global,
    items: &[NodeRow],
    filter: Option<&Filter>,
) -> Result<Value, AllocError>
    ensures { IfOk result (λ json. view json ≡ array (items_of (map node_data (kept node_data (option_map expression_of (option_copied filter.entry)) items.now)))) }
{
    match filter {
        None => listed(alloc, items, |item| node_json(alloc, item)),
        Some(filter) => listed_where(
            alloc,
            items,
            |item| filter.keeps(item),
            |item| node_json(alloc, item),
        ),
    }
}

/// The array of the instances in the catalog that the filter keeps.
pub(crate) fn instances_json(
    alloc: Global,
    items: &[Instance],
    filter: Option<&Filter>,
) -> Result<Value, AllocError>
    ensures { IfOk result (λ json. view json ≡ array (items_of (map instance_data (kept instance_data (option_map expression_of (option_copied filter.entry)) items.now)))) }
{
    match filter {
        None => listed(alloc, items, |item| instance_json(alloc, item)),
        Some(filter) => listed_where(
            alloc,
            items,
            |item| filter.keeps(&Listed(item)),
            |item| instance_json(alloc, item),
        ),
    }
}

/// The array of the instances with their checks that the filter keeps.
pub(crate) fn healths_json(
    alloc: Global,
    items: &[Instance],
    filter: Option<&Filter>,
) -> Result<Value, AllocError>
    ensures { IfOk result (λ json. view json ≡ array (items_of (map health_data (kept health_data (option_map expression_of (option_copied filter.entry)) items.now)))) }
{
    match filter {
        None => listed(alloc, items, |item| health_json(alloc, item)),
        Some(filter) => listed_where(
            alloc,
            items,
            |item| filter.keeps(item),
            |item| health_json(alloc, item),
        ),
    }
}
