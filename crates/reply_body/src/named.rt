//! Objects with a member for each item.

ghost use Rattle.std.specs.Prelude.{◌≡◌, IfOk, Some};
ghost use Rattle.serde_json.specs.View.{view};
ghost use Rattle.row_objects.specs.Objects.{service_data};
ghost use Rattle.reply_body.specs.Rows.{by_name, services_data, node_view_data};

use crate::catalog::{node_json, service_json};
use crate::rows::names_json;
use cat_model::{Memory, NameTags, NodeRow, ServiceRow};
use serde_json::{Map, Value, json};
use std::alloc::Global;

/// The names of services with their tags.
#[tactic(auto, unfolding(crate::specs::Rows::services_data, crate::specs::Rows::by_name))]
pub(crate) fn services_json(alloc: Global, rows: &[NameTags]) -> Result<Value, Memory>
    ensures { IfOk result (λ json. view json ≡ services_data rows.now) }
{
    let mut members = Map::new(alloc);
    for row in rows {
        let name = String::from_str(alloc, row.name.as_str())?;
        let tags = names_json(alloc, row.tags.as_slice())?;
        members.insert(name, tags)?;
    }
    Ok(Value::Object(members))
}

#[tactic(auto, unfolding(crate::specs::Rows::by_name))]
fn by_id(alloc: Global, rows: &[ServiceRow]) -> Result<Value, Memory>
    ensures { IfOk result (λ json. view json ≡ by_name (λ s. s.id) service_data rows.now) }
{
    let mut members = Map::new(alloc);
    for row in rows {
        let id = String::from_str(alloc, row.id.as_str())?;
        let service = service_json(alloc, row)?;
        members.insert(id, service)?;
    }
    Ok(Value::Object(members))
}

#[tactic(auto, unfolding(crate::specs::Rows::node_view_data))]
fn node_with(alloc: Global, row: &NodeRow, services: &[ServiceRow]) -> Result<Value, Memory>
    ensures { IfOk result (λ json. view json ≡ node_view_data (Some row.now) services.now) }
{
    let node = node_json(alloc, row)?;
    let services = by_id(alloc, services)?;
    Ok(json!(in alloc; { "Node": node, "Services": services })?)
}

/// A node with its services, or null.
#[tactic(auto, unfolding(crate::specs::Rows::node_view_data))]
pub(crate) fn node_view_json(
    alloc: Global,
    row: &Option<NodeRow>,
    services: &[ServiceRow],
) -> Result<Value, Memory>
    ensures { IfOk result (λ json. view json ≡ node_view_data row.now services.now) }
{
    match row {
        None => Ok(Value::Null),
        Some(row) => node_with(alloc, row, services),
    }
}
