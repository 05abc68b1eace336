//! Objects with a member for each service or check, by its ID.

ghost use Rattle.std.specs.Prelude.{◌≡◌, IfOk};
ghost use Rattle.serde_json.specs.Data.{object};
ghost use Rattle.serde_json.specs.View.{view};
ghost use Rattle.cluster_rules.specs.AgentBodies.{by_name, check_data, service_data};

use crate::json::{check_json, service_json};
use cat_model::{CheckView, Memory, ServiceRow};
use serde_json::{Map, Value};
use std::alloc::Global;

pub(crate) fn services_json(alloc: Global, rows: &[ServiceRow]) -> Result<Value, Memory>
    ensures { IfOk result (λ json. view json ≡ object (by_name (λ s. s.id) service_data rows.now)) }
{
    let mut members = Map::new(alloc);
    let mut left = rows;
    while let Some((row, before)) = left.split_last() {
        let id = String::from_str(alloc, row.id.as_str())?;
        let service = service_json(alloc, row)?;
        members.insert(id, service)?;
        left = before;
    }
    Ok(Value::Object(members))
}

pub(crate) fn checks_json(alloc: Global, checks: &[CheckView]) -> Result<Value, Memory>
    ensures { IfOk result (λ json. view json ≡ object (by_name (λ x. x.row.id) check_data checks.now)) }
{
    let mut members = Map::new(alloc);
    let mut left = checks;
    while let Some((item, before)) = left.split_last() {
        let id = String::from_str(alloc, item.row.id.as_str())?;
        let check = check_json(alloc, item)?;
        members.insert(id, check)?;
        left = before;
    }
    Ok(Value::Object(members))
}
