//! One service and one check as JSON.

ghost use Rattle.std.specs.Prelude.{◌≡◌, IfOk, map};
ghost use Rattle.serde_json.specs.Data.{array, string};
ghost use Rattle.serde_json.specs.View.{view, items_of};
ghost use Rattle.cluster_rules.specs.AgentBodies.{check_data, service_data, status_text};

use cat_model::{CheckView, ServiceRow, Status, Text};
use serde_json::{Value, json};
use std::alloc::{AllocError, Global};

fn tags_json(alloc: Global, tags: &[Text]) -> Result<Value, AllocError>
    ensures { IfOk result (λ json. view json ≡ array (items_of (map string tags.now))) }
{
    let mut all = Vec::new(alloc);
    for tag in tags {
        let text = String::from_str(alloc, tag.as_str())?;
        all.push(Value::String(text))?;
    }
    Ok(Value::Array(all))
}

fn status_name(status: Status) -> &'static str
    ensures { result.now ≡ status_text status }
{
    match status {
        Status::Passing => "passing",
        Status::Warning => "warning",
        Status::Critical => "critical",
    }
}

pub(crate) fn service_json(alloc: Global, row: &ServiceRow) -> Result<Value, AllocError>
    ensures { IfOk result (λ json. view json ≡ service_data row.now) }
{
    let tags = tags_json(alloc, row.tags.as_slice())?;
    json!(in alloc; {
        "Address": row.address.as_str(),
        "EnableTagOverride": row.tag_override,
        "ID": row.id.as_str(),
        "Port": row.port,
        "Service": row.name.as_str(),
        "Tags": tags
    })
}

pub(crate) fn check_json(alloc: Global, check: &CheckView) -> Result<Value, AllocError>
    ensures { IfOk result (λ json. view json ≡ check_data check.now) }
{
    let row = &check.row;
    json!(in alloc; {
        "CheckID": row.id.as_str(),
        "Name": row.name.as_str(),
        "Node": row.node.as_str(),
        "Notes": row.notes.as_str(),
        "Output": row.output.as_str(),
        "ServiceID": row.service.as_str(),
        "ServiceName": check.service_name.as_str(),
        "Status": status_name(row.status)
    })
}
