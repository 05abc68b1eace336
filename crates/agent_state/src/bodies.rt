//! The bodies as bytes.

ghost use Rattle.std.specs.Prelude.{◌≡◌, false, IfOk};
ghost use Rattle.serde_json.specs.View.{view};
ghost use Rattle.serde_json.specs.Written.{compact_text, has_float};
ghost use Rattle.cluster_rules.specs.AgentBodies.{services_body, checks_body};

use crate::named::{checks_json, services_json};
use cat_model::{Bytes, CheckView, Memory, ServiceRow};
use serde_json::Value;
use std::alloc::Global;

// The text of a value that has no number with a fraction.
fn text_of(alloc: Global, json: &Value) -> Result<Bytes, Memory>
    requires { has_float (view json.now) ≡ false }
    ensures { IfOk result (λ bytes. bytes ≡ compact_text (view json.now)) }
{
    Ok(Bytes::from(json.to_vec(alloc)?))
}

/// The body that shows these services: an object by their IDs. Of two services with one ID it shows the first.
#[tactic(auto, using(crate::proofs::Plain::services_plain), unfolding(cluster_rules::specs::AgentBodies::services_body))]
pub fn services_body(alloc: Global, rows: &[ServiceRow]) -> Result<Bytes, Memory>
    ensures { IfOk result (λ bytes. bytes ≡ services_body rows.now) }
{
    let json = services_json(alloc, rows)?;
    text_of(alloc, &json)
}

/// The body that shows these checks: an object by their IDs. Of two checks with one ID it shows the first.
#[tactic(auto, using(crate::proofs::Plain::checks_plain), unfolding(cluster_rules::specs::AgentBodies::checks_body))]
pub fn checks_body(alloc: Global, checks: &[CheckView]) -> Result<Bytes, Memory>
    ensures { IfOk result (λ bytes. bytes ≡ checks_body checks.now) }
{
    let json = checks_json(alloc, checks)?;
    text_of(alloc, &json)
}
