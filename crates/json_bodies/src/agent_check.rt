//! The bodies on an agent's checks.

ghost use Rattle.std.specs.Prelude.{◌≡◌, option_and_then};
ghost use Rattle.serde_json.specs.View.{view};
ghost use Rattle.json_bodies.specs.AgentChecks.{above_zero, agent_check_at, check_ttl_at, given_status_at, not_own, update_at};
ghost use Rattle.json_bodies.specs.AgentChecks as spec;
ghost use Rattle.json_bodies.specs.Durations.{duration_of};
ghost use Rattle.json_bodies.specs.Errors.{Gives};

use crate::durations::duration;
use crate::member::{is_object, json, member, or_other, refuse_if, text_of};
use crate::status::status_of;
use crate::{Field, ReadError};
use cat_model::{Status, Text, TtlDef};
use serde_json::Value;
use std::alloc::Global;

/// What an agent's check is set to.
#[derive(Debug, Drop)]
pub struct CheckUpdate {
    pub status: Status,
    pub output: Text,
}

fn ttl_in(text: &str) -> Option<u64>
    ensures { result ≡ option_and_then above_zero (duration_of text.now) }
{
    match duration(text) {
        Some(ttl) if ttl > 0 => Some(ttl),
        _ => None,
    }
}

/// A check's TTL, which it has.
#[tactic(auto, unfolding(crate::specs::AgentChecks::check_ttl_at))]
pub(crate) fn check_ttl_of(value: &Value) -> Result<u64, ReadError>
    ensures { Gives result (check_ttl_at (view value.now)) }
{
    match member(value, Field::Ttl) {
        None => Err(ReadError::Invalid(Field::Ttl)),
        Some(found) => match found.as_str() {
            Some(text) => match ttl_in(text) {
                Some(ttl) => Ok(ttl),
                None => Err(ReadError::Invalid(Field::Ttl)),
            },
            None => Err(ReadError::Invalid(Field::Ttl)),
        },
    }
}

/// Refuses the ID of the agent's own check.
pub(crate) fn is_not_own(id: &Text) -> Result<(), ReadError>
    ensures { Gives result (not_own id.now) }
{
    refuse_if(id.as_str() == "serfHealth", Field::CheckId)
}

/// The check of an object.
#[tactic(auto, unfolding(crate::specs::AgentChecks::agent_check_at))]
fn check_of(alloc: Global, value: &Value) -> Result<TtlDef, ReadError>
    ensures { Gives result (agent_check_at (view value.now)) }
{
    is_object(value)?;
    let given = text_of(alloc, value, Field::Id)?;
    let name = text_of(alloc, value, Field::Name)?;
    refuse_if(
        given.as_str().is_empty() && name.as_str().is_empty(),
        Field::Name,
    )?;
    let id = or_other(alloc, &given, &name)?;
    is_not_own(&id)?;
    let service = text_of(alloc, value, Field::ServiceId)?;
    let notes = text_of(alloc, value, Field::Notes)?;
    let status = status_of(value)?;
    let ttl_ms = check_ttl_of(value)?;
    Ok(TtlDef {
        id,
        name: or_other(alloc, &name, &given)?,
        notes,
        service,
        status,
        ttl_ms,
    })
}

/// The check that a body asks an agent for. Whether the agent has the check's service is not told here.
#[tactic(auto, unfolding(crate::specs::AgentChecks::agent_check_of))]
pub fn read_agent_check(alloc: Global, body: &[u8]) -> Result<TtlDef, ReadError>
    ensures { Gives result (spec.agent_check_of body.now) }
{
    let value = json(alloc, body)?;
    check_of(alloc, &value)
}

/// The status, which an update has.
#[tactic(auto, unfolding(crate::specs::AgentChecks::given_status_at, crate::specs::Statuses::status_at))]
fn given_status(value: &Value) -> Result<Status, ReadError>
    ensures { Gives result (given_status_at (view value.now)) }
{
    match member(value, Field::Status) {
        None => Err(ReadError::Invalid(Field::Status)),
        Some(_) => status_of(value),
    }
}

/// The update of an object.
#[tactic(auto, unfolding(crate::specs::AgentChecks::update_at))]
fn update_of(alloc: Global, value: &Value) -> Result<CheckUpdate, ReadError>
    ensures { Gives result (update_at (view value.now)) }
{
    is_object(value)?;
    let status = given_status(value)?;
    let output = text_of(alloc, value, Field::Output)?;
    Ok(CheckUpdate { status, output })
}

/// What a body sets an agent's check to.
#[tactic(auto, unfolding(crate::specs::AgentChecks::update_of))]
pub fn read_check_update(alloc: Global, body: &[u8]) -> Result<CheckUpdate, ReadError>
    ensures { Gives result (spec.update_of body.now) }
{
    let value = json(alloc, body)?;
    update_of(alloc, &value)
}
