//! The body of a service for an agent.

ghost use Rattle.std.specs.Prelude.{◌≡◌, IfOk};
ghost use Rattle.serde_json.specs.View.{view, items_view};
ghost use Rattle.json_bodies.specs.AgentServices.{a_given, add_service_at, all_named, default_id, first_given_at, given_check_at, given_checks_at, named, service_def_at};
ghost use Rattle.json_bodies.specs.AgentServices as spec;
ghost use Rattle.json_bodies.specs.Errors.{Gives};
ghost use Rattle.json_bodies.specs.Members.{each};

use crate::agent_check::{check_ttl_of, is_not_own};
use crate::member::{
    empty_text, filled_text_of, flag_of, is_object, json, member, or_other, text_of, texts_of,
};
use crate::register::port_of;
use crate::status::status_of;
use crate::{Field, ReadError};
use cat_model::{AgentOp, List, Memory, ServiceDef, Text, TtlDef};
use serde_json::Value;
use std::alloc::Global;

/// The service alone.
#[tactic(auto, unfolding(crate::specs::AgentServices::service_def_at))]
fn service_of(alloc: Global, value: &Value) -> Result<ServiceDef, ReadError>
    ensures { Gives result (service_def_at (view value.now)) }
{
    let id = text_of(alloc, value, Field::Id)?;
    let name = filled_text_of(alloc, value, Field::Name)?;
    let tags = texts_of(alloc, value, Field::Tags)?;
    let address = text_of(alloc, value, Field::Address)?;
    let port = port_of(value)?;
    let tag_override = flag_of(value, Field::EnableTagOverride)?;
    Ok(ServiceDef {
        id: or_other(alloc, &id, &name)?,
        name,
        tags,
        address,
        port,
        tag_override,
    })
}

/// A check as it stands in the body.
#[tactic(auto, unfolding(crate::specs::AgentServices::given_check_at))]
fn given_check(alloc: Global, value: &Value) -> Result<TtlDef, ReadError>
    ensures { Gives result (given_check_at (view value.now)) }
{
    let id = text_of(alloc, value, Field::CheckId)?;
    let name = text_of(alloc, value, Field::Name)?;
    is_not_own(&id)?;
    let notes = text_of(alloc, value, Field::Notes)?;
    let status = status_of(value)?;
    let ttl_ms = check_ttl_of(value)?;
    Ok(TtlDef {
        id,
        name,
        notes,
        service: empty_text(alloc),
        status,
        ttl_ms,
    })
}

/// A check of a list.
fn item_of(alloc: Global, value: &Value) -> Result<TtlDef, ReadError>
    ensures { Gives result (a_given (view value.now)) }
{
    match value.as_object() {
        Some(_) => given_check(alloc, value),
        None => Err(ReadError::Invalid(Field::Checks)),
    }
}

/// The checks of an array.
fn given_in(alloc: Global, list: &[Value]) -> Result<List<TtlDef>, ReadError>
    ensures { Gives result (each a_given (items_view list.now)) }
{
    let mut checks = List::new(alloc);
    'list: for value in list {
        let check = item_of(alloc, value)?;
        checks.push(check)?;
    }
    Ok(checks)
}

/// The checks of the member Checks.
#[tactic(auto, unfolding(crate::specs::AgentServices::given_checks_at))]
fn given_checks(alloc: Global, value: &Value) -> Result<List<TtlDef>, ReadError>
    ensures { Gives result (given_checks_at (view value.now)) }
{
    match member(value, Field::Checks) {
        None => Ok(List::new(alloc)),
        Some(found) => match found.as_array() {
            Some(list) => given_in(alloc, list.as_slice()),
            None => Err(ReadError::Invalid(Field::Checks)),
        },
    }
}

/// The check of the member Check, as a list.
#[tactic(auto, unfolding(crate::specs::AgentServices::first_given_at))]
fn first_given(alloc: Global, value: &Value) -> Result<List<TtlDef>, ReadError>
    ensures { Gives result (first_given_at (view value.now)) }
{
    match member(value, Field::Check) {
        None => Ok(List::new(alloc)),
        Some(found) => match found.as_object() {
            Some(_) => {
                let check = given_check(alloc, found)?;
                let mut checks = List::new(alloc);
                checks.push(check)?;
                Ok(checks)
            }
            None => Err(ReadError::Invalid(Field::Check)),
        },
    }
}

fn id_for(alloc: Global, service: &str, several: bool, place: usize) -> Result<Text, Memory>
    ensures { IfOk result (λ id. id ≡ default_id service.now several place) }
{
    if several {
        Ok(Text::from(format!(in alloc; "service:{service}:{place}")?))
    } else {
        Ok(Text::from(format!(in alloc; "service:{service}")?))
    }
}

fn name_for(alloc: Global, service: &str) -> Result<Text, Memory>
    ensures { IfOk result (λ name. name ≡ spec.default_name service.now) }
{
    Ok(Text::from(format!(in alloc; "Service '{service}' check")?))
}

/// The check with its service, and with an ID and a name.
fn with_names(
    alloc: Global,
    service: &ServiceDef,
    several: bool,
    place: usize,
    check: &TtlDef,
) -> Result<TtlDef, Memory>
    ensures { IfOk result (λ t. t ≡ named service.now several place check.now) }
{
    let id = id_for(alloc, service.id.as_str(), several, place)?;
    let name = name_for(alloc, service.name.as_str())?;
    Ok(TtlDef {
        id: or_other(alloc, &check.id, &id)?,
        name: or_other(alloc, &check.name, &name)?,
        notes: Text::new(alloc, check.notes.as_str())?,
        service: Text::new(alloc, service.id.as_str())?,
        status: check.status,
        ttl_ms: check.ttl_ms,
    })
}

/// The checks with their service, and each with an ID and a name.
fn each_named(
    alloc: Global,
    service: &ServiceDef,
    checks: &[TtlDef],
) -> Result<List<TtlDef>, Memory>
    ensures { IfOk result (λ all. all ≡ all_named service.now checks.now) }
{
    let several = checks.len() > 1;
    let mut all = List::new(alloc);
    let mut place = 0;
    'checks: while place < checks.len() {
        let check = with_names(alloc, service, several, place + 1, &checks[place])?;
        all.push(check)?;
        place += 1;
    }
    Ok(all)
}

/// The service of an object.
#[tactic(auto, unfolding(crate::specs::AgentServices::add_service_at))]
fn add_service(alloc: Global, value: &Value) -> Result<AgentOp, ReadError>
    ensures { Gives result (add_service_at (view value.now)) }
{
    is_object(value)?;
    let service = service_of(alloc, value)?;
    let mut given = first_given(alloc, value)?.into_vec();
    let mut more = given_checks(alloc, value)?.into_vec();
    given.append(&mut more)?;
    let checks = each_named(alloc, &service, given.as_slice())?;
    Ok(AgentOp::AddService { service, checks })
}

/// The service that a body asks an agent for, with its checks.
#[tactic(auto, unfolding(crate::specs::AgentServices::add_service_of))]
pub fn read_agent_service(alloc: Global, body: &[u8]) -> Result<AgentOp, ReadError>
    ensures { Gives result (spec.add_service_of body.now) }
{
    let value = json(alloc, body)?;
    add_service(alloc, &value)
}
