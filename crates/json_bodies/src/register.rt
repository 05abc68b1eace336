//! The body of a registration.

ghost use Rattle.serde_json.specs.View.{view, items_view};
ghost use Rattle.json_bodies.specs.Errors.{Gives};
ghost use Rattle.json_bodies.specs.Members.{each};
ghost use Rattle.json_bodies.specs.Registers.{center_at, check_at, a_check, checks_at, one_at, port_at, service_at, register_at};
ghost use Rattle.json_bodies.specs.Registers as spec;

use crate::member::{
    filled_text_of, flag_of, is_object, json, member, number_of, or_other, refuse_if, text_of,
    texts_of,
};
use crate::status::status_of;
use crate::{Field, ReadError};
use cat_model::{Command, List, NewCheck, NewService};
use serde_json::Value;
use std::alloc::Global;

/// Refuses another datacenter.
#[tactic(auto, unfolding(crate::specs::Registers::center_at))]
pub(crate) fn center_of(alloc: Global, value: &Value) -> Result<(), ReadError>
    ensures { Gives result (center_at (view value.now)) }
{
    let center = text_of(alloc, value, Field::Datacenter)?;
    let name = center.as_str();
    refuse_if(!name.is_empty() && name != "dc1", Field::Dc)
}

/// A check.
#[tactic(auto, unfolding(crate::specs::Registers::check_at))]
fn check_of(alloc: Global, value: &Value) -> Result<NewCheck, ReadError>
    ensures { Gives result (check_at (view value.now)) }
{
    let id = text_of(alloc, value, Field::CheckId)?;
    let name = text_of(alloc, value, Field::Name)?;
    refuse_if(
        id.as_str().is_empty() && name.as_str().is_empty(),
        Field::CheckId,
    )?;
    let status = status_of(value)?;
    let notes = text_of(alloc, value, Field::Notes)?;
    let output = text_of(alloc, value, Field::Output)?;
    let service = text_of(alloc, value, Field::ServiceId)?;
    Ok(NewCheck {
        id: or_other(alloc, &id, &name)?,
        name: or_other(alloc, &name, &id)?,
        status,
        notes,
        output,
        service,
    })
}

/// A check of a list.
fn item_of(alloc: Global, value: &Value) -> Result<NewCheck, ReadError>
    ensures { Gives result (a_check (view value.now)) }
{
    match value.as_object() {
        Some(_) => check_of(alloc, value),
        None => Err(ReadError::Invalid(Field::Checks)),
    }
}

/// The checks of an array.
fn checks_in(alloc: Global, list: &[Value]) -> Result<List<NewCheck>, ReadError>
    ensures { Gives result (each a_check (items_view list.now)) }
{
    let mut checks = List::new(alloc);
    'list: for value in list {
        let check = item_of(alloc, value)?;
        checks.push(check)?;
    }
    Ok(checks)
}

/// The checks of the member Checks.
#[tactic(auto, unfolding(crate::specs::Registers::checks_at))]
fn checks_of(alloc: Global, value: &Value) -> Result<List<NewCheck>, ReadError>
    ensures { Gives result (checks_at (view value.now)) }
{
    match member(value, Field::Checks) {
        None => Ok(List::new(alloc)),
        Some(found) => match found.as_array() {
            Some(list) => checks_in(alloc, list.as_slice()),
            None => Err(ReadError::Invalid(Field::Checks)),
        },
    }
}

/// The check of the member Check, as a list.
#[tactic(auto, unfolding(crate::specs::Registers::one_at))]
fn one_of(alloc: Global, value: &Value) -> Result<List<NewCheck>, ReadError>
    ensures { Gives result (one_at (view value.now)) }
{
    match member(value, Field::Check) {
        None => Ok(List::new(alloc)),
        Some(found) => match found.as_object() {
            Some(_) => {
                let check = check_of(alloc, found)?;
                let mut checks = List::new(alloc);
                checks.push(check)?;
                Ok(checks)
            }
            None => Err(ReadError::Invalid(Field::Check)),
        },
    }
}

/// A port.
#[tactic(auto, unfolding(crate::specs::Registers::port_at))]
pub(crate) fn port_of(value: &Value) -> Result<u16, ReadError>
    ensures { Gives result (port_at (view value.now)) }
{
    let number = number_of(value, Field::Port)?;
    if number <= 65535 {
        Ok(number as u16)
    } else {
        Err(ReadError::Invalid(Field::Port))
    }
}

/// A service.
#[tactic(auto, unfolding(crate::specs::Registers::service_at))]
fn service_of(alloc: Global, value: &Value) -> Result<NewService, ReadError>
    ensures { Gives result (service_at (view value.now)) }
{
    let id = text_of(alloc, value, Field::Id)?;
    let name = filled_text_of(alloc, value, Field::Service)?;
    let tags = texts_of(alloc, value, Field::Tags)?;
    let address = text_of(alloc, value, Field::Address)?;
    let port = port_of(value)?;
    let tag_override = flag_of(value, Field::EnableTagOverride)?;
    Ok(NewService {
        id: or_other(alloc, &id, &name)?,
        name,
        tags,
        address,
        port,
        tag_override,
    })
}

/// The service of the member Service.
#[tactic(auto, unfolding(crate::specs::Registers::service_in))]
fn service_in(alloc: Global, value: &Value) -> Result<Option<NewService>, ReadError>
    ensures { Gives result (spec.service_in (view value.now)) }
{
    match member(value, Field::Service) {
        None => Ok(None),
        Some(found) => match found.as_object() {
            Some(_) => Ok(Some(service_of(alloc, found)?)),
            None => Err(ReadError::Invalid(Field::Service)),
        },
    }
}

/// The registration of an object.
#[tactic(auto, unfolding(crate::specs::Registers::register_at))]
fn register_of(alloc: Global, value: &Value) -> Result<Command, ReadError>
    ensures { Gives result (register_at (view value.now)) }
{
    is_object(value)?;
    center_of(alloc, value)?;
    let node = filled_text_of(alloc, value, Field::Node)?;
    let address = filled_text_of(alloc, value, Field::Address)?;
    let service = service_in(alloc, value)?;
    let mut checks = one_of(alloc, value)?.into_vec();
    let mut more = checks_of(alloc, value)?.into_vec();
    checks.append(&mut more)?;
    Ok(Command::Register {
        node,
        address,
        service,
        checks: List::from(checks),
    })
}

/// The registration that a body asks for.
#[tactic(auto, unfolding(crate::specs::Registers::register_of))]
pub fn read_register(alloc: Global, body: &[u8]) -> Result<Command, ReadError>
    ensures { Gives result (spec.register_of body.now) }
{
    let value = json(alloc, body)?;
    register_of(alloc, &value)
}
