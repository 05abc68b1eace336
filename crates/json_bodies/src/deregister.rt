//! The body of a deregistration.

ghost use Rattle.serde_json.specs.View.{view};
ghost use Rattle.json_bodies.specs.Errors.{Gives};
ghost use Rattle.json_bodies.specs.Deregisters.{deregister_at};
ghost use Rattle.json_bodies.specs.Deregisters as spec;

use crate::member::{filled_text_of, is_object, json, text_of};
use crate::register::center_of;
use crate::{Field, ReadError};
use cat_model::Command;
use serde_json::Value;
use std::alloc::Global;

/// The deregistration of an object.
#[tactic(auto, unfolding(crate::specs::Deregisters::deregister_at))]
fn deregister_of(alloc: Global, value: &Value) -> Result<Command, ReadError>
    ensures { Gives result (deregister_at (view value.now)) }
{
    is_object(value)?;
    center_of(alloc, value)?;
    let node = filled_text_of(alloc, value, Field::Node)?;
    let service = text_of(alloc, value, Field::ServiceId)?;
    let check = text_of(alloc, value, Field::CheckId)?;
    Ok(Command::Deregister {
        node,
        service,
        check,
    })
}

/// The deregistration that a body asks for.
#[tactic(auto, unfolding(crate::specs::Deregisters::deregister_of))]
pub fn read_deregister(alloc: Global, body: &[u8]) -> Result<Command, ReadError>
    ensures { Gives result (spec.deregister_of body.now) }
{
    let value = json(alloc, body)?;
    deregister_of(alloc, &value)
}
