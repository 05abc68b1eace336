//! The status of a check.

ghost use Rattle.serde_json.specs.View.{view};
ghost use Rattle.json_bodies.specs.Errors.{Gives};
ghost use Rattle.json_bodies.specs.Statuses.{status_at};

use crate::member::member;
use crate::{Field, ReadError};
use cat_model::Status;
use serde_json::Value;

/// A check's status, critical where none is given.
#[tactic(auto, unfolding(crate::specs::Statuses::status_at))]
pub(crate) fn status_of(value: &Value) -> Result<Status, ReadError>
    ensures { Gives result (status_at (view value.now)) }
{
    match member(value, Field::Status) {
        None => Ok(Status::Critical),
        Some(found) => match found.as_str() {
            Some("passing") => Ok(Status::Passing),
            Some("warning") => Ok(Status::Warning),
            Some("critical") => Ok(Status::Critical),
            _ => Err(ReadError::Invalid(Field::Status)),
        },
    }
}
