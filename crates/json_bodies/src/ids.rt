//! Identifiers as texts.

ghost use Rattle.std.specs.Prelude.{◌≡◌};
ghost use Rattle.serde_json.specs.View.{view};
ghost use Rattle.json_bodies.specs.Errors.{Gives};
ghost use Rattle.json_bodies.specs.Ids.{id_parsed, session_id_at, session_named};

use crate::member::member;
use crate::{Field, ReadError};
use serde_json::Value;
use uuid::Uuid;

/// The identifier of a text.
fn id_of(text: &str) -> Option<u128>
    ensures { result ≡ id_parsed text.now }
{
    match Uuid::parse_str(text) {
        Ok(uuid) => Some(uuid.as_u128()),
        Err(_) => None,
    }
}

fn named(text: &str) -> Option<Option<u128>>
    ensures { result ≡ session_named text.now }
{
    if text.is_empty() {
        Some(None)
    } else {
        match id_of(text) {
            Some(id) => Some(Some(id)),
            None => None,
        }
    }
}

/// The session's identifier, or none.
#[tactic(auto, unfolding(crate::specs::Ids::session_id_at))]
pub(crate) fn session_id_of(value: &Value) -> Result<Option<u128>, ReadError>
    ensures { Gives result (session_id_at (view value.now)) }
{
    match member(value, Field::Session) {
        None => Ok(None),
        Some(found) => match found.as_str() {
            Some(text) => match named(text) {
                Some(id) => Ok(id),
                None => Err(ReadError::Invalid(Field::Session)),
            },
            None => Err(ReadError::Invalid(Field::Session)),
        },
    }
}
