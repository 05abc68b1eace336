//! The members of objects: a name is compared without ASCII case, and null is absent.

ghost use Rattle.std.specs.Prelude.{◌≡◌, [], IfOk, option_map};
ghost use Rattle.std.specs.Str.{str_eq_ignore_ascii_case};
ghost use Rattle.serde_json.specs.View.{view, members_view, items_view};
ghost use Rattle.json_bodies.specs.Errors.{Gives, GivesSeen};
ghost use Rattle.json_bodies.specs.Errors as errors;
ghost use Rattle.json_bodies.specs.Members.{json_of, object_only, like, found_at, data_at, text_at, filled_text_at, number_at, flag_at, texts_at, text_or, each, a_text};

use crate::{Field, ReadError};
use cat_model::{List, Memory, Text, Texts};
use serde_json::{Map, Value};
use std::alloc::Global;

/// The JSON of a body.
#[tactic(auto, using(crate::proofs::Texts::json_ok, crate::proofs::Texts::json_err))]
pub(crate) fn json(alloc: Global, body: &[u8]) -> Result<Value, ReadError>
    ensures { GivesSeen view result (json_of body.now) }
{
    match Value::from_slice(alloc, body) {
        Ok(value) => Ok(value),
        Err(error) => {
            if error.is_memory() {
                Err(ReadError::Memory)
            } else {
                Err(ReadError::Invalid(Field::Body))
            }
        }
    }
}

/// Refuses the field where the test holds.
pub(crate) fn refuse_if(wrong: bool, field: Field) -> Result<(), ReadError>
    ensures { Gives result (errors.refuse_if wrong field) }
{
    if wrong {
        Err(ReadError::Invalid(field))
    } else {
        Ok(())
    }
}

/// Refuses a body that is no object.
pub(crate) fn is_object(value: &Value) -> Result<(), ReadError>
    ensures { Gives result (object_only (view value.now)) }
{
    refuse_if(!value.is_object(), Field::Body)
}

/// Whether two names differ at most in the case of their letters.
fn is_like(key: &str, name: &str) -> bool
    ensures { result ≡ str_eq_ignore_ascii_case key.now name.now }
{
    key.eq_ignore_ascii_case(name)
}

/// The first member whose name differs at most in the case of its letters.
fn first_like<'v>(map: &'v Map<String, Value>, name: &str) -> Option<&'v Value>
    ensures { option_map (λ v. view v.now) result ≡ like name.now (members_view map.now.entries) }
{
    'members: for (key, value) in map {
        if is_like(key.as_str(), name) {
            return Some(value);
        }
    }
    None
}

/// The member of just that name, or else the first that is like it.
fn find_member<'v>(value: &'v Value, name: &str) -> Option<&'v Value>
    ensures { option_map (λ v. view v.now) result ≡ found_at name.now (view value.now) }
{
    match value.get(name) {
        Some(found) => Some(found),
        None => match value.as_object() {
            Some(map) => first_like(map, name),
            None => None,
        },
    }
}

/// The member with the field's name, where null is absent.
pub(crate) fn member(value: &Value, field: Field) -> Option<&Value>
    ensures { option_map (λ v. view v.now) result ≡ data_at field (view value.now) }
{
    match find_member(value, field.text()) {
        Some(found) => if found.is_null() { None } else { Some(found) },
        None => None,
    }
}

/// The empty text, which takes no memory.
pub(crate) fn empty_text(alloc: Global) -> Text
    ensures { result ≡ [] }
{
    Text::from(String::new(alloc))
}

/// A text, or the empty text.
#[tactic(auto, unfolding(crate::specs::Members::text_at))]
pub(crate) fn text_of(alloc: Global, value: &Value, field: Field) -> Result<Text, ReadError>
    ensures { Gives result (text_at field (view value.now)) }
{
    match member(value, field) {
        None => Ok(empty_text(alloc)),
        Some(found) => match found.as_str() {
            Some(text) => Ok(Text::new(alloc, text)?),
            None => Err(ReadError::Invalid(field)),
        },
    }
}

/// A text that is not empty.
#[tactic(auto, unfolding(crate::specs::Members::filled_text_at))]
pub(crate) fn filled_text_of(alloc: Global, value: &Value, field: Field) -> Result<Text, ReadError>
    ensures { Gives result (filled_text_at field (view value.now)) }
{
    let text = text_of(alloc, value, field)?;
    refuse_if(text.as_str().is_empty(), field)?;
    Ok(text)
}

/// A whole number, or 0.
#[tactic(auto, unfolding(crate::specs::Members::number_at))]
pub(crate) fn number_of(value: &Value, field: Field) -> Result<u64, ReadError>
    ensures { Gives result (number_at field (view value.now)) }
{
    match member(value, field) {
        None => Ok(0),
        Some(found) => match found.as_u64() {
            Some(number) => Ok(number),
            None => Err(ReadError::Invalid(field)),
        },
    }
}

/// A truth value, or false.
#[tactic(auto, unfolding(crate::specs::Members::flag_at))]
pub(crate) fn flag_of(value: &Value, field: Field) -> Result<bool, ReadError>
    ensures { Gives result (flag_at field (view value.now)) }
{
    match member(value, field) {
        None => Ok(false),
        Some(found) => match found.as_bool() {
            Some(flag) => Ok(flag),
            None => Err(ReadError::Invalid(field)),
        },
    }
}

/// The texts of an array.
pub(crate) fn texts_in(alloc: Global, list: &[Value], field: Field) -> Result<Texts, ReadError>
    ensures { Gives result (each (a_text field) (items_view list.now)) }
{
    let mut texts = List::new(alloc);
    'list: for value in list {
        match value.as_str() {
            Some(text) => texts.push(Text::new(alloc, text)?)?,
            None => return Err(ReadError::Invalid(field)),
        }
    }
    Ok(texts)
}

/// A list of texts, or the empty list.
#[tactic(auto, unfolding(crate::specs::Members::texts_at))]
pub(crate) fn texts_of(alloc: Global, value: &Value, field: Field) -> Result<Texts, ReadError>
    ensures { Gives result (texts_at field (view value.now)) }
{
    match member(value, field) {
        None => Ok(List::new(alloc)),
        Some(found) => match found.as_array() {
            Some(list) => texts_in(alloc, list.as_slice(), field),
            None => Err(ReadError::Invalid(field)),
        },
    }
}

/// A copy of the text, or of another where it is empty.
pub(crate) fn or_other(alloc: Global, text: &Text, other: &Text) -> Result<Text, Memory>
    ensures { IfOk result (λ t. t ≡ text_or text.now other.now) }
{
    if text.as_str().is_empty() {
        Text::new(alloc, other.as_str())
    } else {
        Text::new(alloc, text.as_str())
    }
}
