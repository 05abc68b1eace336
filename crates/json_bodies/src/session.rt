//! The body of a session's creation.

ghost use Rattle.std.specs.Prelude.{◌≡◌, ◌≤◌, ◌++◌, IfOk, IfSome};
ghost use Rattle.serde_json.specs.Find.{as_str};
ghost use Rattle.serde_json.specs.View.{view, items_view};
ghost use Rattle.json_bodies.specs.Errors.{Gives, GivesSeen};
ghost use Rattle.json_bodies.specs.Members.{as_whole};
ghost use Rattle.json_bodies.specs.Sessions.{behavior_at, delay_at, delay_given, given_texts_at, is_no_item, joined, json_or_nothing, no_service_checks, session_at, session_checks_at, ttl_at, ttl_named};
ghost use Rattle.json_bodies.specs.Sessions as spec;

use crate::durations::duration;
use crate::member::{is_object, json, member, text_of, texts_in};
use crate::{Field, ReadError};
use cat_model::{Behavior, List, Memory, Text, Texts};
use serde_json::{Map, Value};
use std::alloc::Global;

/// A session as a client asks for it. An empty node is that of its agent, and a `ttl_ms` of 0 is no TTL.
#[derive(Debug, Drop)]
pub struct NewSession {
    pub name: Text,
    pub node: Text,
    pub checks: Texts,
    pub behavior: Behavior,
    pub delay_ms: u64,
    pub ttl_ms: u64,
}

fn delay_of_number(number: u64) -> u64
    ensures { result ≡ spec.delay_of_number number }
{
    if number < 1_000 {
        number * 1_000
    } else {
        number / 1_000_000
    }
}

fn given_delay(value: &Value) -> Option<u64>
    ensures { result ≡ delay_given (as_str (view value.now)) (as_whole (view value.now)) }
{
    match value.as_str() {
        Some(text) => duration(text),
        None => match value.as_u64() {
            Some(number) => Some(delay_of_number(number)),
            None => None,
        },
    }
}

/// The lock delay.
#[tactic(auto, unfolding(crate::specs::Sessions::delay_at))]
fn delay_of(value: &Value) -> Result<u64, ReadError>
    ensures gives { Gives result (delay_at (view value.now)) }
    ensures few { IfOk result (λ delay. delay ≤ 60000) }
{
    match member(value, Field::LockDelay) {
        None => Ok(15_000),
        Some(found) => match given_delay(found) {
            Some(delay) if delay <= 60_000 => Ok(delay),
            _ => Err(ReadError::Invalid(Field::LockDelay)),
        },
    }
}

/// What becomes of its keys.
#[tactic(auto, unfolding(crate::specs::Sessions::behavior_at))]
fn behavior_of(value: &Value) -> Result<Behavior, ReadError>
    ensures { Gives result (behavior_at (view value.now)) }
{
    match member(value, Field::Behavior) {
        None => Ok(Behavior::Release),
        Some(found) => match found.as_str() {
            Some("") => Ok(Behavior::Release),
            Some("release") => Ok(Behavior::Release),
            Some("delete") => Ok(Behavior::Delete),
            _ => Err(ReadError::Invalid(Field::Behavior)),
        },
    }
}

fn ttl_in(text: &str) -> Option<u64>
    ensures value { result ≡ ttl_named text.now }
    ensures few { IfSome result (λ ttl. ttl ≤ 86400000) }
{
    if text.is_empty() {
        return Some(0);
    }
    match duration(text) {
        Some(ttl) if 10_000 <= ttl && ttl <= 86_400_000 => Some(ttl),
        _ => None,
    }
}

/// The TTL.
#[tactic(auto, unfolding(crate::specs::Sessions::ttl_at))]
fn ttl_of(value: &Value) -> Result<u64, ReadError>
    ensures gives { Gives result (ttl_at (view value.now)) }
    ensures few { IfOk result (λ ttl. ttl ≤ 86400000) }
{
    match member(value, Field::Ttl) {
        None => Ok(0),
        Some(found) => match found.as_str() {
            Some(text) => match ttl_in(text) {
                Some(ttl) => Ok(ttl),
                None => Err(ReadError::Invalid(Field::Ttl)),
            },
            None => Err(ReadError::Invalid(Field::Ttl)),
        },
    }
}

/// The texts of a list, where there is one.
#[tactic(auto, unfolding(crate::specs::Sessions::given_texts_at))]
fn given_texts(alloc: Global, value: &Value, field: Field) -> Result<Option<Texts>, ReadError>
    ensures { Gives result (given_texts_at field (view value.now)) }
{
    match member(value, field) {
        None => Ok(None),
        Some(found) => match found.as_array() {
            Some(list) => Ok(Some(texts_in(alloc, list.as_slice(), field)?)),
            None => Err(ReadError::Invalid(field)),
        },
    }
}

fn append(front: Texts, back: Texts) -> Result<Texts, Memory>
    ensures { IfOk result (λ all. all ≡ front ++ back) }
{
    let mut all = front.into_vec();
    let mut more = back.into_vec();
    all.append(&mut more)?;
    Ok(List::from(all))
}

fn join(alloc: Global, checks: Option<Texts>, more: Option<Texts>) -> Result<Texts, Memory>
    ensures { IfOk result (λ all. all ≡ joined checks more) }
{
    match (checks, more) {
        (None, None) => {
            let mut own = List::new(alloc);
            own.push(Text::new(alloc, "serfHealth")?)?;
            Ok(own)
        }
        (None, Some(more)) => Ok(more),
        (Some(checks), None) => Ok(checks),
        (Some(checks), Some(more)) => append(checks, more),
    }
}

fn is_empty(list: &[Value]) -> bool
    ensures { result ≡ is_no_item (items_view list.now) }
{
    list.is_empty()
}

/// Refuses checks of services.
#[tactic(auto, unfolding(crate::specs::Sessions::no_service_checks))]
fn has_no_service_checks(value: &Value) -> Result<(), ReadError>
    ensures { Gives result (no_service_checks (view value.now)) }
{
    match member(value, Field::ServiceChecks) {
        None => Ok(()),
        Some(found) => match found.as_array() {
            Some(list) if is_empty(list.as_slice()) => Ok(()),
            _ => Err(ReadError::Invalid(Field::ServiceChecks)),
        },
    }
}

/// The checks.
#[tactic(auto, unfolding(crate::specs::Sessions::session_checks_at))]
fn checks_of(alloc: Global, value: &Value) -> Result<Texts, ReadError>
    ensures { Gives result (session_checks_at (view value.now)) }
{
    let checks = given_texts(alloc, value, Field::Checks)?;
    let more = given_texts(alloc, value, Field::NodeChecks)?;
    has_no_service_checks(value)?;
    Ok(join(alloc, checks, more)?)
}

/// The session of an object.
#[tactic(auto, unfolding(crate::specs::Sessions::session_at))]
fn session_of(alloc: Global, value: &Value) -> Result<NewSession, ReadError>
    ensures gives { Gives result (session_at (view value.now)) }
    ensures delay { IfOk result (λ session. session.delay_ms ≤ 60000) }
    ensures ttl { IfOk result (λ session. session.ttl_ms ≤ 86400000) }
{
    is_object(value)?;
    let name = text_of(alloc, value, Field::Name)?;
    let node = text_of(alloc, value, Field::Node)?;
    let delay_ms = delay_of(value)?;
    let behavior = behavior_of(value)?;
    let ttl_ms = ttl_of(value)?;
    let checks = checks_of(alloc, value)?;
    Ok(NewSession {
        name,
        node,
        checks,
        behavior,
        delay_ms,
        ttl_ms,
    })
}

/// The JSON of a body, or an object without members where it is empty.
#[tactic(auto, unfolding(crate::specs::Sessions::json_or_nothing))]
fn json_or_nothing_of(alloc: Global, body: &[u8]) -> Result<Value, ReadError>
    ensures { GivesSeen view result (json_or_nothing body.now) }
{
    if body.is_empty() {
        Ok(Value::Object(Map::new(alloc)))
    } else {
        json(alloc, body)
    }
}

/// The session that a body asks for. An empty body is an object without members.
#[tactic(auto, unfolding(crate::specs::Sessions::session_of))]
pub fn read_session(alloc: Global, body: &[u8]) -> Result<NewSession, ReadError>
    ensures gives { Gives result (spec.session_of body.now) }
    ensures delay { IfOk result (λ session. session.delay_ms ≤ 60000) }
    ensures ttl { IfOk result (λ session. session.ttl_ms ≤ 86400000) }
{
    let value = json_or_nothing_of(alloc, body)?;
    session_of(alloc, &value)
}
