//! The body of a prepared query.

ghost use Rattle.std.specs.Prelude.{◌≡◌, ◌≤◌, ◌^◌, IfOk, IfSome};
ghost use Rattle.serde_json.specs.View.{view};
ghost use Rattle.json_bodies.specs.Errors.{Gives};
ghost use Rattle.json_bodies.specs.NewQueries.{dns_in, dns_ttl_at, dns_ttl_named, query_at, wanted_at, wanted_in};
ghost use Rattle.json_bodies.specs.NewQueries as spec;

use crate::durations::duration;
use crate::ids::session_id_of;
use crate::member::{filled_text_of, flag_of, is_object, json, member, text_of, texts_of};
use crate::{Field, ReadError};
use cat_model::{Text, Texts};
use serde_json::Value;
use std::alloc::Global;

/// A prepared query as a client asks for it.
#[derive(Debug, Drop)]
pub struct NewQuery {
    pub name: Text,
    pub session: Option<u128>,
    pub service: Text,
    pub only_passing: bool,
    pub tags: Texts,
    pub dns_ttl_ms: u64,
}

/// The instances that a prepared query asks for.
#[derive(Drop)]
struct Wanted {
    service: Text,
    only_passing: bool,
    tags: Texts,
}

#[tactic(auto, unfolding(crate::specs::NewQueries::wanted_at))]
fn wanted_of(alloc: Global, value: &Value) -> Result<Wanted, ReadError>
    ensures { Gives result (wanted_at (view value.now)) }
{
    let service = filled_text_of(alloc, value, Field::Service)?;
    let only_passing = flag_of(value, Field::OnlyPassing)?;
    let tags = texts_of(alloc, value, Field::Tags)?;
    Ok(Wanted {
        service,
        only_passing,
        tags,
    })
}

/// The instances that the member Service, which a query has, asks for.
#[tactic(auto, unfolding(crate::specs::NewQueries::wanted_in))]
fn service_of(alloc: Global, value: &Value) -> Result<Wanted, ReadError>
    ensures { Gives result (wanted_in (view value.now)) }
{
    match member(value, Field::Service) {
        None => Err(ReadError::Invalid(Field::Service)),
        Some(found) => match found.as_object() {
            Some(_) => wanted_of(alloc, found),
            None => Err(ReadError::Invalid(Field::Service)),
        },
    }
}

fn ttl_in(text: &str) -> Option<u64>
    ensures value { result ≡ dns_ttl_named text.now }
    ensures few { IfSome result (λ ttl. ttl ≤ 2 ^ 53) }
{
    if text.is_empty() {
        Some(0)
    } else {
        duration(text)
    }
}

#[tactic(auto, unfolding(crate::specs::NewQueries::dns_ttl_at))]
fn ttl_of(value: &Value) -> Result<u64, ReadError>
    ensures gives { Gives result (dns_ttl_at (view value.now)) }
    ensures few { IfOk result (λ ttl. ttl ≤ 2 ^ 53) }
{
    match member(value, Field::Ttl) {
        None => Ok(0),
        Some(found) => match found.as_str() {
            Some(text) => match ttl_in(text) {
                Some(ttl) => Ok(ttl),
                None => Err(ReadError::Invalid(Field::Ttl)),
            },
            None => Err(ReadError::Invalid(Field::Ttl)),
        },
    }
}

/// The TTL of the member DNS.
#[tactic(auto, unfolding(crate::specs::NewQueries::dns_in))]
fn dns_of(value: &Value) -> Result<u64, ReadError>
    ensures gives { Gives result (dns_in (view value.now)) }
    ensures few { IfOk result (λ ttl. ttl ≤ 2 ^ 53) }
{
    match member(value, Field::Dns) {
        None => Ok(0),
        Some(found) => match found.as_object() {
            Some(_) => ttl_of(found),
            None => Err(ReadError::Invalid(Field::Dns)),
        },
    }
}

/// The query of an object.
#[tactic(auto, unfolding(crate::specs::NewQueries::query_at))]
fn query_of(alloc: Global, value: &Value) -> Result<NewQuery, ReadError>
    ensures gives { Gives result (query_at (view value.now)) }
    ensures ttl { IfOk result (λ query. query.dns_ttl_ms ≤ 2 ^ 53) }
{
    is_object(value)?;
    let name = text_of(alloc, value, Field::Name)?;
    let session = session_id_of(value)?;
    let wanted = service_of(alloc, value)?;
    let dns_ttl_ms = dns_of(value)?;
    let Wanted {
        service,
        only_passing,
        tags,
    } = wanted;
    Ok(NewQuery {
        name,
        session,
        service,
        only_passing,
        tags,
        dns_ttl_ms,
    })
}

/// The prepared query that a body asks for.
#[tactic(auto, unfolding(crate::specs::NewQueries::query_of))]
pub fn read_query(alloc: Global, body: &[u8]) -> Result<NewQuery, ReadError>
    ensures gives { Gives result (spec.query_of body.now) }
    ensures ttl { IfOk result (λ query. query.dns_ttl_ms ≤ 2 ^ 53) }
{
    let value = json(alloc, body)?;
    query_of(alloc, &value)
}
