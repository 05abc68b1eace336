//! Requests on the store of keys.

ghost use Rattle.std.specs.Prelude.{◌≡◌, IfOk};
ghost use Rattle.http_routes.specs.Errors.{Gives, in_body};
ghost use Rattle.http_routes.specs.Kv.{condition_at, deletion, given_condition, index_at, is_key, is_raw, key_of, kv_delete, kv_get, kv_put, kv_query, lists_keys, put_on, recurses};
ghost use Rattle.http_routes.specs.Kv as spec;
ghost use Rattle.json_bodies.specs.Txns.{ops_of};
ghost use Rattle.http_routes.specs.Methods.{delete_get_put};

use crate::body::of_body;
use crate::checks::{MOST, plain, plain_parameters, reading_of, refuse_if, short, write};
use crate::params::{Pair, id, is_on, is_there, number, text};
use crate::target::{decoded, is};
use crate::{Allow, Parameter, RouteError};
use cat_model::{Bytes, Command, List, Memory, Query, Request, Shared, Text, TxnOp};
use json_bodies::read_transaction;
use std::alloc::Global;

/// The most bytes of a key's value.
const MOST_VALUE: usize = 524_288;

/// On what a key is put.
#[derive(Clone, Copy, Debug)]
enum Condition {
    Always,
    /// It was last modified at this index, or is absent for an index of 0.
    IfModifiedAt(u64),
    /// The session takes its lock, or holds it.
    Acquires(u128),
    /// The session holds its lock, which it gives up.
    Releases(u128),
}

fn recurse(pairs: &[Pair]) -> bool
    ensures { result ≡ recurses pairs.now }
{
    is_on(pairs, "recurse")
}

fn keys(pairs: &[Pair]) -> bool
    ensures { result ≡ lists_keys pairs.now }
{
    is_on(pairs, "keys")
}

fn fits(may_be_empty: bool, key: &Text) -> bool
    ensures { result ≡ is_key may_be_empty key.now }
{
    (may_be_empty || key.len() > 0) && key.len() <= 512
}

/// The key of a path.
#[tactic(auto, unfolding(crate::specs::Kv::key_of))]
fn key(alloc: Global, may_be_empty: bool, part: &[u8]) -> Result<Text, RouteError>
    ensures { Gives result (key_of may_be_empty part.now) }
{
    let key = decoded(alloc, part, Parameter::Key)?;
    refuse_if(!fits(may_be_empty, &key), Parameter::Key)?;
    Ok(key)
}

/// The query of a GET.
fn query(alloc: Global, key: Text, pairs: &[Pair]) -> Result<Query, Memory>
    ensures { IfOk result (λ query. query ≡ kv_query key pairs.now) }
{
    if keys(pairs) {
        let separator = Text::new(alloc, text(pairs, "separator"))?;
        Ok(Query::Keys {
            prefix: key,
            separator,
        })
    } else if recurse(pairs) {
        Ok(Query::Prefix { prefix: key })
    } else {
        Ok(Query::Key { key })
    }
}

/// Whether a GET asks for a key's value alone.
fn raw(pairs: &[Pair]) -> bool
    ensures { result ≡ is_raw pairs.now }
{
    !keys(pairs) && !recurse(pairs) && is_on(pairs, "raw")
}

#[tactic(auto, unfolding(crate::specs::Kv::kv_get))]
fn get(alloc: Global, part: &[u8], pairs: &[Pair], body: &[u8]) -> Result<Request, RouteError>
    ensures { Gives result (kv_get part.now pairs.now body.now) }
{
    let key = key(alloc, keys(pairs) || recurse(pairs), part)?;
    let reading = reading_of(pairs, body)?;
    Ok(Request::Read {
        query: Shared::new(alloc, query(alloc, key, pairs)?)?,
        mode: reading.mode,
        min: reading.min,
        wait_ms: reading.wait_ms,
        raw: raw(pairs),
    })
}

fn has_several(pairs: &[Pair]) -> bool
    ensures { result ≡ spec.has_several pairs.now }
{
    let cas = is_there(pairs, "cas");
    let acquire = is_there(pairs, "acquire");
    let release = is_there(pairs, "release");
    (cas && acquire) || (cas && release) || (acquire && release)
}

#[tactic(auto, unfolding(crate::specs::Kv::given_condition))]
fn only_condition(pairs: &[Pair]) -> Result<Condition, RouteError>
    ensures { Gives result (given_condition pairs.now) }
{
    if is_there(pairs, "cas") {
        Ok(Condition::IfModifiedAt(number(pairs, Parameter::Cas)?))
    } else if is_there(pairs, "acquire") {
        Ok(Condition::Acquires(id(pairs, Parameter::Acquire)?))
    } else if is_there(pairs, "release") {
        Ok(Condition::Releases(id(pairs, Parameter::Release)?))
    } else {
        Ok(Condition::Always)
    }
}

/// The condition of a PUT.
#[tactic(auto, unfolding(crate::specs::Kv::condition_at))]
fn condition_of(pairs: &[Pair]) -> Result<Condition, RouteError>
    ensures { Gives result (condition_at pairs.now) }
{
    refuse_if(has_several(pairs), Parameter::Conditions)?;
    only_condition(pairs)
}

fn put_command(condition: Condition, key: Text, flags: u64, value: Bytes) -> Command
    ensures { result ≡ put_on condition key flags value }
{
    match condition {
        Condition::Always => Command::KvSet { key, flags, value },
        Condition::IfModifiedAt(index) => Command::KvCas {
            key,
            flags,
            value,
            index,
        },
        Condition::Acquires(session) => Command::KvLock {
            key,
            flags,
            value,
            session,
        },
        Condition::Releases(session) => Command::KvUnlock {
            key,
            flags,
            value,
            session,
        },
    }
}

#[tactic(auto, unfolding(crate::specs::Kv::kv_put))]
fn put(alloc: Global, part: &[u8], pairs: &[Pair], body: &[u8]) -> Result<Request, RouteError>
    ensures { Gives result (kv_put part.now pairs.now body.now) }
{
    let key = key(alloc, false, part)?;
    plain_parameters(pairs)?;
    let condition = condition_of(pairs)?;
    let flags = number(pairs, Parameter::Flags)?;
    short(MOST_VALUE, body)?;
    let value = Bytes::new(alloc, body)?;
    Ok(write(alloc, put_command(condition, key, flags, value))?)
}

/// The index on which a DELETE hangs.
#[tactic(auto, unfolding(crate::specs::Kv::index_at))]
fn index(pairs: &[Pair]) -> Result<Option<u64>, RouteError>
    ensures { Gives result (index_at pairs.now) }
{
    if is_there(pairs, "cas") {
        Ok(Some(number(pairs, Parameter::Cas)?))
    } else {
        Ok(None)
    }
}

fn delete_command(recurse: bool, index: Option<u64>, key: Text) -> Command
    ensures { result ≡ deletion recurse index key }
{
    match (recurse, index) {
        (true, _) => Command::KvDeleteTree { prefix: key },
        (false, None) => Command::KvDelete { key },
        (false, Some(index)) => Command::KvDeleteCas { key, index },
    }
}

#[tactic(auto, unfolding(crate::specs::Kv::kv_delete))]
fn delete(alloc: Global, part: &[u8], pairs: &[Pair], body: &[u8]) -> Result<Request, RouteError>
    ensures { Gives result (kv_delete part.now pairs.now body.now) }
{
    let recurse = recurse(pairs);
    let key = key(alloc, recurse, part)?;
    plain_parameters(pairs)?;
    refuse_if(is_there(pairs, "cas") && recurse, Parameter::CasOfTree)?;
    let index = index(pairs)?;
    short(MOST, body)?;
    Ok(write(alloc, delete_command(recurse, index, key))?)
}

/// A request on a key.
pub(crate) fn kv(
    alloc: Global,
    key: &[u8],
    method: &[u8],
    pairs: &[Pair],
    body: &[u8],
) -> Result<Request, RouteError>
    ensures { Gives result (delete_get_put (kv_delete key.now) (kv_get key.now) (kv_put key.now) method.now pairs.now body.now) }
{
    if is(method, "DELETE") {
        delete(alloc, key, pairs, body)
    } else if is(method, "GET") {
        get(alloc, key, pairs, body)
    } else if is(method, "PUT") {
        put(alloc, key, pairs, body)
    } else {
        Err(RouteError::Method(Allow::DeleteGetPut))
    }
}

fn ops(alloc: Global, body: &[u8]) -> Result<List<TxnOp>, RouteError>
    ensures { Gives result (in_body (ops_of body.now)) }
{
    of_body(read_transaction(alloc, body))
}

/// A transaction.
#[tactic(auto, unfolding(crate::specs::Kv::transaction))]
pub(crate) fn transaction(alloc: Global, pairs: &[Pair], body: &[u8]) -> Result<Request, RouteError>
    ensures { Gives result (spec.transaction pairs.now body.now) }
{
    plain(pairs, body)?;
    let ops = ops(alloc, body)?;
    Ok(write(alloc, Command::Txn { ops })?)
}
