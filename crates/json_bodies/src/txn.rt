//! The body of a transaction.

ghost use Rattle.std.specs.Prelude.{◌≡◌};
ghost use Rattle.serde_json.specs.View.{view, items_view};
ghost use Rattle.json_bodies.specs.Errors.{Gives};
ghost use Rattle.json_bodies.specs.Members.{each};
ghost use Rattle.json_bodies.specs.Txns.{an_op, count, decoded_at, decoded_short, holder_at, is_key_of, key_at, least_key, op_at, ops_at, ops_in, value_at, verb_at};
ghost use Rattle.json_bodies.specs.Txns as spec;

use crate::ids::session_id_of;
use crate::member::{json, member, number_of, refuse_if, text_of};
use crate::{Field, ReadError};
use base64::DecodeAllocError;
use base64::engine::general_purpose::STANDARD;
use cat_model::{Bytes, List, Text, TxnOp, Verb};
use serde_json::Value;
use std::alloc::Global;

fn verb_named(word: &str) -> Option<Verb>
    ensures { result ≡ spec.verb_named word.now }
{
    match word {
        "set" => Some(Verb::Set),
        "cas" => Some(Verb::Cas),
        "lock" => Some(Verb::Lock),
        "unlock" => Some(Verb::Unlock),
        "get" => Some(Verb::Get),
        "get-or-empty" => Some(Verb::GetOrEmpty),
        "get-tree" => Some(Verb::GetTree),
        "check-index" => Some(Verb::CheckIndex),
        "check-session" => Some(Verb::CheckSession),
        "check-not-exists" => Some(Verb::CheckNotExists),
        "delete" => Some(Verb::Delete),
        "delete-tree" => Some(Verb::DeleteTree),
        "delete-cas" => Some(Verb::DeleteCas),
        _ => None,
    }
}

/// The verb, which each operation has.
#[tactic(auto, unfolding(crate::specs::Txns::verb_at))]
fn verb_of(value: &Value) -> Result<Verb, ReadError>
    ensures { Gives result (verb_at (view value.now)) }
{
    match member(value, Field::Verb) {
        None => Err(ReadError::Invalid(Field::Verb)),
        Some(found) => match found.as_str() {
            Some(word) => match verb_named(word) {
                Some(verb) => Ok(verb),
                None => Err(ReadError::Invalid(Field::Verb)),
            },
            None => Err(ReadError::Invalid(Field::Verb)),
        },
    }
}

/// The least length of a key.
fn least_length(verb: Verb) -> usize
    ensures { result ≡ least_key verb }
{
    match verb {
        Verb::GetTree | Verb::DeleteTree => 0,
        _ => 1,
    }
}

fn fits(verb: Verb, key: &Text) -> bool
    ensures { result ≡ is_key_of verb key.now }
{
    least_length(verb) <= key.len() && key.len() <= 512
}

/// The key, or the prefix of a tree.
#[tactic(auto, unfolding(crate::specs::Txns::key_at))]
fn key_of(alloc: Global, verb: Verb, value: &Value) -> Result<Text, ReadError>
    ensures { Gives result (key_at verb (view value.now)) }
{
    let key = text_of(alloc, value, Field::Key)?;
    refuse_if(!fits(verb, &key), Field::KeyLength)?;
    Ok(key)
}

/// The bytes of a text in base64.
fn decoded(alloc: Global, text: &str) -> Result<Bytes, ReadError>
    ensures { Gives result (decoded_at text.now) }
{
    match STANDARD.decode(alloc, text.as_bytes()) {
        Ok(bytes) => Ok(Bytes::from(bytes)),
        Err(DecodeAllocError::OutOfMemory) => Err(ReadError::Memory),
        Err(_) => Err(ReadError::Invalid(Field::Value)),
    }
}

/// The bytes of a text in base64, where there are not too many.
fn short_value(alloc: Global, text: &str) -> Result<Bytes, ReadError>
    ensures { Gives result (decoded_short text.now) }
{
    let bytes = decoded(alloc, text)?;
    if bytes.len() <= 524_288 {
        Ok(bytes)
    } else {
        Err(ReadError::TooLarge)
    }
}

/// The value.
#[tactic(auto, unfolding(crate::specs::Txns::value_at))]
fn value_of(alloc: Global, value: &Value) -> Result<Bytes, ReadError>
    ensures { Gives result (value_at (view value.now)) }
{
    match member(value, Field::Value) {
        None => Ok(Bytes::from(Vec::new(alloc))),
        Some(found) => match found.as_str() {
            Some(text) => short_value(alloc, text),
            None => Err(ReadError::Invalid(Field::Value)),
        },
    }
}

fn needs_session(verb: Verb) -> bool
    ensures { result ≡ spec.needs_session verb }
{
    matches!(verb, Verb::Lock | Verb::Unlock | Verb::CheckSession)
}

/// The session, which some verbs need.
#[tactic(auto, unfolding(crate::specs::Txns::holder_at))]
fn holder_of(verb: Verb, value: &Value) -> Result<Option<u128>, ReadError>
    ensures { Gives result (holder_at verb (view value.now)) }
{
    let session = session_id_of(value)?;
    refuse_if(needs_session(verb) && session.is_none(), Field::Session)?;
    Ok(session)
}

/// The operation of the member KV.
#[tactic(auto, unfolding(crate::specs::Txns::op_at))]
fn op_of(alloc: Global, kv: &Value) -> Result<TxnOp, ReadError>
    ensures { Gives result (op_at (view kv.now)) }
{
    let verb = verb_of(kv)?;
    let key = key_of(alloc, verb, kv)?;
    let value = value_of(alloc, kv)?;
    let flags = number_of(kv, Field::Flags)?;
    let index = number_of(kv, Field::Index)?;
    let session = holder_of(verb, kv)?;
    Ok(TxnOp {
        verb,
        key,
        value,
        flags,
        index,
        session,
    })
}

/// An operation of the list.
fn item_of(alloc: Global, value: &Value) -> Result<TxnOp, ReadError>
    ensures { Gives result (an_op (view value.now)) }
{
    match member(value, Field::Kv) {
        None => Err(ReadError::Invalid(Field::Kv)),
        Some(kv) => match kv.as_object() {
            Some(_) => op_of(alloc, kv),
            None => Err(ReadError::Invalid(Field::Kv)),
        },
    }
}

/// The operations of the list.
fn each_op(alloc: Global, list: &[Value]) -> Result<List<TxnOp>, ReadError>
    ensures { Gives result (each an_op (items_view list.now)) }
{
    let mut ops = List::new(alloc);
    'list: for value in list {
        let op = item_of(alloc, value)?;
        ops.push(op)?;
    }
    Ok(ops)
}

#[tactic(auto, using(crate::proofs::Lengths::counted))]
fn count_of(list: &[Value]) -> usize
    ensures { result ≡ count (items_view list.now) }
{
    list.len()
}

/// The operations of the list, where there are not too many.
fn ops_of(alloc: Global, list: &[Value]) -> Result<List<TxnOp>, ReadError>
    ensures { Gives result (ops_in (items_view list.now)) }
{
    refuse_if(64 < count_of(list), Field::Txn)?;
    each_op(alloc, list)
}

/// The operations of an array.
#[tactic(auto, unfolding(crate::specs::Txns::ops_at))]
fn transaction(alloc: Global, value: &Value) -> Result<List<TxnOp>, ReadError>
    ensures { Gives result (ops_at (view value.now)) }
{
    match value.as_array() {
        Some(list) => ops_of(alloc, list.as_slice()),
        None => Err(ReadError::Invalid(Field::Body)),
    }
}

/// The operations of the transaction that a body asks for.
#[tactic(auto, unfolding(crate::specs::Txns::ops_of))]
pub fn read_transaction(alloc: Global, body: &[u8]) -> Result<List<TxnOp>, ReadError>
    ensures { Gives result (spec.ops_of body.now) }
{
    let value = json(alloc, body)?;
    transaction(alloc, &value)
}
