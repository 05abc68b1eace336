//! The limits that a command keeps where it has a spelling.

ghost use Rattle.std.specs.Prelude.{◌↔◌, ◌≤◌, All, IsTrue, IfSome};
ghost use Rattle.cat_model.specs.Bounds.{InBounds, IsCheck, IsId, IsKey, IsKeyOf, IsList, IsListOf, IsNumber, IsOp, IsService, IsText, IsTextOf, IsValue};

use crate::{Bytes, Command, List, NewCheck, NewService, Text, Texts, TxnOp, Verb};

fn has_length(text: &Text, least: usize, most: usize) -> bool
    ensures { IsTrue result ↔ IsTextOf least most text.now }
{
    let length = text.as_str().len();
    least <= length && length <= most
}

fn is_text(text: &Text) -> bool
    ensures { IsTrue result ↔ IsText text.now }
{
    has_length(text, 0, 1_048_576)
}

fn is_key(key: &Text) -> bool
    ensures { IsTrue result ↔ IsKey key.now }
{
    has_length(key, 1, 512)
}

fn is_key_of(verb: Verb, key: &Text) -> bool
    ensures { IsTrue result ↔ IsKeyOf verb key.now }
{
    match verb {
        Verb::GetTree | Verb::DeleteTree => has_length(key, 0, 512),
        _ => is_key(key),
    }
}

fn is_value(bytes: &Bytes) -> bool
    ensures { IsTrue result ↔ IsValue bytes.now }
{
    let slice = bytes.as_slice();
    slice.len() <= 524_288
}

// Every number of 64 bits is in bounds.
fn is_number(_number: u64) -> bool
    ensures { IsTrue result ↔ IsNumber _number }
{
    true
}

// So is every identifier.
fn is_id(_id: u128) -> bool
    ensures { IsTrue result ↔ IsId _id }
{
    true
}

fn is_no_or_id(id: Option<u128>) -> bool
    ensures { IsTrue result ↔ IfSome id IsId }
{
    match id {
        None => true,
        Some(id) => is_id(id),
    }
}

fn all_are_texts(texts: &[Text]) -> bool
    ensures { IsTrue result ↔ All IsText texts.now }
{
    for text in texts {
        if !is_text(text) {
            return false;
        }
    }
    true
}

fn are_texts(texts: &Texts) -> bool
    ensures { IsTrue result ↔ IsList IsText texts.now }
{
    texts.len() <= 1_048_576 && all_are_texts(texts.as_slice())
}

fn is_service(service: &NewService) -> bool
    ensures { IsTrue result ↔ IsService service.now }
{
    let _port = service.port;
    is_text(&service.id)
        && is_text(&service.name)
        && are_texts(&service.tags)
        && is_text(&service.address)
}

fn is_no_or_service(service: &Option<NewService>) -> bool
    ensures { IsTrue result ↔ IfSome service.now IsService }
{
    match service {
        None => true,
        Some(service) => is_service(service),
    }
}

fn is_check(check: &NewCheck) -> bool
    ensures { IsTrue result ↔ IsCheck check.now }
{
    is_text(&check.id)
        && is_text(&check.name)
        && is_text(&check.notes)
        && is_text(&check.output)
        && is_text(&check.service)
}

fn is_op(op: &TxnOp) -> bool
    ensures { IsTrue result ↔ IsOp op.now }
{
    is_key_of(op.verb, &op.key)
        && is_value(&op.value)
        && is_number(op.flags)
        && is_number(op.index)
        && is_no_or_id(op.session)
}

fn all_are_checks(checks: &[NewCheck]) -> bool
    ensures { IsTrue result ↔ All IsCheck checks.now }
{
    for check in checks {
        if !is_check(check) {
            return false;
        }
    }
    true
}

fn are_checks(checks: &List<NewCheck>) -> bool
    ensures { IsTrue result ↔ IsList IsCheck checks.now }
{
    checks.len() <= 1_048_576 && all_are_checks(checks.as_slice())
}

fn all_are_ops(ops: &[TxnOp]) -> bool
    ensures { IsTrue result ↔ All IsOp ops.now }
{
    for op in ops {
        if !is_op(op) {
            return false;
        }
    }
    true
}

fn are_ops(ops: &List<TxnOp>) -> bool
    ensures { IsTrue result ↔ IsListOf 64 IsOp ops.now }
{
    ops.len() <= 64 && all_are_ops(ops.as_slice())
}

impl Command {
    /// Whether the command has a spelling.
    pub fn in_bounds(&self) -> bool
        ensures { IsTrue result ↔ InBounds self.now }
    {
        match self {
            Command::Noop | Command::Reap | Command::Upgrade => true,
            Command::Register {
                node,
                address,
                service,
                checks,
            } => {
                is_text(node) && is_text(address) && is_no_or_service(service) && are_checks(checks)
            }
            Command::Deregister {
                node,
                service,
                check,
            } => is_text(node) && is_text(service) && is_text(check),
            Command::KvSet { key, flags, value } => {
                is_key(key) && is_number(*flags) && is_value(value)
            }
            Command::KvCas {
                key,
                flags,
                value,
                index,
            } => is_key(key) && is_number(*flags) && is_value(value) && is_number(*index),
            Command::KvLock {
                key,
                flags,
                value,
                session,
            }
            | Command::KvUnlock {
                key,
                flags,
                value,
                session,
            } => is_key(key) && is_number(*flags) && is_value(value) && is_id(*session),
            Command::KvDelete { key } => is_key(key),
            Command::KvDeleteCas { key, index } => is_key(key) && is_number(*index),
            Command::KvDeleteTree { prefix } => has_length(prefix, 0, 512),
            Command::Txn { ops } => are_ops(ops),
            Command::SessionCreate {
                id,
                name,
                node,
                checks,
                behavior: _,
                delay_ms,
                ttl_ms,
            } => {
                is_id(*id)
                    && is_text(name)
                    && is_text(node)
                    && are_texts(checks)
                    && *delay_ms <= 60_000
                    && *ttl_ms <= 86_400_000
            }
            Command::SessionDestroy { id } | Command::QueryDelete { id } => is_id(*id),
            Command::QuerySet {
                id,
                create: _,
                name,
                session,
                service,
                only_passing: _,
                tags,
                dns_ttl_ms,
            } => {
                is_id(*id)
                    && is_text(name)
                    && is_no_or_id(*session)
                    && is_text(service)
                    && are_texts(tags)
                    && *dns_ttl_ms <= 9_007_199_254_740_992
            }
        }
    }
}
