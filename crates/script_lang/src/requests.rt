ghost use Rattle.std.specs.Prelude.{◌≡◌, Ok, Err, IfOk, option_map};
ghost use Rattle.std.specs.List.{list_all};
ghost use Rattle.std.specs.Option.{option_copied};
ghost use Rattle.hex.specs.Hex.{decode_of};
ghost use Rattle.filter_expr.specs.Expressions.{expression_of};
ghost use Rattle.script_lang.specs.Answers.{UnlessMemory, asked_in};
ghost use Rattle.http_routes.specs.Filters.{filter_at};
ghost use Rattle.http_routes.specs.Routes.{route_of};
ghost use Rattle.script_lang.specs.Requests as spec;

use crate::bad_line::BadLine;
use cat_model::Bytes;
use hex::FromHexError;
use http_routes::{Routed, Routes};
use std::alloc::Global;

fn is_all_token_bytes(word: &[u8]) -> bool
    ensures { result ≡ list_all spec.is_token_byte word.now }
{
    word.iter().all(|byte| (0x21..=0x7e).contains(byte))
}

fn is_token(word: &[u8]) -> bool
    ensures { result ≡ spec.is_token word.now }
{
    !word.is_empty() && is_all_token_bytes(word)
}

// The bytes of an even number of hexadecimal digits.
fn decoded(alloc: Global, digits: &[u8]) -> Result<Bytes, BadLine>
    ensures { UnlessMemory result (spec.decoded (decode_of digits.now)) }
{
    match hex::decode(alloc, digits) {
        Ok(bytes) => Ok(Bytes::from(bytes)),
        Err(FromHexError::OutOfMemory) => Err(BadLine::Memory),
        Err(_) => Err(BadLine::BadRequestLine),
    }
}

// The body that these bytes give behind this mark.
fn marked(alloc: Global, mark: u8, bytes: &[u8]) -> Result<Bytes, BadLine>
    ensures { UnlessMemory result (spec.marked mark bytes.now) }
{
    match mark {
        b'=' => Ok(Bytes::new(alloc, bytes)?),
        b'#' => decoded(alloc, bytes),
        _ => Err(BadLine::BadRequestLine),
    }
}

// The body, by what follows the target.
fn body_of(alloc: Global, rest: Option<&[u8]>) -> Result<Bytes, BadLine>
    ensures { UnlessMemory result (spec.body_of (option_copied rest.entry)) }
{
    match rest {
        None => Ok(Bytes::from(Vec::new(alloc))),
        Some([]) => Err(BadLine::BadRequestLine),
        Some([mark, bytes @ ..]) => marked(alloc, *mark, bytes),
    }
}

// What a request with this method, target and body asks for.
fn routed(
    alloc: Global,
    routes: &Routes,
    method: &[u8],
    target: &[u8],
    body: &Bytes,
) -> Result<Routed, BadLine>
    ensures asked { UnlessMemory (asked_in result) (Ok (route_of method.now target.now body.now)) }
    ensures filter { IfOk result (λ r. option_map expression_of r.filter ≡ filter_at target.now) }
{
    Ok(routes.route(alloc, method, target, body.as_slice())?)
}

/// What the request of a method, a target, and what follows it asks for, and the target's filter.
pub fn asked_of(
    alloc: Global,
    routes: &Routes,
    method: &[u8],
    target: &[u8],
    rest: Option<&[u8]>,
) -> Result<Routed, BadLine>
    ensures asked { UnlessMemory (asked_in result) (spec.asked_of method.now target.now (option_copied rest.entry)) }
    ensures filter { IfOk result (λ r. option_map expression_of r.filter ≡ filter_at target.now) }
{
    if !is_token(method) || !is_token(target) {
        return Err(BadLine::BadRequestLine);
    }
    let body = body_of(alloc, rest)?;
    routed(alloc, routes, method, target, &body)
}
