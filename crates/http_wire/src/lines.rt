//! The lines of a reply's head.

ghost use Rattle.std.specs.Prelude.{◌≡◌, ◌++◌, OnOk, codes, decimal, [], unwrap_or};
ghost use Rattle.std.specs.List.{join_by};
ghost use Rattle.http.specs.StatusCode.{IsStatusCode, reason_phrase};
ghost use Rattle.http_wire.specs.Replies.{status_line, type_name as name_of_form, type_line, header, index_line, flag_name as name_of_flag, leader_line, contact_line, consul_lines, allowed_line, allow_line, close_line, length_line, crlf};

use cat_model::{Bytes, Form, Kind, Memory, Refusal, Reply, Text};
use http::StatusCode;
use std::alloc::Global;

// Puts the text last.
pub(crate) fn put(out: &mut Vec<u8>, text: &str) -> Result<(), Memory>
    ensures { OnOk result (out.new.items ≡ out.old.items ++ text.now) }
{
    out.extend_from_slice(text.as_bytes())?;
    Ok(())
}

pub(crate) fn end_line(out: &mut Vec<u8>) -> Result<(), Memory>
    ensures { OnOk result (out.new.items ≡ out.old.items ++ crlf) }
{
    put(out, "\r\n")
}

// A header (RFC 9112, section 5).
fn put_header(out: &mut Vec<u8>, name: &str, value: &str) -> Result<(), Memory>
    ensures { OnOk result (out.new.items ≡ out.old.items ++ header name.now value.now) }
{
    put(out, name)?;
    put(out, ": ")?;
    put(out, value)?;
    end_line(out)
}

fn put_number(alloc: Global, out: &mut Vec<u8>, name: &str, number: u64) -> Result<(), Memory>
    ensures { OnOk result (out.new.items ≡ out.old.items ++ header name.now (decimal number)) }
{
    let text = format!(in alloc; "{number}")?;
    put_header(out, name, text.as_str())
}

// The phrase of a status, where it has one.
fn phrase(status: u16) -> &'static str
    requires { IsStatusCode status }
    ensures { result.now ≡ unwrap_or (reason_phrase status) [] }
{
    match StatusCode::from_u16(status) {
        Ok(code) => code.canonical_reason().unwrap_or(""),
        Err(_) => unreachable!(),
    }
}

pub(crate) fn put_status(alloc: Global, out: &mut Vec<u8>, status: u16) -> Result<(), Memory>
    requires { IsStatusCode status }
    ensures { OnOk result (out.new.items ≡ out.old.items ++ status_line status) }
{
    let number = format!(in alloc; "{status}")?;
    put(out, "HTTP/1.1 ")?;
    put(out, number.as_str())?;
    put(out, " ")?;
    put(out, phrase(status))?;
    end_line(out)
}

fn type_name(form: Form) -> &'static str
    ensures { result.now ≡ name_of_form form }
{
    match form {
        Form::Json => "application/json",
        Form::Plain => "text/plain; charset=utf-8",
        Form::Octets => "application/octet-stream",
    }
}

pub(crate) fn put_type(out: &mut Vec<u8>, body: &Bytes, form: Form) -> Result<(), Memory>
    ensures { OnOk result (out.new.items ≡ out.old.items ++ type_line body.now form) }
{
    if body.len() == 0 {
        return Ok(());
    }
    put_header(out, "Content-Type", type_name(form))
}

fn put_index(alloc: Global, out: &mut Vec<u8>, index: Option<u64>) -> Result<(), Memory>
    ensures { OnOk result (out.new.items ≡ out.old.items ++ index_line index) }
{
    match index {
        None => Ok(()),
        Some(index) => put_number(alloc, out, "X-Consul-Index", index),
    }
}

fn flag_name(flag: bool) -> &'static str
    ensures { result.now ≡ name_of_flag flag }
{
    if flag { "true" } else { "false" }
}

fn put_leader(out: &mut Vec<u8>, known: bool) -> Result<(), Memory>
    ensures { OnOk result (out.new.items ≡ out.old.items ++ leader_line known) }
{
    put_header(out, "X-Consul-KnownLeader", flag_name(known))
}

fn put_contact(alloc: Global, out: &mut Vec<u8>, ms: u64) -> Result<(), Memory>
    ensures { OnOk result (out.new.items ≡ out.old.items ++ contact_line ms) }
{
    put_number(alloc, out, "X-Consul-LastContact", ms)
}

pub(crate) fn put_consul(alloc: Global, out: &mut Vec<u8>, reply: &Reply) -> Result<(), Memory>
    ensures { OnOk result (out.new.items ≡ out.old.items ++ consul_lines reply.now.kind reply.now.index reply.now.known_leader reply.now.last_contact) }
{
    match &reply.kind {
        Kind::At { .. } => {
            put_index(alloc, out, reply.index)?;
            put_leader(out, reply.known_leader)?;
            put_contact(alloc, out, reply.last_contact)
        }
        _ => Ok(()),
    }
}

fn put_methods(out: &mut Vec<u8>, methods: &[Text]) -> Result<(), Memory>
    ensures { OnOk result (out.new.items ≡ out.old.items ++ join_by (λ method. method) (codes ", ") methods.now) }
{
    let Some((first, rest)) = methods.split_first() else {
        return Ok(());
    };
    put(out, first.as_str())?;
    'methods: for method in rest {
        put(out, ", ")?;
        put(out, method.as_str())?;
    }
    Ok(())
}

fn put_allowed(out: &mut Vec<u8>, why: &Refusal) -> Result<(), Memory>
    ensures { OnOk result (out.new.items ≡ out.old.items ++ allowed_line why.now) }
{
    match why {
        Refusal::Method { allow } => {
            put(out, "Allow")?;
            put(out, ": ")?;
            put_methods(out, allow.as_slice())?;
            end_line(out)
        }
        _ => Ok(()),
    }
}

pub(crate) fn put_allow(out: &mut Vec<u8>, kind: &Kind) -> Result<(), Memory>
    ensures { OnOk result (out.new.items ≡ out.old.items ++ allow_line kind.now) }
{
    match kind {
        Kind::Refused(why) => put_allowed(out, why),
        _ => Ok(()),
    }
}

pub(crate) fn put_close(out: &mut Vec<u8>, close: bool) -> Result<(), Memory>
    ensures { OnOk result (out.new.items ≡ out.old.items ++ close_line close) }
{
    if close {
        put_header(out, "Connection", "close")
    } else {
        Ok(())
    }
}

pub(crate) fn put_length(alloc: Global, out: &mut Vec<u8>, body: &Bytes) -> Result<(), Memory>
    ensures { OnOk result (out.new.items ≡ out.old.items ++ length_line body.now) }
{
    put_number(alloc, out, "Content-Length", body.len() as u64)
}
