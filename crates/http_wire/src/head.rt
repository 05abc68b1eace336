//! The head of a request, and when no head can come of the bytes any more.

ghost use Rattle.std.specs.Prelude.{◌≡◌, ◌≢◌, ◌↔◌, ◌≤◌, length, IfOk, IsTrue};
ghost use Rattle.std.specs.List.{list_all, position_or_len};
ghost use Rattle.httparse.specs.Grammar.{HasNoRequest, NeverHasRequest, is_uri_byte};
ghost use Rattle.httparse.specs.Spans.{RequestExceeds};
ghost use Rattle.http_wire.specs.Head.{judged as judged_bytes, IfHead, IsParsed, is_space};

use crate::limits::SPANS;
use cat_model::Memory;
use httparse::spans::{EMPTY_HEADER_SPAN, HeaderSpan, RequestSpans, parse_request};
use httparse::{Error, Status};
use std::alloc::Global;

/// What the bytes that have come are.
pub enum Found {
    More,
    Bad,
    Head(RequestSpans),
    Memory,
}

/// What the parser makes of bytes: a head, less than one, what no bytes make one, or a head with more headers than there
/// is room for.
#[derive(Drop)]
pub enum Parsed {
    Head(RequestSpans),
    Partial,
    Bad,
    Crowded,
    Memory,
}

// The place of the first space, or the length.
fn first_space(buf: &[u8]) -> usize
    ensures { result ≡ position_or_len is_space buf.now }
{
    let mut place = 0;
    'scan: while place < buf.len() {
        if buf[place] == b' ' {
            break;
        }
        place += 1;
    }
    place
}

// Whether every byte may stand in a target.
fn is_target(bytes: &[u8]) -> bool
    ensures { result ≡ list_all is_uri_byte bytes.now }
{
    bytes.iter().all(|b| *b > b' ' && *b != 0x7f)
}

// The bytes that are judged.
fn judged(buf: &[u8]) -> &[u8]
    ensures { result.now ≡ judged_bytes buf.now }
{
    let space = first_space(buf);
    if space < buf.len() && is_target(&buf[space + 1..]) {
        &buf[..space + 1]
    } else {
        buf
    }
}

// Room for so many headers.
pub(crate) fn make_spans(alloc: Global, count: usize) -> Result<Vec<HeaderSpan>, Memory>
    ensures { IfOk result (λ v. length v.items ≡ count) }
{
    let spans = vec![in alloc; EMPTY_HEADER_SPAN; count]?;
    Ok(spans)
}

// What the parser makes of the bytes in that room for headers.
fn parse_in(bytes: &[u8], headers: &mut [HeaderSpan]) -> Parsed
    ensures parsed { IsParsed bytes.now headers.new result }
    ensures crowded { result ≡ Parsed.Crowded → RequestExceeds (length headers.old) bytes.now }
{
    match parse_request(bytes, headers) {
        Ok(Status::Complete(head)) => Parsed::Head(head),
        Ok(Status::Partial) => Parsed::Partial,
        Err(Error::TooManyHeaders) => Parsed::Crowded,
        Err(_) => Parsed::Bad,
    }
}

// What the parser makes of the bytes in a room for as many headers as they can hold.
fn parse_all(bytes: &[u8], headers: &mut [HeaderSpan]) -> Parsed
    requires room { length headers.old ≡ 8192 }
    requires short { length bytes.now ≤ 16384 }
    ensures parsed { IsParsed bytes.now headers.new result }
    ensures never_crowded { result ≢ Parsed.Crowded }
{
    match parse_in(bytes, headers) {
        Parsed::Crowded => Parsed::Bad,
        parsed => parsed,
    }
}

// The same, in such a room that is made for it.
fn parse_wide(alloc: Global, bytes: &[u8], spans: &mut Vec<HeaderSpan>) -> Parsed
    requires short { length bytes.now ≤ 16384 }
    ensures parsed { IsParsed bytes.now spans.new.items result }
    ensures never_crowded { result ≢ Parsed.Crowded }
{
    match make_spans(alloc, SPANS) {
        Ok(wide) => {
            *spans = wide;
            parse_all(bytes, spans.as_mut_slice())
        }
        Err(Memory) => Parsed::Memory,
    }
}

// What the parser makes of the bytes. The room for headers is made wider where they have more.
fn parse(alloc: Global, bytes: &[u8], spans: &mut Vec<HeaderSpan>) -> Parsed
    requires short { length bytes.now ≤ 16384 }
    ensures parsed { IsParsed bytes.now spans.new.items result }
    ensures never_crowded { result ≢ Parsed.Crowded }
{
    match parse_in(bytes, spans.as_mut_slice()) {
        Parsed::Crowded => parse_wide(alloc, bytes, spans),
        parsed => parsed,
    }
}

// Whether no head can come of the bytes any more.
fn is_bad(alloc: Global, buf: &[u8], spans: &mut Vec<HeaderSpan>) -> Result<bool, Memory>
    requires short { length buf.now ≤ 16384 }
    ensures { IfOk result (λ bad. IsTrue bad ↔ NeverHasRequest (judged_bytes buf.now)) }
{
    match parse(alloc, judged(buf), spans) {
        Parsed::Head(_) => Ok(false),
        Parsed::Partial => Ok(false),
        Parsed::Bad => Ok(true),
        Parsed::Crowded => Ok(true),
        Parsed::Memory => Err(Memory),
    }
}

// The head at the front, or none yet, where one may come.
fn find_head(alloc: Global, buf: &[u8], spans: &mut Vec<HeaderSpan>) -> Found
    requires short { length buf.now ≤ 16384 }
    ensures never_bad { result ≢ Found.Bad }
    ensures more { result ≡ Found.More → HasNoRequest buf.now }
    ensures head { IfHead buf.now spans.new.items result }
{
    match parse(alloc, buf, spans) {
        Parsed::Head(head) => Found::Head(head),
        Parsed::Memory => Found::Memory,
        _ => Found::More,
    }
}

// The head at the front, or none yet, or never one.
pub(crate) fn read_head(alloc: Global, buf: &[u8], spans: &mut Vec<HeaderSpan>) -> Found
    requires short { length buf.now ≤ 16384 }
    ensures bad { result ≡ Found.Bad → NeverHasRequest (judged_bytes buf.now) }
    ensures may { result ≡ Found.More → NeverHasRequest (judged_bytes buf.now) → ⊥ }
    ensures more { result ≡ Found.More → HasNoRequest buf.now }
    ensures head { IfHead buf.now spans.new.items result }
{
    match is_bad(alloc, buf, spans) {
        Ok(true) => Found::Bad,
        Ok(false) => find_head(alloc, buf, spans),
        Err(Memory) => Found::Memory,
    }
}
