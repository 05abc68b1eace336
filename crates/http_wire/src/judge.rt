//! What a head asks for, or why it is refused (RFC 9112, sections 3, 5 and 6; RFC 9110, section 10.1.1).

ghost use Rattle.std.specs.Prelude.{◌≡◌, ◌≤◌, All, IfOk, length, map, take, true, Some, None};
ghost use Rattle.httparse.specs.Grammar.{RequestHead};
ghost use Rattle.httparse.specs.Spans.{IsHeaderWithin, header_bytes, IsRequestWithin, IsRequestAt};
ghost use Rattle.std.specs.Str.{str_eq_ignore_ascii_case};
ghost use Rattle.std.specs.List.{list_all};
ghost use Rattle.std.specs.Char.{is_ascii_digit};
ghost use Rattle.http_wire.specs.Judge.{judge, judge_parts, with_length, values, has_value, one_length, joins_next, number_of, value_after, below, is_number, is_visible, size_of};
ghost use Rattle.http_wire.specs.Reader.{Judges, facts_of};

use crate::limits::{BODY_BYTES, HEADERS};
use crate::rejection::Rejection;
use cat_model::{Memory, Text};
use httparse::spans::{HeaderSpan, RequestSpans};
use std::alloc::Global;

/// What a head asks for.
#[derive(Drop)]
pub struct Head {
    pub method: Text,
    pub target: Text,
    pub length: usize,
    pub expects: bool,
    pub close: bool,
}

/// What a head is.
#[derive(Drop)]
pub enum Judged {
    Fine(Head),
    Refused(Rejection),
    Memory,
}

// Whether two texts differ at most in the case of their letters.
fn is_like(text: &[u8], other: &[u8]) -> bool
    ensures { result ≡ str_eq_ignore_ascii_case text.now other.now }
{
    text.eq_ignore_ascii_case(other)
}

// The name of a header.
fn name_in<'b>(buf: &'b [u8], header: &HeaderSpan) -> &'b [u8]
    requires { IsHeaderWithin (length buf.now) header.now }
    ensures { result.now ≡ (header_bytes buf.now header.now).0 }
{
    header.name.of(buf)
}

// The value of a header.
fn value_in<'b>(buf: &'b [u8], header: &HeaderSpan) -> &'b [u8]
    requires { IsHeaderWithin (length buf.now) header.now }
    ensures { result.now ≡ (header_bytes buf.now header.now).1 }
{
    header.value.of(buf)
}

// Whether every byte is a digit.
fn are_digits(text: &[u8]) -> bool
    ensures { result ≡ list_all is_ascii_digit text.now }
{
    text.iter().all(|b| b.is_ascii_digit())
}

// Whether the text is 1 to 20 digits.
fn is_number_text(text: &[u8]) -> bool
    ensures { result ≡ is_number text.now }
{
    1 <= text.len() && text.len() <= 20 && are_digits(text)
}

// The number that digits write, below 2^64.
fn value_of(text: &[u8]) -> Option<u64>
    requires { list_all is_ascii_digit text.now ≡ true }
    ensures { result ≡ below (value_after 0 text.now) }
{
    let mut value: u128 = 0;
    'digits: for byte in text {
        value = value * 10 + u128::from(*byte - 48);
        if value >= 18446744073709551616 {
            return None;
        }
    }
    Some(value as u64)
}

// The number that 1 to 20 digits write, below 2^64.
#[tactic(auto, unfolding(crate::specs::Judge::number_of))]
fn number_in(text: &[u8]) -> Option<u64>
    ensures { result ≡ number_of text.now }
{
    if is_number_text(text) {
        value_of(text)
    } else {
        None
    }
}

// How many headers have a name.
fn count_of(buf: &[u8], headers: &[HeaderSpan], name: &[u8]) -> usize
    requires { All (IsHeaderWithin (length buf.now)) headers.now }
    ensures { result ≡ length (values name.now (map (header_bytes buf.now) headers.now)) }
{
    let mut count = 0;
    'headers: for header in headers {
        if is_like(name_in(buf, header), name) {
            count += 1;
        }
    }
    count
}

// Whether a header of that name has that value.
fn has_value_in(buf: &[u8], headers: &[HeaderSpan], name: &[u8], value: &[u8]) -> bool
    requires { All (IsHeaderWithin (length buf.now)) headers.now }
    ensures { result ≡ has_value name.now value.now (map (header_bytes buf.now) headers.now) }
{
    'headers: for header in headers {
        if is_like(name_in(buf, header), name) && is_like(value_in(buf, header), value) {
            return true;
        }
    }
    false
}

// A length beside one that was found, where all agree.
fn join(found: Option<Option<u64>>, next: Option<u64>) -> Option<Option<u64>>
    ensures { result ≡ joins_next found next }
{
    match found {
        None => None,
        Some(before) => match next {
            None => None,
            Some(n) => match before {
                None => Some(Some(n)),
                Some(m) => if m == n { Some(Some(n)) } else { None },
            },
        },
    }
}

// The one length that all headers of a name write.
fn length_in(buf: &[u8], headers: &[HeaderSpan], name: &[u8]) -> Option<Option<u64>>
    requires { All (IsHeaderWithin (length buf.now)) headers.now }
    ensures { result ≡ one_length (Some None) (values name.now (map (header_bytes buf.now) headers.now)) }
{
    let mut found = Some(None);
    'headers: for header in headers {
        if is_like(name_in(buf, header), name) {
            found = join(found, number_in(value_in(buf, header)));
        }
    }
    found
}

// Whether every byte is visible.
fn is_visible_text(text: &[u8]) -> bool
    ensures { result ≡ is_visible text.now }
{
    text.iter().all(|b| *b >= 33 && *b <= 126)
}

fn size_or_none(found: Option<u64>) -> u64
    ensures { result ≡ size_of found }
{
    match found {
        None => 0,
        Some(n) => n,
    }
}

// The text of visible bytes, which are ASCII.
#[tactic(auto, using(crate::proofs::Judgement::visible_utf8))]
fn text_of(alloc: Global, bytes: &[u8]) -> Result<Text, Memory>
    requires { is_visible bytes.now ≡ true }
    ensures { IfOk result (λ text. text ≡ bytes.now) }
{
    match String::from_utf8(Vec::from_slice(alloc, bytes)?) {
        Ok(string) => Ok(Text::from(string)),
        Err(_) => unreachable!(),
    }
}

// The head's parts, which are fine.
fn make_head(
    alloc: Global,
    method: &[u8],
    target: &[u8],
    length: u64,
    expects: bool,
    close: bool,
) -> Result<Head, Memory>
    requires method { is_visible method.now ≡ true }
    requires target { is_visible target.now ≡ true }
    requires length { length ≤ 1048576 }
    ensures { IfOk result (λ head. facts_of head ≡ record { method = method.now; target = target.now; length = length; expects = expects; close = close }) }
{
    Ok(Head {
        method: text_of(alloc, method)?,
        target: text_of(alloc, target)?,
        length: length as usize,
        expects,
        close,
    })
}

// The tests behind that of the length.
#[tactic(auto, unfolding(crate::specs::Judge::refuse))]
fn judge_length(
    alloc: Global,
    buf: &[u8],
    method: &[u8],
    target: &[u8],
    minor: u8,
    headers: &[HeaderSpan],
    found: Option<u64>,
) -> Judged
    requires { All (IsHeaderWithin (length buf.now)) headers.now }
    ensures { Judges (with_length method.now target.now minor (map (header_bytes buf.now) headers.now) (Some found)) result }
{
    let size = size_or_none(found);
    if size > BODY_BYTES {
        return Judged::Refused(Rejection::TooLarge);
    }
    if !(is_visible_text(method) && is_visible_text(target)) {
        return Judged::Refused(Rejection::Head);
    }
    let hosts = count_of(buf, headers, b"host");
    if hosts > 1 || (minor == 1 && hosts == 0) {
        return Judged::Refused(Rejection::Host);
    }
    let expects = size > 0
        && (minor == 1 && has_value_in(buf, headers, b"expect", b"100-continue"));
    let close = minor == 0 || has_value_in(buf, headers, b"connection", b"close");
    match make_head(alloc, method, target, size, expects, close) {
        Ok(head) => Judged::Fine(head),
        Err(Memory) => Judged::Memory,
    }
}

// What a head asks for, or why it is refused.
#[tactic(auto, unfolding(crate::specs::Judge::refuse, crate::specs::Judge::judge_parts))]
fn judge_fields(
    alloc: Global,
    buf: &[u8],
    method: &[u8],
    target: &[u8],
    minor: u8,
    headers: &[HeaderSpan],
) -> Judged
    requires { All (IsHeaderWithin (length buf.now)) headers.now }
    ensures { Judges (judge_parts method.now target.now minor (map (header_bytes buf.now) headers.now)) result }
{
    if headers.len() > HEADERS {
        return Judged::Refused(Rejection::HeadTooLarge);
    }
    if count_of(buf, headers, b"transfer-encoding") > 0 {
        return Judged::Refused(Rejection::Unsupported);
    }
    match length_in(buf, headers, b"content-length") {
        None => Judged::Refused(Rejection::ContentLength),
        Some(length) => judge_length(alloc, buf, method, target, minor, headers, length),
    }
}

// What a head asks for, or why it is refused.
pub(crate) fn judge_head(
    alloc: Global,
    buf: &[u8],
    spans: &RequestSpans,
    headers: &[HeaderSpan],
) -> Judged
    requires within { IsRequestWithin buf.now headers.now spans.now }
    ensures { (h : RequestHead) → IsRequestAt buf.now headers.now spans.now h → Judges (judge h) result }
{
    judge_fields(
        alloc,
        buf,
        spans.method.of(buf),
        spans.path.of(buf),
        spans.version,
        first_of(headers, spans.headers),
    )
}

// The first headers.
fn first_of(headers: &[HeaderSpan], count: usize) -> &[HeaderSpan]
    requires { count ≤ length headers.now }
    ensures { result.now ≡ take count headers.now }
{
    &headers[..count]
}
