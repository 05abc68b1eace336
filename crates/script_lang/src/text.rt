ghost use Rattle.std.specs.Prelude.{◌≡◌, ◌++◌, ◌∷◌, ◌<◌, IfOk, OnOk, OnErr, false};
ghost use Rattle.std.specs.Fmt.{decimal, digit_glyph};
ghost use Rattle.std.specs.String.{string_bytes};
ghost use Rattle.script_lang.specs.Text as spec;

use crate::bad_line::BadLine;
use cat_model::{Bytes, Memory, Out, Reply};
use std::alloc::Global;

// A byte of a body: printable ones as they are, but a backslash doubled; any other in two hex digits.
fn push_escaped(text: &mut Vec<u8>, byte: u8) -> Result<(), Memory>
    ensures { OnOk result (text.new.items ≡ text.old.items ++ spec.escaped byte) }
{
    if byte == b'\\' {
        text.extend_from_slice(b"\\\\")?;
    } else if (0x20..=0x7e).contains(&byte) {
        text.push(byte)?;
    } else {
        text.extend_from_slice(&[b'\\', b'x', hex_digit(byte / 16), hex_digit(byte % 16)])?;
    }
    Ok(())
}

fn hex_digit(digit: u8) -> u8
    requires { digit < 16 }
    ensures { result ≡ digit_glyph false digit }
{
    if digit < 10 {
        b'0' + digit
    } else {
        b'a' + (digit - 10)
    }
}

fn push_body(text: &mut Vec<u8>, body: &[u8]) -> Result<(), Memory>
    ensures { OnOk result (text.new.items ≡ text.old.items ++ spec.body_text body.now) }
{
    if body.is_empty() {
        return Ok(());
    }
    text.push(b' ')?;
    for byte in body {
        push_escaped(text, *byte)?;
    }
    Ok(())
}

fn index_text(alloc: Global, index: Option<u64>) -> Result<String, Memory>
    ensures { IfOk result (λ text. string_bytes text ≡ spec.index_text index) }
{
    match index {
        None => Ok(String::from_str(alloc, "-")?),
        Some(index) => Ok(index.to_string(alloc)?),
    }
}

// The line of a reply.
fn reply_text(alloc: Global, reply: &Reply) -> Result<Vec<u8>, Memory>
    ensures { IfOk result (λ text. text.items ≡ spec.reply_text reply.now) }
{
    let index = index_text(alloc, reply.index)?;
    let head = format!(in alloc; "#{} {} {}", reply.number, reply.status, index)?;
    let mut text = head.into_bytes();
    push_body(&mut text, reply.body.as_slice())?;
    text.push(b'\n')?;
    Ok(text)
}

fn count_text(alloc: Global, count: Option<u32>) -> Result<String, Memory>
    ensures { IfOk result (λ text. string_bytes text ≡ spec.count_text count) }
{
    match count {
        None => Ok(String::from_str(alloc, "no leader")?),
        Some(count) => Ok(count.to_string(alloc)?),
    }
}

// The line of a request that was closed.
fn closed_text(alloc: Global, number: u64) -> Result<Vec<u8>, Memory>
    ensures { IfOk result (λ text. text.items ≡ spec.closed_text number) }
{
    Ok(format!(in alloc; "#{number} closed\n")?.into_bytes())
}

// The line of an agent's sync.
fn synced_text(alloc: Global, agent: u32, count: Option<u32>) -> Result<Vec<u8>, Memory>
    ensures { IfOk result (λ text. text.items ≡ spec.synced_text agent count) }
{
    let count = count_text(alloc, count)?;
    Ok(format!(in alloc; "sync {agent} {count}\n")?.into_bytes())
}

// The line of an out.
fn out_text(alloc: Global, out: &Out) -> Result<Vec<u8>, Memory>
    ensures { IfOk result (λ text. text.items ≡ spec.out_text out.now) }
{
    match out {
        Out::Reply(reply) => reply_text(alloc, reply),
        Out::Closed { number, .. } => closed_text(alloc, *number),
        Out::Synced { agent, count } => synced_text(alloc, *agent, *count),
    }
}

/// Puts the line of an out last. After lack of memory the bytes are as before.
pub fn print_out(alloc: Global, out: &Out, into: &mut Bytes) -> Result<(), Memory>
    ensures ok { OnOk result (into.new ≡ into.old ++ spec.out_text out.now) }
    ensures err { OnErr result (into.new ≡ into.old) }
{
    match out_text(alloc, out) {
        Ok(text) => into.extend(&text),
        Err(Memory) => Err(Memory),
    }
}

// The line that says which line is refused, and why.
fn refused_text(alloc: Global, line: u64, reason: BadLine) -> Result<Vec<u8>, Memory>
    ensures { IfOk result (λ text. text.items ≡ spec.refused_text line reason) }
{
    Ok(format!(in alloc; "line {line}: {reason}\n")?.into_bytes())
}

/// Puts the line last that says which line is refused, and why. After lack of memory the bytes are as before.
pub fn print_refused(
    alloc: Global,
    line: u64,
    reason: BadLine,
    into: &mut Bytes,
) -> Result<(), Memory>
    ensures ok { OnOk result (into.new ≡ into.old ++ spec.refused_text line reason) }
    ensures err { OnErr result (into.new ≡ into.old) }
{
    match refused_text(alloc, line, reason) {
        Ok(text) => into.extend(&text),
        Err(Memory) => Err(Memory),
    }
}

fn push_number(text: &mut Vec<u8>, alloc: Global, number: u64) -> Result<(), Memory>
    ensures { OnOk result (text.new.items ≡ text.old.items ++ 32 ∷ decimal number) }
{
    let word = format!(in alloc; " {number}")?;
    text.extend_from_slice(word.as_bytes())?;
    Ok(())
}

// The last line of a whole run.
fn end_text(alloc: Global, log: u64, unanswered: &[u64]) -> Result<Vec<u8>, Memory>
    ensures { IfOk result (λ text. text.items ≡ spec.end_text log unanswered.now) }
{
    let count = unanswered.len();
    let mut text = format!(in alloc; "end log {log} open {count}")?.into_bytes();
    for number in unanswered {
        push_number(&mut text, alloc, *number)?;
    }
    text.push(b'\n')?;
    Ok(text)
}

/// Puts the last line of a whole run last: the length of the agreed log, and the numbers of the requests that have no
/// reply. After lack of memory the bytes are as before.
pub fn print_end(
    alloc: Global,
    log: u64,
    unanswered: &[u64],
    into: &mut Bytes,
) -> Result<(), Memory>
    ensures ok { OnOk result (into.new ≡ into.old ++ spec.end_text log unanswered.now) }
    ensures err { OnErr result (into.new ≡ into.old) }
{
    match end_text(alloc, log, unanswered) {
        Ok(text) => into.extend(&text),
        Err(Memory) => Err(Memory),
    }
}
