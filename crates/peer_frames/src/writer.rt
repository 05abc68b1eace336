//! Frames as bytes.

ghost use Rattle.std.specs.Prelude.{◌≡◌, ◌≤◌, ◌++◌, ◌∷◌, [], length, IfOk, OnErr, OnOk};
ghost use Rattle.std.specs.List.{concat, flat_map};
ghost use Rattle.cat_model.specs.Spelling.{number_bytes};
ghost use Rattle.peer_frames.specs.Spelling.{body_bytes, fields_of, frame_bytes, kind_of, length_bytes, message_fields, message_kind, most_body, role_bytes, why_bytes};
ghost use Rattle.peer_frames.specs.declared.frame.Frame.TheVariants as frames;

use crate::frame::{Frame, Why};
use cat_model::{Bytes, Memory, Role};
use command_codec::encode;
use raft_model::Message;
use std::alloc::Global;
use store_records::{put_byte, put_entries, put_number};

fn role_byte(role: Role) -> u8
    ensures { role_bytes role ≡ result ∷ [] }
{
    match role {
        Role::Follower => 0,
        Role::Candidate => 1,
        Role::Leader => 2,
    }
}

fn why_byte(why: Why) -> u8
    ensures { why_bytes why ≡ result ∷ [] }
{
    match why {
        Why::NotLeader => 1,
        Why::Full => 2,
        Why::Halted => 3,
    }
}

fn message_kind_byte(message: &Message) -> u8
    ensures { result ≡ message_kind message.now }
{
    match message {
        Message::AskVote { .. } => 1,
        Message::Vote { .. } => 2,
        Message::Append { .. } => 3,
        Message::Yes { .. } => 4,
        Message::No { .. } => 5,
    }
}

fn kind_byte(frame: &Frame) -> u8
    ensures { result ≡ kind_of frame.now }
{
    match frame {
        Frame::Peer { sender: _, message } => message_kind_byte(message),
        Frame::Propose { .. } => 6,
        Frame::Status => 7,
        Frame::Placed { .. } => 8,
        Frame::Refused { .. } => 9,
        Frame::State { .. } => 10,
    }
}

// Puts numbers last, one after another.
fn put_numbers(out: &mut Bytes, numbers: &[u64]) -> Result<(), Memory>
    ensures { OnOk result (out.new ≡ out.old ++ flat_map number_bytes numbers.now) }
{
    for number in numbers {
        put_number(out, *number)?;
    }
    Ok(())
}

fn put_message(alloc: Global, out: &mut Bytes, message: &Message) -> Result<(), Memory>
    ensures { OnOk result (out.new ≡ out.old ++ concat (message_fields message.now)) }
{
    match message {
        Message::AskVote {
            term,
            last_index,
            last_term,
        } => put_numbers(out, &[*term, *last_index, *last_term]),
        Message::Vote { term, granted } => {
            put_number(out, *term)?;
            put_byte(out, u8::from(*granted))
        }
        Message::Append {
            term,
            prev_index,
            prev_term,
            entries,
            commit,
            round,
        } => {
            put_numbers(out, &[*term, *prev_index, *prev_term])?;
            put_entries(alloc, out, entries)?;
            put_numbers(out, &[*commit, *round])
        }
        Message::Yes {
            term,
            matched,
            round,
        } => put_numbers(out, &[*term, *matched, *round]),
        Message::No { term, last } => put_numbers(out, &[*term, *last]),
    }
}

fn put_fields(alloc: Global, out: &mut Bytes, frame: &Frame) -> Result<(), Memory>
    ensures { OnOk result (out.new ≡ out.old ++ concat (fields_of frame.now)) }
{
    match frame {
        Frame::Peer { sender, message } => {
            put_number(out, u64::from(*sender))?;
            put_message(alloc, out, message)?;
        }
        Frame::Propose { command } => encode(alloc, command, out)?,
        Frame::Status => {}
        Frame::Placed { index, term } => {
            put_number(out, *index)?;
            put_number(out, *term)?;
        }
        Frame::Refused { why } => put_byte(out, why_byte(*why))?,
        Frame::State {
            term,
            role,
            commit,
            last,
        } => {
            put_number(out, *term)?;
            put_byte(out, role_byte(*role))?;
            put_number(out, *commit)?;
            put_number(out, *last)?;
        }
    }
    Ok(())
}

fn no_bytes(alloc: Global) -> Bytes
    ensures { length result ≡ 0 }
{
    Bytes::from(Vec::new(alloc))
}

fn frame_body(alloc: Global, frame: &Frame) -> Result<Bytes, Memory>
    ensures { IfOk result (λ body. body ≡ body_bytes frame.now) }
{
    let mut body = no_bytes(alloc);
    put_byte(&mut body, kind_byte(frame))?;
    put_fields(alloc, &mut body, frame)?;
    Ok(body)
}

fn message_body(alloc: Global, sender: u32, message: &Message) -> Result<Bytes, Memory>
    ensures { IfOk result (λ body. body ≡ body_bytes (frames.Peer sender message.now)) }
{
    let mut body = no_bytes(alloc);
    put_byte(&mut body, message_kind_byte(message))?;
    put_number(&mut body, u64::from(sender))?;
    put_message(alloc, &mut body, message)?;
    Ok(body)
}

// Puts a body last, behind its length.
fn put_framed(alloc: Global, body: &Bytes, out: &mut Bytes) -> Result<(), Memory>
    requires { length body.now ≤ most_body }
    ensures ok { OnOk result (out.new ≡ out.old ++ (length_bytes (length body.now) ++ body.now)) }
    ensures err { OnErr result (out.new ≡ out.old) }
{
    let mut bytes = no_bytes(alloc);
    bytes.extend(&(body.len() as u32).to_be_bytes())?;
    bytes.extend(body.as_slice())?;
    out.extend(bytes.as_slice())
}

/// Puts the frame last. After lack of memory `out` is as before.
pub fn write_frame(alloc: Global, frame: &Frame, out: &mut Bytes) -> Result<(), Memory>
    requires { length (body_bytes frame.now) ≤ most_body }
    ensures ok { OnOk result (out.new ≡ out.old ++ frame_bytes frame.now) }
    ensures err { OnErr result (out.new ≡ out.old) }
{
    let body = frame_body(alloc, frame)?;
    put_framed(alloc, &body, out)
}

/// Puts the frame of a server's message last. After lack of memory `out` is as before.
pub fn write_message(
    alloc: Global,
    sender: u32,
    message: &Message,
    out: &mut Bytes,
) -> Result<(), Memory>
    requires { length (body_bytes (frames.Peer sender message.now)) ≤ most_body }
    ensures ok { OnOk result (out.new ≡ out.old ++ frame_bytes (frames.Peer sender message.now)) }
    ensures err { OnErr result (out.new ≡ out.old) }
{
    let body = message_body(alloc, sender, message)?;
    put_framed(alloc, &body, out)
}
