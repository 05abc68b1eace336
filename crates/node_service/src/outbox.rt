//! A host's outbox as frames for its peers.

ghost use Rattle.std.specs.Prelude.{◌≡◌, ◌||◌, true, IfOk, OnOk, is_err};
ghost use Rattle.std.specs.List.{filter_map};
ghost use Rattle.cat_model.specs.LogLimits.{entries_bytes};
ghost use Rattle.command_codec.specs.Counts.{capped};
ghost use Rattle.peer_frames.specs.Spelling.{frame_bytes};
ghost use Rattle.peer_frames.specs.declared.frame.Frame.TheVariants as frames;
ghost use Rattle.node_service.specs.Sending.{BringsAll, BringsOne, SendsAll, TakesAll, has_frame, lacks_memory, piece_of, pieces_of, port_of};

use crate::dialer::Dialer;
use cat_model::{Bytes, Entry, Memory};
use command_codec::encoded_len;
use node_link::Host;
use outside::{KeepFail, Keeper};
use peer_frames::write_message;
use raft_model::{Message, Sent};
use std::alloc::Global;

// An Append has at most so many entries, and their commands so many bytes.
const MOST_ENTRIES: usize = 64;

const MOST_BYTES: u64 = 67_108_864;

fn count_bytes(entries: &[Entry]) -> u64
    ensures { result ≡ capped (entries_bytes entries.now) }
{
    match entries.split_first() {
        None => 0,
        Some((entry, rest)) => encoded_len(&entry.command).saturating_add(count_bytes(rest)),
    }
}

fn has_frame(message: &Message) -> bool
    ensures { result ≡ has_frame message.now }
{
    match message {
        Message::Append { entries, .. } => {
            entries.len() <= MOST_ENTRIES && count_bytes(entries.as_slice()) <= MOST_BYTES
        }
        _ => true,
    }
}

// The port of a server, from 1.
fn port_of(ports: &[u16], server: u32) -> Option<u16>
    ensures { result ≡ port_of ports.now server }
{
    let index = server.checked_sub(1)?;
    ports.get(index as usize).copied()
}

fn frame_of(alloc: Global, sender: u32, message: &Message) -> Result<Bytes, Memory>
    requires { has_frame message.now ≡ true }
    ensures { IfOk result (λ bytes. bytes ≡ frame_bytes (frames.Peer sender message.now)) }
{
    let mut bytes = Bytes::from(Vec::new(alloc));
    write_message(alloc, sender, message, &mut bytes)?;
    Ok(bytes)
}

// Brings one message to its server, if it has a frame and a port. It fails as the dialer's call does, or for want of
// memory.
fn send_one<D: Dialer>(
    alloc: Global,
    sender: u32,
    ports: &[u16],
    sent: &Sent,
    dialer: &mut D,
) -> Result<(), KeepFail>
    ensures { BringsOne (piece_of sender ports.now sent.now) result (D.state dialer.old) (D.state dialer.new) }
{
    if !has_frame(&sent.message) {
        return Ok(());
    }
    let Some(port) = port_of(ports, sent.to) else {
        return Ok(());
    };
    let Ok(frame) = frame_of(alloc, sender, &sent.message) else {
        return Err(KeepFail::Memory);
    };
    dialer.send(port, frame.as_slice())
}

// Memory lacked for the first message or for another.
fn first_and_others(first: Result<(), KeepFail>, others: Result<(), Memory>) -> Result<(), Memory>
    ensures { (lacks_memory first || is_err others) ≡ is_err result }
{
    match first {
        Err(KeepFail::Memory) => Err(Memory),
        Err(KeepFail::Failed) => others,
        Ok(()) => others,
    }
}

// Brings the messages to their servers, each whatever became of those before it. It fails where memory lacked for one.
fn send_each<D: Dialer>(
    alloc: Global,
    sender: u32,
    ports: &[u16],
    messages: &[Sent],
    dialer: &mut D,
) -> Result<(), Memory>
    ensures { BringsAll (filter_map (piece_of sender ports.now) messages.now) (is_err result) (D.state dialer.old) (D.state dialer.new) }
{
    let Some((first, rest)) = messages.split_first() else {
        return Ok(());
    };
    let one = send_one(alloc, sender, ports, first, dialer);
    let others = send_each(alloc, sender, ports, rest, dialer);
    first_and_others(one, others)
}

/// Takes all messages out of the outbox, and brings each as its frame to the port of its server: that of server 1 is the
/// first of `ports`, and so on. A message whose sending fails is lost, as a network may lose it; the dialer counts that.
pub fn send_all<K: Keeper + Drop, D: Dialer>(
    host: &mut Host<K>,
    alloc: Global,
    dialer: &mut D,
    ports: &[u16],
) -> Result<(), Memory>
    ensures sent { SendsAll ports.now host.old (D.state dialer.old) result host.new (D.state dialer.new) }
    ensures taken { OnOk result (TakesAll (pieces_of ports.now host.old) (D.state dialer.old) (D.state dialer.new)) }
{
    let sender = host.id();
    let messages = host.take_outbox(alloc)?;
    send_each(alloc, sender, ports, messages.as_slice(), dialer)
}
