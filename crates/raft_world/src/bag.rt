//! The messages on their way.

ghost use Rattle.std.specs.Prelude.{◌≡◌, ◌<◌, [], ℕ, IfOk, IfSome, IfNone, is_some, length, get_or};
ghost use Rattle.std.specs.List.{remove};
ghost use Rattle.std.specs.Option.{option_copied};
ghost use Rattle.std.specs.VecDeque.{deque_capacity};
ghost use Rattle.std.specs.List.Sorted.{IsNonDecreasingBy};
ghost use Rattle.raft_model.specs.World as model;
ghost use Rattle.raft_model.specs.World.{message_bytes, numbered, posted, posted_all, without};
ghost use Rattle.raft_world.specs.Packets.{HasPlace, IsLowest, first_of};
ghost use Rattle.raft_world.specs.Weights.{capped};

use crate::weight::message_bytes;
use cat_model::{List, Memory};
use raft_model::{Message, Sent};
use std::alloc::Global;
use std::collections::VecDeque;
use std::marker::Model;

// A bag has at most so many messages.
const MOST_MESSAGES: usize = 4096;

// They take at most so many bytes.
const MOST_BYTES: u64 = 67_108_864;

/// A message on its way, with its number in the order of sending. Numbers start at 1.
#[derive(Drop)]
pub struct Packet {
    number: u64,
    from: u32,
    to: u32,
    message: Message,
}

impl Model for Packet {
    ghost use Rattle.raft_model.specs.World as model;

    ghost Value = { model.Packet };

    ghost view = { λ p. record { number = p.number; from = p.from; to = p.to; message = p.message } };
}

impl Packet {
    pub fn number(&self) -> u64
        ensures { result ≡ self.now.number }
    {
        self.number
    }

    /// The server that sent it.
    pub fn from(&self) -> u32
        ensures { result ≡ self.now.from }
    {
        self.from
    }

    /// The server that is to receive it.
    pub fn to(&self) -> u32
        ensures { result ≡ self.now.to }
    {
        self.to
    }

    pub fn message(&self) -> &Message
        ensures { result.now ≡ self.now.message }
    {
        &self.message
    }
}

/// The messages on their way, which may come in any order, more than once, or never. A message that would pass a
/// limit of the bag is lost and takes no number.
#[derive(Drop)]
pub struct Bag {
    // In the order of their numbers.
    packets: VecDeque<Packet>,
    // What they take.
    bytes: u64,
    last: u64,
}

impl Model for Bag {
    ghost use Rattle.std.specs.Prelude.{◌≤◌};
    ghost use Rattle.std.specs.VecDeque.{deque_capacity};
    ghost use Rattle.raft_model.specs.World as model;

    ghost Value = { model.Bag };

    ghost use Rattle.raft_world.specs.Packets.{InOrder};

    ghost view = { λ b. record { packets = b.packets.items; last = b.last } };

    ghost invariant = { λ b. (4096 ≤ deque_capacity b.packets) × InOrder b.bytes b.last b.packets.items };
}

// Where the message of a number stands.
fn place(packets: &VecDeque<Packet>, number: u64) -> Option<usize>
    requires { IsNonDecreasingBy (λ p. p.number) packets.now.items }
    ensures found { IfSome result (HasPlace number packets.now.items) }
    ensures absent { IfNone result (numbered number packets.now.items ≡ None) }
{
    let at = packets.partition_point(|packet| packet.number() < number);
    if at < packets.len() && packets[at].number() == number {
        Some(at)
    } else {
        None
    }
}

// Takes a message out, and tells how many bytes it took.
fn take_out(packets: &mut VecDeque<Packet>, at: usize) -> u64
    requires { at < length packets.old.items }
    ensures items { packets.new.items ≡ remove packets.old.items at }
    ensures capacity { deque_capacity packets.new ≡ deque_capacity packets.old }
    ensures bytes { (p : model.Packet) → result ≡ capped (message_bytes (get_or packets.old.items at p).message) }
{
    match packets.remove(at) {
        Some(packet) => message_bytes(packet.message()),
        None => 0,
    }
}

impl Bag {
    /// The empty bag, with room for all that it may have.
    pub fn new(alloc: Global) -> Result<Bag, Memory>
        ensures { IfOk result (λ bag. bag ≡ record { packets = []; last = 0 }) }
    {
        let packets = VecDeque::with_capacity(alloc, MOST_MESSAGES)?;
        Ok(Bag {
            packets,
            bytes: 0,
            last: 0,
        })
    }

    /// Puts a message that a server sends into the bag. It takes no memory.
    pub fn post(&mut self, from: u32, sent: Sent)
        ensures { self.new ≡ posted from sent self.old }
    {
        let bytes = message_bytes(&sent.message);
        if self.packets.len() >= MOST_MESSAGES
            || bytes > MOST_BYTES - self.bytes
            || self.last == u64::MAX
        {
            return;
        }
        self.last += 1;
        self.bytes += bytes;
        self.packets.push_back_reserved(Packet {
            number: self.last,
            from,
            to: sent.to,
            message: sent.message,
        });
    }

    /// Puts the messages that a server sends into the bag, in their order. It takes no memory.
    pub fn post_all(&mut self, from: u32, sent: List<Sent>)
        ensures { self.new ≡ posted_all from sent self.old }
    {
        for one in sent.into_vec() {
            self.post(from, one);
        }
    }

    /// The message of a number.
    pub fn find(&self, number: u64) -> Option<&Packet>
        ensures { option_copied result ≡ numbered number self.now.packets }
    {
        let at = place(&self.packets, number)?;
        self.packets.get(at)
    }

    /// There is a message of this number.
    pub fn contains(&self, number: u64) -> bool
        ensures { result ≡ is_some (numbered number self.now.packets) }
    {
        self.find(number).is_some()
    }

    /// Takes the message of a number out, where there is one.
    pub fn remove(&mut self, number: u64)
        ensures { self.new ≡ record { packets = without number self.old.packets; last = self.old.last } }
    {
        let Some(at) = place(&self.packets, number) else {
            return;
        };
        self.bytes -= take_out(&mut self.packets, at);
    }

    /// The lowest number of a message.
    pub fn lowest(&self) -> Option<u64>
        ensures { IsLowest result self.now.packets }
    {
        let packet = self.packets.front()?;
        Some(packet.number())
    }

    /// The message with the lowest number.
    pub fn first(&self) -> Option<&Packet>
        ensures { option_copied result ≡ first_of self.now.packets }
    {
        self.packets.front()
    }
}
