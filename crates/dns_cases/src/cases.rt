ghost use Rattle.std.specs.Prelude.{◌≡◌, ◌<◌};

use crate::registrations;
use crate::store_reader::StoreReader;
use crate::words::Words;
use cat_model::{Bytes, Command, Memory, Shared, Steps};
use catalog_store::{Store, is_taken};
use dns_service::answer_packet;
use std::alloc::Global;
use std::marker::Brand;
use std::sync::ledger::{Blank, Ledger};

/// A line that gives something else than what is written behind it.
#[derive(Drop)]
pub struct Difference {
    pub line: u64,
    pub is: String,
}

/// Plays the lines of a case over a new store, and gives the first that differs.
pub fn play(alloc: Global, text: &str) -> Result<Option<Difference>, Memory> {
    let mut store = Store::new(alloc)?;
    let difference = first_difference(alloc, &mut store, text);
    // What is large is let go by a call, here and below, so that no exit has to spell its drop out.
    drop(store);
    difference
}

fn first_difference(
    alloc: Global,
    store: &mut Store,
    text: &str,
) -> Result<Option<Difference>, Memory> {
    let mut line = 0u64;
    for words in text.lines() {
        line = line.saturating_add(1);
        if let Some(is) = differing(alloc, store, words)? {
            return Ok(Some(Difference { line, is }));
        }
    }
    Ok(None)
}

// What a line gives, where that is not what it should.
fn differing(alloc: Global, store: &mut Store, line: &str) -> Result<Option<String>, Memory> {
    if line.starts_with('#') {
        return Ok(None);
    }
    match line.split_once(" => ") {
        None => Ok(other_than("registered", registered(alloc, store, line)?)),
        Some((packet, wanted)) => Ok(other_than(wanted, replied(alloc, store, packet)?)),
    }
}

fn other_than(wanted: &str, is: String) -> Option<String> {
    if is.as_str() == wanted {
        None
    } else {
        Some(is)
    }
}

fn unread(alloc: Global) -> Result<String, Memory> {
    Ok(String::from_str(alloc, "not read")?)
}

// Registers at the next position.
fn registered(alloc: Global, store: &mut Store, said: &str) -> Result<String, Memory> {
    let mut words = Words::new(alloc, said);
    let command = Shared::new(alloc, registrations::read(&mut words))?;
    let given = if words.are_read() {
        applied(alloc, store, &command)
    } else {
        unread(alloc)
    };
    drop(command);
    given
}

fn applied(alloc: Global, store: &mut Store, command: &Shared<Command>) -> Result<String, Memory> {
    let position = store.length().saturating_add(1);
    if position > 262_144 || !is_taken(command) {
        return unread(alloc);
    }
    let (answer, fired) = store.apply(alloc, position, command)?;
    drop(answer);
    drop(fired);
    Ok(String::from_str(alloc, "registered")?)
}

// The reply to a packet.
fn replied(alloc: Global, store: &Store, digits: &str) -> Result<String, Memory> {
    let digits = if digits == "-" { "" } else { digits };
    match hex::decode(alloc, digits) {
        Ok(packet) => {
            let reply = reply_to(alloc, store, packet.as_slice())?;
            shown(alloc, &reply)
        }
        Err(_) => unread(alloc),
    }
}

fn shown(alloc: Global, reply: &Option<Bytes>) -> Result<String, Memory> {
    match reply {
        Some(reply) => Ok(hex::encode(alloc, reply.as_slice())?),
        None => Ok(String::from_str(alloc, "-")?),
    }
}

// Nobody reads how many evaluations were made.
fn reply_to(alloc: Global, store: &Store, packet: &[u8]) -> Result<Option<Bytes>, Memory> {
    counted::<Brand>(alloc, store, packet, Blank::new(1))
}

fn counted<L: Ledger>(
    alloc: Global,
    store: &Store,
    packet: &[u8],
    blank: Blank,
) -> Result<Option<Bytes>, Memory>
    requires name { blank.name ≡ L.name }
    requires parts { blank.parts ≡ L.parts }
    requires some { 0 < L.parts }
{
    let mut steps: Steps<L> = Steps::new(blank);
    answer_packet(alloc, &mut StoreReader { store }, packet, &mut steps)
}
