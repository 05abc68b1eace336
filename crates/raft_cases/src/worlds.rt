//! The lines of a cluster. `timeout S`, `beat S TIMES`, `tick S MILLISECONDS`, `fail S NTH`, `restart S` and `at S`
//! give server S and then its clock and its contact; `propose S` (a Reap with number 0) gives its place before that, and
//! `probe S` its round, or why there is none. `deliver K` delivers message K, `lose K` takes it out, and `settle N` does
//! both with the messages of the lowest numbers, N at most, and gives how many there were. `message K` gives message K,
//! `lowest` the lowest number, and `agreed` the agreed log. `-` is no contact, no message, no number or no entry.

ghost use Rattle.std.specs.Prelude.{◌≡◌, true};
ghost use Rattle.raft_world.specs.Steps.{IsNumber};

use crate::shown::{put_node, put_place, put_round, refused, unprobed, unread};
use crate::words::{Words, number, server};
use crate::{logs, messages};
use cat_model::{Command, List, Memory, Shared};
use outside::SureKeeper;
use raft_model::{Place, Round};
use raft_node::{ProbeFault, ProposeFault};
use raft_world::World;
use raft_world::bag::Packet;
use std::alloc::{AllocError, Global};
use std::fmt::Write;

/// Two or three servers whose stores hold nothing yet. `None` also stands for lack of memory.
pub fn begin(alloc: Global, count: u32) -> Option<World<SureKeeper>> {
    if count < 2 || count > 3 {
        return None;
    }
    let mut stores = List::new(alloc);
    stores.push(SureKeeper::new(alloc)).ok()?;
    stores.push(SureKeeper::new(alloc)).ok()?;
    if count == 3 {
        stores.push(SureKeeper::new(alloc)).ok()?;
    }
    World::new(alloc, stores).ok()
}

/// What a line of the cluster gives.
pub fn given(
    alloc: Global,
    world: &mut World<SureKeeper>,
    what: &str,
    words: &mut Words,
) -> Result<String, Memory> {
    match what {
        "settle" => settle(alloc, world, number(words).unwrap_or(0)),
        "deliver" => deliver(alloc, world, number(words).unwrap_or(0)),
        "lose" => lose(alloc, world, number(words).unwrap_or(0)),
        "message" => message(alloc, world, number(words).unwrap_or(0)),
        "lowest" => lowest(alloc, world),
        "agreed" => agreed(alloc, world),
        _ => at_server(alloc, world, what, words),
    }
}

fn at_server(
    alloc: Global,
    world: &mut World<SureKeeper>,
    what: &str,
    words: &mut Words,
) -> Result<String, Memory> {
    let s = server(words).unwrap_or(0);
    let mut out = String::new(alloc);
    if !act(alloc, world, s, what, words, &mut out)? {
        return unread(alloc);
    }
    put_server(&mut out, world, s)?;
    Ok(out)
}

// Does what the line says, puts what that gives, and says whether there is such a line.
fn act(
    alloc: Global,
    world: &mut World<SureKeeper>,
    s: u32,
    what: &str,
    words: &mut Words,
    out: &mut String,
) -> Result<bool, Memory> {
    match what {
        "propose" => put_proposed(out, propose(alloc, world, s))?,
        "probe" => put_probed(out, probe(alloc, world, s))?,
        _ => return change(alloc, world, s, what, words),
    }
    Ok(true)
}

fn change(
    alloc: Global,
    world: &mut World<SureKeeper>,
    s: u32,
    what: &str,
    words: &mut Words,
) -> Result<bool, Memory> {
    match what {
        "at" => {}
        "timeout" => time_out(alloc, world, s)?,
        "beat" => beat(alloc, world, s, number(words).unwrap_or(1))?,
        "tick" => tick(world, s, number(words).unwrap_or(0)),
        "fail" => fail(world, s, server(words).unwrap_or(0)),
        "restart" => restart(alloc, world, s)?,
        _ => return Ok(false),
    }
    Ok(true)
}

fn is_server(world: &World<SureKeeper>, s: u32) -> bool
    ensures { result ≡ true → IsNumber s world.now }
{
    1 <= s && s <= world.servers()
}

// A server with its clock and contact, where there is such a server.
fn put_server(out: &mut String, world: &World<SureKeeper>, s: u32) -> Result<(), AllocError> {
    if !is_server(world, s) {
        return out.push_str("no server");
    }
    put_node(out, world.node(s))?;
    let clock = world.clock(s);
    write!(out, ", clock {clock}, contact ")?;
    put_option(out, world.contact(s))
}

fn put_option(out: &mut String, number: Option<u64>) -> Result<(), AllocError> {
    match number {
        None => out.push_str("-"),
        Some(number) => write!(out, "{number}"),
    }
}

fn time_out(alloc: Global, world: &mut World<SureKeeper>, s: u32) -> Result<(), Memory> {
    if is_server(world, s) {
        world.timeout(alloc, s)?;
    }
    Ok(())
}

fn beat(alloc: Global, world: &mut World<SureKeeper>, s: u32, times: u64) -> Result<(), Memory> {
    for _ in 0..times {
        beat_once(alloc, world, s)?;
    }
    Ok(())
}

fn beat_once(alloc: Global, world: &mut World<SureKeeper>, s: u32) -> Result<(), Memory> {
    if is_server(world, s) {
        world.beat(alloc, s)?;
    }
    Ok(())
}

fn tick(world: &mut World<SureKeeper>, s: u32, milliseconds: u64) {
    if is_server(world, s) && world.clock(s) < 1_000_000 && milliseconds < 1_000_000 {
        world.tick(s, milliseconds);
    }
}

fn fail(world: &mut World<SureKeeper>, s: u32, nth: u32) {
    if is_server(world, s) {
        world.fail_keep(s, nth);
    }
}

fn restart(alloc: Global, world: &mut World<SureKeeper>, s: u32) -> Result<(), Memory> {
    if is_server(world, s) {
        world.restart(alloc, s)?;
    }
    Ok(())
}

fn propose(
    alloc: Global,
    world: &mut World<SureKeeper>,
    s: u32,
) -> Option<Result<Place, ProposeFault>> {
    if !is_server(world, s) {
        return None;
    }
    match Shared::new(alloc, Command::Reap) {
        Ok(command) => Some(world.propose(alloc, s, 0, command)),
        Err(Memory) => Some(Err(ProposeFault::Memory)),
    }
}

fn put_proposed(
    out: &mut String,
    proposed: Option<Result<Place, ProposeFault>>,
) -> Result<(), AllocError> {
    match proposed {
        None => Ok(()),
        Some(Ok(place)) => put_place(out, place),
        Some(Err(fault)) => out.push_str(refused(fault)),
    }
}

fn probe(
    alloc: Global,
    world: &mut World<SureKeeper>,
    s: u32,
) -> Option<Result<Round, ProbeFault>> {
    if !is_server(world, s) || world.node(s).round() == u64::MAX {
        return None;
    }
    Some(world.probe(alloc, s))
}

fn put_probed(
    out: &mut String,
    probed: Option<Result<Round, ProbeFault>>,
) -> Result<(), AllocError> {
    match probed {
        None => Ok(()),
        Some(Ok(round)) => put_round(out, round),
        Some(Err(fault)) => out.push_str(unprobed(fault)),
    }
}

// Delivers the message of the lowest number, where there is one, and takes it out.
fn deliver_lowest(alloc: Global, world: &mut World<SureKeeper>) -> Result<bool, Memory> {
    let Some(k) = world.lowest() else {
        return Ok(false);
    };
    if world.in_bag(k) {
        world.deliver(alloc, k)?;
    }
    take_out(world, k);
    Ok(true)
}

fn take_out(world: &mut World<SureKeeper>, k: u64) {
    if world.in_bag(k) {
        world.lose(k);
    }
}

// Delivers messages, up to so many, and tells how many there were.
fn deliver_all(alloc: Global, world: &mut World<SureKeeper>, most: u64) -> Result<u64, Memory> {
    for count in 0..most {
        if !deliver_lowest(alloc, world)? {
            return Ok(count);
        }
    }
    Ok(most)
}

fn settle(alloc: Global, world: &mut World<SureKeeper>, most: u64) -> Result<String, Memory> {
    let count = deliver_all(alloc, world, most)?;
    Ok(format!(in alloc; "{count} delivered")?)
}

// The message stays, and may come again.
fn deliver(alloc: Global, world: &mut World<SureKeeper>, k: u64) -> Result<String, Memory> {
    if !world.in_bag(k) {
        return unread(alloc);
    }
    world.deliver(alloc, k)?;
    Ok(String::from_str(alloc, "delivered")?)
}

fn lose(alloc: Global, world: &mut World<SureKeeper>, k: u64) -> Result<String, Memory> {
    if !world.in_bag(k) {
        return unread(alloc);
    }
    take_out(world, k);
    Ok(String::from_str(alloc, "lost")?)
}

fn message(alloc: Global, world: &World<SureKeeper>, k: u64) -> Result<String, Memory> {
    let mut out = String::new(alloc);
    match world.packet(k) {
        None => out.push_str("-")?,
        Some(packet) => put_packet(&mut out, packet)?,
    }
    Ok(out)
}

fn put_packet(out: &mut String, packet: &Packet) -> Result<(), AllocError> {
    let number = packet.number();
    let from = packet.from();
    let to = packet.to();
    write!(out, "{number} from {from} to {to} ")?;
    messages::put(out, packet.message())
}

fn lowest(alloc: Global, world: &World<SureKeeper>) -> Result<String, Memory> {
    let mut out = String::new(alloc);
    put_option(&mut out, world.lowest())?;
    Ok(out)
}

fn agreed(alloc: Global, world: &World<SureKeeper>) -> Result<String, Memory> {
    let mut out = String::new(alloc);
    logs::put(&mut out, world.agreed())?;
    Ok(out)
}
