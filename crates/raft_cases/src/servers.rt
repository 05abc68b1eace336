//! The lines of one server: `timeout`, `beat`, `restart`, `fail NTH` (the store's call of this number from now on),
//! `from SERVER MESSAGE`, `propose NUMBER` or `propose FIRST to LAST` (Reaps of these numbers, until one is refused),
//! `probe`, `confirmed` (the round that was begun last), and `round`. All but the last two give the server and what it
//! sends; a proposal gives its place before that, and a probe its round, or why there is none.

use crate::messages;
use crate::shown::{
    counted, put_node, put_place, put_round, put_sent, refused, tested, unprobed, unread,
};
use crate::words::{Words, number, server};
use cat_model::{Command, List, Memory, Shared};
use outside::SureKeeper;
use raft_model::{Place, Round, Sent};
use raft_node::{Node, ProposeFault};
use std::alloc::Global;

/// A server, and the round that it began last.
#[derive(Drop)]
pub struct Played {
    node: Node<SureKeeper>,
    round: Option<Round>,
}

/// The server `I of N` with an empty store. `None` also stands for lack of memory.
pub fn begin(alloc: Global, words: &mut Words) -> Option<Played> {
    let id = server(words)?;
    words.next()?;
    let servers = server(words)?;
    let node = Node::start(alloc, id, servers, SureKeeper::new(alloc)).ok()?;
    Some(Played { node, round: None })
}

/// The server.
pub fn state(alloc: Global, played: &Played) -> Result<String, Memory> {
    let mut out = String::new(alloc);
    put_node(&mut out, &played.node)?;
    Ok(out)
}

/// What a line of the server gives.
pub fn given(
    alloc: Global,
    played: &mut Played,
    what: &str,
    words: &mut Words,
) -> Result<String, Memory> {
    match what {
        "timeout" => time_out(alloc, &mut played.node),
        "beat" => beat(alloc, &mut played.node),
        "restart" => restart(alloc, &mut played.node),
        "fail" => fail(alloc, &mut played.node, words),
        "from" => hear(alloc, &mut played.node, words),
        "propose" => propose(alloc, &mut played.node, words),
        "probe" => probe(alloc, played),
        "confirmed" => confirmed(alloc, played),
        "round" => counted(alloc, Some(played.node.round())),
        _ => unread(alloc),
    }
}

// The server and what it sends.
fn shown(alloc: Global, node: &Node<SureKeeper>, sent: List<Sent>) -> Result<String, Memory> {
    put(String::new(alloc), node, sent.as_slice())
}

// The server and what it sends, behind this text.
fn put(mut out: String, node: &Node<SureKeeper>, sent: &[Sent]) -> Result<String, Memory> {
    put_node(&mut out, node)?;
    put_sent(&mut out, sent)?;
    Ok(out)
}

fn time_out(alloc: Global, node: &mut Node<SureKeeper>) -> Result<String, Memory> {
    let sent = node.timeout(alloc)?;
    shown(alloc, node, sent)
}

fn beat(alloc: Global, node: &mut Node<SureKeeper>) -> Result<String, Memory> {
    let sent = node.beat(alloc)?;
    shown(alloc, node, sent)
}

fn restart(alloc: Global, node: &mut Node<SureKeeper>) -> Result<String, Memory> {
    node.restart(alloc)?;
    put(String::new(alloc), node, &[])
}

fn fail(alloc: Global, node: &mut Node<SureKeeper>, words: &mut Words) -> Result<String, Memory> {
    let Some(nth) = server(words) else {
        return unread(alloc);
    };
    node.fail_keep(nth);
    put(String::new(alloc), node, &[])
}

// It takes a message of another server.
fn hear(alloc: Global, node: &mut Node<SureKeeper>, words: &mut Words) -> Result<String, Memory> {
    let from = server(words).unwrap_or(0);
    if from == 0 || from > node.servers() || from == node.id() {
        return unread(alloc);
    }
    let Some(message) = messages::read(alloc, words) else {
        return unread(alloc);
    };
    let sent = node.receive(alloc, from, &message);
    drop(message); // Before any early return.
    shown(alloc, node, sent?)
}

// The numbers of the first and the last proposal of a line.
fn first_and_last(words: &mut Words) -> Option<(u64, u64)> {
    let first = number(words)?;
    if words.next().is_none() {
        return Some((first, first));
    }
    let last = number(words)?;
    Some((first, last))
}

// Proposes Reaps of these numbers, as long as they are not refused, and gives what comes of the last.
fn propose_all(
    alloc: Global,
    node: &mut Node<SureKeeper>,
    first: u64,
    last: u64,
) -> Result<(Place, List<Sent>), ProposeFault> {
    for number in first..last {
        propose_one(alloc, node, number)?;
    }
    propose_one(alloc, node, last)
}

fn propose_one(
    alloc: Global,
    node: &mut Node<SureKeeper>,
    number: u64,
) -> Result<(Place, List<Sent>), ProposeFault> {
    let reap = Shared::new(alloc, Command::Reap)?;
    node.propose(alloc, number, reap)
}

fn propose(
    alloc: Global,
    node: &mut Node<SureKeeper>,
    words: &mut Words,
) -> Result<String, Memory> {
    let Some((first, last)) = first_and_last(words) else {
        return unread(alloc);
    };
    match propose_all(alloc, node, first, last) {
        Ok((place, sent)) => placed(alloc, node, place, sent),
        Err(fault) => put(String::from_str(alloc, refused(fault))?, node, &[]),
    }
}

fn placed(
    alloc: Global,
    node: &Node<SureKeeper>,
    place: Place,
    sent: List<Sent>,
) -> Result<String, Memory> {
    let mut out = String::new(alloc);
    put_place(&mut out, place)?;
    put(out, node, sent.as_slice())
}

fn probe(alloc: Global, played: &mut Played) -> Result<String, Memory> {
    if played.node.round() == u64::MAX {
        return unread(alloc);
    }
    match played.node.probe(alloc) {
        Ok((round, sent)) => {
            played.round = Some(round);
            probed(alloc, &played.node, round, sent)
        }
        Err(fault) => put(String::from_str(alloc, unprobed(fault))?, &played.node, &[]),
    }
}

fn probed(
    alloc: Global,
    node: &Node<SureKeeper>,
    round: Round,
    sent: List<Sent>,
) -> Result<String, Memory> {
    let mut out = String::new(alloc);
    put_round(&mut out, round)?;
    put(out, node, sent.as_slice())
}

// Whether the round that it began last is confirmed.
fn confirmed(alloc: Global, played: &Played) -> Result<String, Memory> {
    match &played.round {
        None => unread(alloc),
        Some(round) => tested(alloc, Some(played.node.confirmed(round))),
    }
}
