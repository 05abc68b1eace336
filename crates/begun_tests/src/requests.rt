//! What happens to a cluster, and what its agent answers.

ghost use Rattle.std.specs.Prelude.{◌≡◌, IfOk};
ghost use Rattle.cat_model.specs.Taken.{IsTakenAsked};
ghost use Rattle.cluster_interface.specs.Interface.{IsPlayed};

use crate::stores::Servers;
use cat_model::{
    Answer, Asked, Bytes, Command, Draw, Event, Kind, Memory, Mode, Query, Request, Shared, Text,
};
use cluster_interface::ClusterInterface;
use cluster_requests::{Collected, Content};
use std::alloc::Global;

/// The command that sets a key.
pub fn setting(alloc: Global, key: &str, value: &[u8]) -> Result<Shared<Command>, Memory> {
    let key = Text::new(alloc, key)?;
    let value = Bytes::new(alloc, value)?;
    Shared::new(
        alloc,
        Command::KvSet {
            key,
            flags: 0,
            value,
        },
    )
}

// What asks for that.
fn write_of(alloc: Global, key: &str, value: &[u8]) -> Result<Shared<Asked>, Memory>
    ensures { IfOk result IsTakenAsked }
{
    let key = Text::new(alloc, key)?;
    let value = Bytes::new(alloc, value)?;
    let command = Command::KvSet {
        key,
        flags: 0,
        value,
    };
    let command = Shared::new(alloc, command)?;
    Shared::new(alloc, Asked::Good(Request::Write { command }))
}

// What asks for a key.
fn read_of(alloc: Global, key: &str) -> Result<Shared<Asked>, Memory>
    ensures { IfOk result IsTakenAsked }
{
    let key = Text::new(alloc, key)?;
    let query = Shared::new(alloc, Query::Key { key })?;
    let request = Request::Read {
        query,
        mode: Mode::Default,
        min: 0,
        wait_ms: 0,
        raw: false,
    };
    Shared::new(alloc, Asked::Good(request))
}

// Makes the event, where it fits, and then delivers all messages.
fn happens(alloc: Global, servers: &mut Servers, event: Event) -> Result<(), Memory>
    requires { IsPlayed event }
{
    match ClusterInterface::fits(servers, &event) {
        Ok(()) => ClusterInterface::step(servers, alloc, event)?,
        Err(_) => {}
    }
    ClusterInterface::settle(servers, alloc, 1_000)?;
    Ok(())
}

/// This server stands for election.
pub fn elect(alloc: Global, servers: &mut Servers, server: u32) -> Result<(), Memory> {
    happens(alloc, servers, Event::Timeout(server))
}

// Asks the first agent, and gives the number of the request.
fn ask(alloc: Global, servers: &mut Servers, asked: &Shared<Asked>) -> Result<u64, Memory>
    requires { IsTakenAsked asked.now }
{
    if ClusterInterface::agents(servers) == 0 {
        return Err(Memory);
    }
    ClusterInterface::ask(servers, alloc, 1, asked, Draw { hi: 1, lo: 1 })
}

// What the agent answers, once all messages have come.
fn answered(
    alloc: Global,
    servers: &mut Servers,
    asked: &Shared<Asked>,
) -> Result<Collected, Memory>
    requires { IsTakenAsked asked.now }
{
    let number = ask(alloc, servers, asked)?;
    ClusterInterface::settle(servers, alloc, 1_000)?;
    happens(alloc, servers, Event::Beat(1))?;
    Ok(ClusterInterface::collect(servers, number))
}

// Whether a write was acknowledged.
fn is_acked(collected: &Collected) -> bool {
    match collected {
        Collected::Ready(reply) => matches!(reply.kind(), Kind::Acked { .. }),
        _ => false,
    }
}

// Whether it is the key's row with this value.
fn is_value(collected: &Collected, value: &[u8]) -> bool {
    let Collected::Ready(reply) = collected else {
        return false;
    };
    let Content::Shows {
        answer: Answer::Rows(rows),
        ..
    } = reply.content()
    else {
        return false;
    };
    match rows.as_slice().first() {
        Some(row) => row.value.as_slice() == value,
        None => false,
    }
}

/// Writes this value of a key, and says whether that was acknowledged.
pub fn writes(
    alloc: Global,
    servers: &mut Servers,
    key: &str,
    value: &[u8],
) -> Result<bool, Memory> {
    let asked = write_of(alloc, key, value)?;
    let collected = answered(alloc, servers, &asked)?;
    Ok(is_acked(&collected))
}

/// Reads a key, and says whether it has this value.
pub fn reads(
    alloc: Global,
    servers: &mut Servers,
    key: &str,
    value: &[u8],
) -> Result<bool, Memory> {
    let asked = read_of(alloc, key)?;
    let collected = answered(alloc, servers, &asked)?;
    Ok(is_value(&collected, value))
}
