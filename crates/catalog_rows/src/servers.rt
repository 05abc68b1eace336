//! A server over connections in memory.

use crate::scripts::machine;
use crate::served_row::{Connection, ServedRow};
use anyhow::Result;
use cat_model::{Bytes, List};
use catalog_top::{Machine, run, status_of};
use datagram_outside::MemPorts;
use outside::{SureSink, SureSource};
use serve_outside::{
    Bells, Clock, CountWords, Gate, MachineClock, MemListener, MemSpawner, Script, Spawner,
    SureKeepers, ThreadSpawner,
};
use std::alloc::Global;
use std::sync::Wait;
use std::thread::Threads;
use std::time;

/// How a server ended, what it wrote, and the connections that came back.
#[derive(Drop)]
pub struct Ended {
    pub status: u8,
    pub sink: SureSink,
    pub listener: MemListener,
}

// The numbers of the calls that fail.
fn failing(alloc: Global, call: u64) -> Result<List<u64>> {
    let mut calls = List::new(alloc);
    if call > 0 {
        calls.push(call)?;
    }
    Ok(calls)
}

// What the connections of the row do: each read gives so many bytes at most, and this read or write fails.
fn scripts(alloc: Global, row: &ServedRow, most: usize, fault: u64) -> Result<Vec<Script>> {
    let mut scripts = Vec::new(alloc);
    for connection in &row.connections {
        scripts.push(script(alloc, connection, most, fault)?)?;
    }
    Ok(scripts)
}

fn script(alloc: Global, connection: &Connection, most: usize, fault: u64) -> Result<Script> {
    Ok(Script {
        bytes: Bytes::new(alloc, connection.heard.as_slice())?,
        most,
        failing: failing(alloc, fault)?,
    })
}

/// Serves the connections of the row one after the other, by a clock that stands still: each read gives so many bytes at
/// most, and this read or write of each connection fails, if it is not 0.
pub fn serve<R: Threads + Wait + time::Clock + Copy + Send + Sync + Drop + 'static>(
    rt: R,
    alloc: Global,
    row: &ServedRow,
    most: usize,
    fault: u64,
) -> Result<Ended> {
    let mut spawner = MemSpawner::new(failing(alloc, row.refused)?);
    serve_by(machine(rt, alloc)?, row, most, fault, &mut spawner)
}

/// Serves the connections of the row at once, each in a thread of its own, by the machine's clock.
pub fn serve_at_once<R: Threads + Wait + time::Clock + Copy + Send + Sync + Drop + 'static>(
    rt: R,
    alloc: Global,
    row: &ServedRow,
) -> Result<Ended> {
    let machine = Machine {
        rt,
        alloc,
        clock: MachineClock::new(rt),
        gate: Bells::new(rt, alloc)?,
    };
    serve_by(machine, row, usize::MAX, 0, &mut ThreadSpawner::new())
}

// Serves the connections of the row on this machine, as jobs that this spawner starts.
fn serve_by<
    R: Threads + Wait + Copy + Send + Sync + Drop + 'static,
    C: Clock + Copy + Send + Drop + 'static,
    G: Gate + Send + Sync + Drop + 'static,
    S: Spawner,
>(
    machine: Machine<R, C, G>,
    row: &ServedRow,
    most: usize,
    fault: u64,
    spawner: &mut S,
) -> Result<Ended> {
    let alloc = machine.alloc;
    let words: Vec<&str> = row.words.as_str().split(' ').collect(alloc)?;
    let scripts = scripts(alloc, row, most, fault)?;
    let mut listener = MemListener::new(alloc, scripts, List::new(alloc))?;
    let mut ports = MemPorts::new(alloc, Vec::new(alloc), List::new(alloc))?;
    let mut sink = SureSink::new(alloc);
    let outcome = run(
        machine,
        &words,
        &mut SureSource::new(Bytes::new(alloc, b"")?),
        &mut sink,
        &mut listener,
        &mut CountWords::new(),
        spawner,
        &mut SureKeepers::new(),
        &mut ports,
    );
    let status = status_of(&outcome);
    drop(outcome);
    Ok(Ended {
        status,
        sink,
        listener,
    })
}
