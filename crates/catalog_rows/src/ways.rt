//! The ways in which a row is served.

use crate::served_row::{ServedRow, read_served};
use crate::servers::{Ended, serve, serve_at_once};
use anyhow::{Context, Result, bail};
use std::alloc::Global;
use std::sync::Wait;
use std::thread::Threads;
use std::time;

/// The most reads and writes of a connection of which each is made to fail.
const MOST_CALLS: u64 = 64;

/// Whether all is as it should be of a row that a line names.
pub fn is_served_as_written<R: Threads + Wait + time::Clock + Copy + Send + Sync + Drop + 'static>(
    files: &HostRuntime,
    rt: R,
    line: &str,
) -> Result<bool> {
    let (name, way) = line.split_once(' ').context("no way")?;
    let row = read_served(files, name)?;
    let alloc = files.alloc();
    match way {
        "once" => is_served(rt, alloc, &row, usize::MAX),
        "cut" => is_served_in_pieces(rt, alloc, &row),
        "faults" => is_served_with_faults(rt, alloc, &row),
        "together" => is_served_together(rt, alloc, &row),
        _ => bail!("no such way"),
    }
}

// Whether the text and the status are those of the row.
fn is_ended(ended: &Ended, row: &ServedRow) -> bool {
    ended.sink.bytes() == row.text.as_bytes() && ended.status == row.status
}

// The bytes that should be written to the connection of this number.
fn wanted(row: &ServedRow, number: u64) -> &[u8] {
    match row.connections.get((number as usize).wrapping_sub(1)) {
        Some(connection) => connection.said.as_slice(),
        None => &[],
    }
}

// Whether each connection came back, was shut, and was told what it should be.
fn is_answered(ended: &Ended, row: &ServedRow) -> bool {
    let links = ended.listener.kept();
    links.len() == row.connections.len()
        && links.iter().all(|link| link.is_shut() && link.said() == wanted(row, link.number()))
}

// Whether each connection came back, was shut, and was told a first part of what it should be.
fn is_partly_answered(ended: &Ended, row: &ServedRow) -> bool {
    let links = ended.listener.kept();
    links.len() == row.connections.len()
        && links.iter().all(|link| link.is_shut()
            && wanted(row, link.number()).starts_with(link.said()))
}

fn is_served<R: Threads + Wait + time::Clock + Copy + Send + Sync + Drop + 'static>(
    rt: R,
    alloc: Global,
    row: &ServedRow,
    most: usize,
) -> Result<bool> {
    let ended = serve(rt, alloc, row, most, 0)?;
    Ok(is_ended(&ended, row) && is_answered(&ended, row))
}

// Whether all is as it should be where the connections are served at once.
fn is_served_together<R: Threads + Wait + time::Clock + Copy + Send + Sync + Drop + 'static>(
    rt: R,
    alloc: Global,
    row: &ServedRow,
) -> Result<bool> {
    let ended = serve_at_once(rt, alloc, row)?;
    Ok(is_ended(&ended, row) && is_answered(&ended, row))
}

fn is_served_in_pieces<R: Threads + Wait + time::Clock + Copy + Send + Sync + Drop + 'static>(
    rt: R,
    alloc: Global,
    row: &ServedRow,
) -> Result<bool> {
    let longest = row
        .connections
        .iter()
        .map(|connection| connection.heard.len())
        .max()
        .unwrap_or(0);
    for most in 1..=longest {
        if !is_served(rt, alloc, row, most)? {
            return Ok(false);
        }
    }
    Ok(true)
}

fn is_served_with_faults<R: Threads + Wait + time::Clock + Copy + Send + Sync + Drop + 'static>(
    rt: R,
    alloc: Global,
    row: &ServedRow,
) -> Result<bool> {
    for fault in 1..=MOST_CALLS {
        let ended = serve(rt, alloc, row, usize::MAX, fault)?;
        if ended.status != row.status || !is_partly_answered(&ended, row) {
            return Ok(false);
        }
    }
    Ok(true)
}
