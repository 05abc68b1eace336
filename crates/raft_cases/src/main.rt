//! Plays the worked cases of Raft in the folder where it runs, and says of each how many of its lines give what they
//! should. They lie in `data/`.
//!
//! `cases.txt` has the name of a case in each line. A line of the case `NAME.txt` says what is done, then ` => ` and
//! what that gives; other lines are nothing. `cases.rt` says which lines there are.
#![tactic(auto)]

mod cases;
mod functions;
mod logs;
mod messages;
mod numbers;
mod servers;
mod shown;
mod words;
mod worlds;

use crate::cases::{Stage, differing};
use anyhow::{Context, Result};
use std::fs;
use std::process::ExitCode;

fn main(rt: HostRuntime) -> Result<ExitCode> {
    let names = fs::read_to_string(&rt, "cases.txt").context("cases.txt")?;
    let mut is_whole = true;
    for name in names.as_str().lines() {
        if !is_as_written(&rt, name)? {
            is_whole = false;
        }
    }
    Ok(if is_whole {
        ExitCode::SUCCESS
    } else {
        ExitCode::from(1)
    })
}

// Plays the case of this name, prints the lines that differ and how many do not, and says whether none differs.
fn is_as_written(rt: &HostRuntime, name: &str) -> Result<bool> {
    let text = text_of(rt, name)?;
    let (same, lines) = play(rt, name, text.as_str())?;
    println!(rt; "{name}: {same} of {lines} as written")?;
    Ok(same == lines)
}

fn play(rt: &HostRuntime, name: &str, text: &str) -> Result<(u64, u64)> {
    let mut stage = Stage::Empty;
    let counts = play_lines(rt, name, text, &mut stage);
    drop(stage); // Before any early return.
    counts
}

// Plays the lines in turn, and says how many are as written and how many there are.
fn play_lines(rt: &HostRuntime, name: &str, text: &str, stage: &mut Stage) -> Result<(u64, u64)> {
    let mut lines = 0u64;
    let mut same = 0u64;
    for line in text.lines() {
        let Some((said, wanted)) = line.split_once(" => ") else {
            continue;
        };
        lines = lines.saturating_add(1);
        if is_line_as_written(rt, name, stage, said, wanted)? {
            same = same.saturating_add(1);
        }
    }
    Ok((same, lines))
}

// Plays a line, and prints it where it differs.
fn is_line_as_written(
    rt: &HostRuntime,
    name: &str,
    stage: &mut Stage,
    said: &str,
    wanted: &str,
) -> Result<bool> {
    match differing(rt.alloc(), stage, said, wanted)? {
        None => Ok(true),
        Some(is) => {
            println!(rt; "{name}: {said} => {is}")?;
            Ok(false)
        }
    }
}

fn text_of(rt: &HostRuntime, name: &str) -> Result<String> {
    let path = format!(in rt.alloc(); "{name}.txt")?;
    fs::read_to_string(rt, &path).context(path)
}
