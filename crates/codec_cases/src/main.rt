//! Reads and writes the worked spellings of commands in the folder where it runs, and the bytes that spell nothing, and
//! says of how many each is as it should be. They lie in `data/`.
//!
//! A line of `spellings.txt` is the spelling of a command in hexadecimal digits, and behind a blank its name. A line of
//! `faults.txt` is bytes, and then `cut` or the place of the first bad byte, and behind it why.
#![tactic(auto)]

mod faults;
mod spellings;

use crate::faults::is_told;
use crate::spellings::is_spelled;
use anyhow::{Context, Result};
use std::alloc::Global;
use std::fs;
use std::process::ExitCode;

/// What the lines of a file are.
#[derive(Clone, Copy)]
enum Kind {
    Spelling,
    Fault,
}

fn main(rt: HostRuntime) -> Result<ExitCode> {
    let spellings = differing(&rt, "spellings.txt", Kind::Spelling)?;
    let faults = differing(&rt, "faults.txt", Kind::Fault)?;
    let differing = spellings.saturating_add(faults);
    println!(rt; "{differing} differ")?;
    Ok(if differing == 0 {
        ExitCode::SUCCESS
    } else {
        ExitCode::from(1)
    })
}

// Prints the lines of this file that differ, and says how many do.
fn differing(rt: &HostRuntime, name: &'static str, kind: Kind) -> Result<u64> {
    let text = fs::read_to_string(rt, name).context(name)?;
    differing_lines(rt, text.as_str(), kind)
}

fn differing_lines(rt: &HostRuntime, text: &str, kind: Kind) -> Result<u64> {
    let mut differing = 0u64;
    for line in text.lines() {
        if !is_as_said(rt.alloc(), kind, line)? {
            differing = differing.saturating_add(1);
            println!(rt; "differs: {line}")?;
        }
    }
    Ok(differing)
}

fn is_as_said(alloc: Global, kind: Kind, line: &str) -> Result<bool> {
    match kind {
        Kind::Spelling => is_spelled(alloc, line),
        Kind::Fault => is_told(alloc, line),
    }
}
