//! Plays the worked cases of questions of names over a catalog, and says of each whether each packet gets the reply that
//! it should. They lie in `data/`, as `bench/dns` made them by a program of its own from the rules.
//!
//! `cases.txt` has the name of a case in each line. A line of the case `NAME.case` registers, as `registrations.rt` says,
//! or is a packet, ` => ` and its reply, both in hexadecimal digits, where `-` is nothing; a line after `#` is a comment.
#![tactic(auto)]

mod cases;
mod registrations;
mod store_reader;
mod words;

use crate::cases::{Difference, play};
use anyhow::{Context, Result};
use std::fs;
use std::process::ExitCode;

fn main(rt: HostRuntime) -> Result<ExitCode> {
    let names = fs::read_to_string(&rt, "cases.txt").context("cases.txt")?;
    let differing = differing(&rt, names.as_str())?;
    Ok(if differing == 0 {
        ExitCode::SUCCESS
    } else {
        ExitCode::from(1)
    })
}

// How many of the cases of these names are not as written.
fn differing(rt: &HostRuntime, names: &str) -> Result<u64> {
    let mut differing = 0u64;
    for name in names.lines() {
        if !is_as_written(rt, name)? {
            differing = differing.saturating_add(1);
        }
    }
    Ok(differing)
}

// Plays the case of this name, and says whether it is as written.
fn is_as_written(rt: &HostRuntime, name: &str) -> Result<bool> {
    let text = text_of(rt, name)?;
    let difference = play(rt.alloc(), text.as_str())?;
    print_line(rt, name, &difference)
}

fn text_of(rt: &HostRuntime, name: &str) -> Result<String> {
    let path = format!(in rt.alloc(); "{name}.case")?;
    fs::read_to_string(rt, &path).context(path)
}

// Prints the line of a case, and says whether it is as written.
fn print_line(rt: &HostRuntime, name: &str, difference: &Option<Difference>) -> Result<bool> {
    match difference {
        None => println!(rt; "{name} as written")?,
        Some(difference) => print_difference(rt, name, difference)?,
    }
    Ok(difference.is_none())
}

fn print_difference(rt: &HostRuntime, name: &str, difference: &Difference) -> Result<()> {
    let line = difference.line;
    let is = difference.is.as_str();
    println!(rt; "{name} differs at line {line}, which gives {is}")?;
    Ok(())
}
