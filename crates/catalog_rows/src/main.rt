//! Plays the worked scripts of the folder where it runs and serves its worked connections, and says of each whether it
//! writes what it should and ends as it should. They lie in `data/`.
//!
//! `rows.txt` has the name of a script in each line. Of the script `NAME`, `NAME.script` is its text, `NAME.out` the text
//! that it should write, and `NAME.status` the status with which it should end. `long_rows.txt` has the names of scripts
//! that are long and say the same again and again: in their `NAME.script` and `NAME.out` a line `* COUNT LINE` stands for
//! so many times LINE, in each of which `{n}` is the number among them, from 1 on.
//!
//! Each line of `connections.txt` has the name of a server's run and how its connections are served: `once`, the bytes
//! of each in one piece, one connection after the other; `cut`, in pieces of each size from 1 byte on, which all are
//! answered alike; `faults`, where each read and write of a connection fails once, after which a first part of the answers
//! is written; or `together`, all connections at once, each in a thread of its own. Of the run `NAME`, `NAME.words` has the words of the command line and, in its second line, the number of the job that is refused, or 0;
//! `NAME.in1` has the bytes of the first connection and `NAME.said1` those that should be written to it, and so on;
//! `NAME.out` and `NAME.status` are as those of a script.
#![tactic(auto)]

mod difference;
mod files;
mod in_full;
mod row;
mod scripts;
mod served_row;
mod servers;
mod ways;

use crate::difference::{Difference, first_difference};
use crate::row::{Row, read_long_row, read_row};
use crate::scripts::play;
use crate::ways::is_served_as_written;
use anyhow::{Context, Result};
use std::process::ExitCode;
use std::sync::Wait;
use std::thread::Threads;
use std::{fs, time};

/// How many rows were as written, and how many were not.
#[derive(Clone, Copy)]
struct Counts {
    as_written: u64,
    differing: u64,
}

impl Counts {
    fn count(&mut self, is_as_written: bool) {
        if is_as_written {
            self.as_written = self.as_written.saturating_add(1);
        } else {
            self.differing = self.differing.saturating_add(1);
        }
    }
}

fn main(rt: HostRuntime) -> Result<ExitCode> {
    let mut counts = Counts {
        as_written: 0,
        differing: 0,
    };
    play_rows(&rt, rt, &mut counts)?;
    play_long_rows(&rt, rt, &mut counts)?;
    serve_rows(&rt, rt, &mut counts)?;
    let Counts {
        as_written,
        differing,
    } = counts;
    println!(rt; "{as_written} as written, {differing} differ")?;
    Ok(if differing == 0 {
        ExitCode::SUCCESS
    } else {
        ExitCode::from(1)
    })
}

// Plays the scripts, and counts them.
fn play_rows<R: Threads + Wait + time::Clock + Copy + Send + Sync + Drop + 'static>(
    files: &HostRuntime,
    rt: R,
    counts: &mut Counts,
) -> Result<()> {
    let names = read_list(files, "rows.txt")?;
    for name in names.as_str().lines() {
        counts.count(is_as_written(files, rt, name, read_row(files, name)?)?);
    }
    Ok(())
}

// Plays the scripts that are written short, and counts them.
fn play_long_rows<R: Threads + Wait + time::Clock + Copy + Send + Sync + Drop + 'static>(
    files: &HostRuntime,
    rt: R,
    counts: &mut Counts,
) -> Result<()> {
    let names = read_list(files, "long_rows.txt")?;
    for name in names.as_str().lines() {
        counts.count(is_as_written(files, rt, name, read_long_row(files, name)?)?);
    }
    Ok(())
}

// Serves the connections of the rows, and counts the lines that name them.
fn serve_rows<R: Threads + Wait + time::Clock + Copy + Send + Sync + Drop + 'static>(
    files: &HostRuntime,
    rt: R,
    counts: &mut Counts,
) -> Result<()> {
    let lines = read_list(files, "connections.txt")?;
    for line in lines.as_str().lines() {
        counts.count(is_served_right(files, rt, line)?);
    }
    Ok(())
}

fn read_list(files: &HostRuntime, path: &'static str) -> Result<String> {
    fs::read_to_string(files, path).context(path)
}

// Serves the connections that a line names, prints its line, and says whether all is as written.
fn is_served_right<R: Threads + Wait + time::Clock + Copy + Send + Sync + Drop + 'static>(
    files: &HostRuntime,
    rt: R,
    line: &str,
) -> Result<bool> {
    let right = is_served_as_written(files, rt, line)?;
    let verdict = if right { "as written" } else { "differs" };
    println!(files; "{line} {verdict}")?;
    Ok(right)
}

// Plays the row of this name, prints its line, and says whether it is as written.
fn is_as_written<R: Threads + Wait + time::Clock + Copy + Send + Sync + Drop + 'static>(
    files: &HostRuntime,
    rt: R,
    name: &str,
    row: Row,
) -> Result<bool> {
    let Row {
        script,
        text,
        status,
    } = row;
    let played = play(rt, files.alloc(), script)?;
    say_difference(files, name, first_difference(&played, status, &text))
}

// Prints the line of the row of this name, which differs so, and says whether it is as written.
fn say_difference(
    files: &HostRuntime,
    name: &str,
    difference: Option<Difference<'_>>,
) -> Result<bool> {
    match difference {
        None => println!(files; "{name} as written")?,
        Some(difference) => println!(files; "{name} differs: {difference}")?,
    }
    Ok(difference.is_none())
}
