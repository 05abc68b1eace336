//! Logs in the words of a case: the terms of their entries, parted by commas. `3*2` is two entries of term 3, and `-`
//! no entry at all.

use crate::words::Words;
use cat_model::{Command, Entry, Shared};
use std::alloc::{AllocError, Global};
use std::fmt::Write;

/// The next word as the entries of a log, each a Reap. `None` also stands for lack of memory.
pub fn read(alloc: Global, words: &mut Words) -> Option<Vec<Entry>> {
    let word = words.next()?;
    if word == "-" {
        return Some(Vec::new(alloc));
    }
    runs(alloc, word)
}

fn runs(alloc: Global, word: &str) -> Option<Vec<Entry>> {
    let mut log = Vec::new(alloc);
    for run in word.split(',') {
        push_run(alloc, &mut log, run)?;
    }
    Some(log)
}

fn push_run(alloc: Global, log: &mut Vec<Entry>, run: &str) -> Option<()> {
    let (term, count) = run.split_once("*").unwrap_or((run, "1"));
    let term = term.parse().ok()?;
    let count = count.parse().ok()?;
    push_entries(alloc, log, term, count)
}

fn push_entries(alloc: Global, log: &mut Vec<Entry>, term: u64, count: u32) -> Option<()> {
    for _ in 0..count {
        push_entry(alloc, log, term)?;
    }
    Some(())
}

fn push_entry(alloc: Global, log: &mut Vec<Entry>, term: u64) -> Option<()> {
    let command = Shared::new(alloc, Command::Reap).ok()?;
    log.push(Entry {
        term,
        number: 0,
        command,
    })
    .ok()
}

/// The terms of the entries.
pub fn put(out: &mut String, log: &[Entry]) -> Result<(), AllocError> {
    let mut term = 0u64;
    let mut count = 0u64;
    for entry in log {
        if count > 0 && entry.term != term {
            put_run(out, term, count)?;
            out.push_str(",")?;
            count = 0;
        }
        term = entry.term;
        count = count.saturating_add(1);
    }
    put_run(out, term, count)
}

fn put_run(out: &mut String, term: u64, count: u64) -> Result<(), AllocError> {
    match count {
        0 => out.push_str("-"),
        1 => write!(out, "{term}"),
        _ => write!(out, "{term}*{count}"),
    }
}
