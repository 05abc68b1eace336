//! Texts in which one line can stand for many.

use anyhow::{Context, Result};
use std::alloc::Global;

/// The text with all of its lines. In it a line `* COUNT LINE` stands for so many times LINE, in each of which `{n}` is
/// the number among them, from 1 on; any other line stands for itself.
pub fn in_full(alloc: Global, short: &str) -> Result<String> {
    let mut full = String::new(alloc);
    for line in short.lines() {
        match line.strip_prefix("* ") {
            None => add_line(&mut full, line)?,
            Some(rest) => {
                let (count, line) = rest.split_once(' ').context("no line to repeat")?;
                add_repeats(alloc, &mut full, line, count.parse()?)?;
            }
        }
    }
    Ok(full)
}

fn add_line(full: &mut String, line: &str) -> Result<()> {
    full.push_str(line)?;
    full.push_str("\n")?;
    Ok(())
}

fn add_repeats(alloc: Global, full: &mut String, line: &str, count: u64) -> Result<()> {
    for number in 1..=count {
        let number = format!(in alloc; "{number}")?;
        let line = line.replace(alloc, "{n}", number.as_str())?;
        add_line(full, line.as_str())?;
    }
    Ok(())
}
