//! Reads the worked filters in the folder where it runs, asks them of a few rows, and says of how many something else is
//! kept than should be. They lie in `data/`.
//!
//! A line of `cases.txt` is the shape of the rows, the places of the rows that are kept (`none` where none is, `bad` where
//! the text is no filter for rows of that shape), and behind a space the text. The rows are in `rows.rt`. A line that
//! begins with another word says nothing.
#![tactic(auto)]

mod rows;

use crate::rows::Rows;
use anyhow::{Context, Result, anyhow};
use filter_expr::{FilterFault, Shape, parse};
use std::alloc::Global;
use std::fs;
use std::process::ExitCode;

/// How many cases agree, and how many do not.
#[derive(Clone, Copy)]
struct Count {
    agree: u64,
    differ: u64,
}

/// A line of the cases.
#[derive(Clone, Copy)]
struct Case<'a> {
    shape: Shape,
    kept: &'a str,
    text: &'a str,
}

fn main(rt: HostRuntime) -> Result<ExitCode> {
    let rows = Rows::new(rt.alloc()).map_err(|_| anyhow!("out of memory"))?;
    let text = fs::read_to_string(&rt, "cases.txt").context("cases.txt")?;
    let mut count = Count {
        agree: 0,
        differ: 0,
    };
    for line in text.as_str().lines() {
        if let Some(case) = case_of(line) {
            count = counted(&rt, count, &rows, case)?;
        }
    }
    println!(rt; "{} agree, {} differ", count.agree, count.differ)?;
    Ok(if count.differ == 0 {
        ExitCode::SUCCESS
    } else {
        ExitCode::from(1)
    })
}

fn case_of(line: &str) -> Option<Case<'_>> {
    let (word, rest) = line.split_once(" ")?;
    let (kept, text) = rest.split_once(" ")?;
    let shape = shape_of(word)?;
    Some(Case { shape, kept, text })
}

fn shape_of(word: &str) -> Option<Shape> {
    match word {
        "node" => Some(Shape::Node),
        "service" => Some(Shape::CatalogService),
        "check" => Some(Shape::Check),
        "health" => Some(Shape::Health),
        _ => None,
    }
}

// Prints a case that differs, and counts each.
fn counted(rt: &HostRuntime, count: Count, rows: &Rows, case: Case<'_>) -> Result<Count> {
    let kept = kept_of(rt.alloc(), rows, case)?;
    if kept.as_str() == case.kept {
        return Ok(Count {
            agree: count.agree.saturating_add(1),
            differ: count.differ,
        });
    }
    let (is, text) = (kept.as_str(), case.text);
    println!(rt; "differs: {is} and not {} for {text}", case.kept)?;
    Ok(Count {
        agree: count.agree,
        differ: count.differ.saturating_add(1),
    })
}

// What is kept, as a line says it.
fn kept_of(alloc: Global, rows: &Rows, case: Case<'_>) -> Result<String> {
    match parse(alloc, case.text, case.shape) {
        Ok(filter) => rows.kept(alloc, case.shape, &sent(filter)),
        Err(FilterFault::Bad) => Ok(String::from_str(alloc, "bad")?),
        Err(FilterFault::Memory) => Err(anyhow!("out of memory")),
    }
}

// What may go to another thread, as a filter does.
fn sent<T: Send>(value: T) -> T {
    value
}
