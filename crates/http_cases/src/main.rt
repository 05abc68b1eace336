//! Reads the worked bodies and requests in the folder where it runs, and says of how many something else is asked for than
//! should be. They lie in `data/`.
//!
//! A line of `bodies.txt` is the kind of a request, its body, ` => ` and what the body asks for, or `invalid FIELD`;
//! `bodies_shown.rt` says how that is written. A line of `requests.txt` is a method, a target and maybe a body, parted by
//! a space, then ` => ` and what they ask for: a request as `requests_shown.rt` writes it, or `400 FIELD`, `404 TEXT`,
//! `405 METHODS` or `413`; behind it ` filtered` where the target has a filter. A body `*N` is of N bytes. An empty text or
//! list, or none, is `-`.
#![tactic(auto)]

mod bodies;
mod bodies_shown;
mod queries;
mod requests;
mod requests_shown;
mod texts;

use anyhow::{Context, Result};
use std::alloc::Global;
use std::fs;
use std::process::ExitCode;

#[derive(Clone, Copy)]
enum Cases {
    Bodies,
    Requests,
}

impl Cases {
    // The file in which they stand.
    fn file(self) -> &'static str {
        match self {
            Cases::Bodies => "bodies.txt",
            Cases::Requests => "requests.txt",
        }
    }

    // What a line asks for.
    fn given(self, alloc: Global, said: &str) -> Result<String> {
        match self {
            Cases::Bodies => bodies::given(alloc, said),
            Cases::Requests => requests::given(alloc, said),
        }
    }
}

fn main(rt: HostRuntime) -> Result<ExitCode> {
    let bodies = differing(&rt, Cases::Bodies)?;
    let requests = differing(&rt, Cases::Requests)?;
    let all = bodies.saturating_add(requests);
    println!(rt; "{all} differ")?;
    Ok(if all == 0 {
        ExitCode::SUCCESS
    } else {
        ExitCode::from(1)
    })
}

// Prints each line by which something else is asked for than it says, and tells how many there are.
fn differing(rt: &HostRuntime, cases: Cases) -> Result<u64> {
    let text = fs::read_to_string(rt, cases.file()).context(cases.file())?;
    let mut count = 0u64;
    for line in text.as_str().lines() {
        let Some((said, wanted)) = line.split_once(" => ") else {
            continue;
        };
        let is = cases.given(rt.alloc(), said)?;
        if is.as_str() != wanted {
            count = count.saturating_add(1);
            println!(rt; "differs: {said} => {is}")?;
        }
    }
    Ok(count)
}
