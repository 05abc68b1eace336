//! The functions that stand below a server: of a log `term-at LOG INDEX`, `last-term LOG`,
//! `matches LOG PREV PREV_TERM`, `up-to-date LOG TERM INDEX` (of another log's last entry), `standing LOG PREV ENTRIES`,
//! `batch-length LOG`, `batch LOG` and `copied LOG`; the others stand in `numbers.rt`.

use crate::shown::{counted, tested, unread};
use crate::words::{Words, number};
use crate::{logs, numbers};
use cat_model::{Entry, List, Memory};
use raft_node::{batch, log};
use std::alloc::Global;

/// What a function gives.
pub fn given(alloc: Global, what: &str, words: &mut Words) -> Result<String, Memory> {
    match what {
        "term-at" | "last-term" | "matches" | "up-to-date" | "standing" => {
            of_log(alloc, what, words)
        }
        "batch-length" | "batch" | "copied" => of_batch(alloc, what, words),
        _ => numbers::given(alloc, what, words),
    }
}

fn of_log(alloc: Global, what: &str, words: &mut Words) -> Result<String, Memory> {
    let Some(have) = logs::read(alloc, words) else {
        return unread(alloc);
    };
    let have = have.as_slice();
    match what {
        "term-at" => counted(alloc, term_at(have, words)),
        "last-term" => counted(alloc, Some(log::last_term(have))),
        "matches" => tested(alloc, matches(have, words)),
        "up-to-date" => tested(alloc, up_to_date(have, words)),
        _ => counted(alloc, standing(alloc, have, words)),
    }
}

fn term_at(have: &[Entry], words: &mut Words) -> Option<u64> {
    let index = number(words)?;
    Some(log::term_at(have, index))
}

fn matches(have: &[Entry], words: &mut Words) -> Option<bool> {
    let prev = number(words)?;
    let prev_term = number(words)?;
    Some(log::matches(have, prev, prev_term))
}

fn up_to_date(have: &[Entry], words: &mut Words) -> Option<bool> {
    let term = number(words)?;
    let index = number(words)?;
    Some(log::is_up_to_date(term, index, have))
}

fn standing(alloc: Global, have: &[Entry], words: &mut Words) -> Option<u64> {
    let prev = number(words)?;
    if prev > have.len() as u64 {
        return None;
    }
    let entries = logs::read(alloc, words)?;
    Some(log::standing(have, prev as usize, entries.as_slice()) as u64)
}

fn of_batch(alloc: Global, what: &str, words: &mut Words) -> Result<String, Memory> {
    match logs::read(alloc, words) {
        None => unread(alloc),
        Some(entries) => batched(alloc, what, entries.as_slice()),
    }
}

fn batched(alloc: Global, what: &str, entries: &[Entry]) -> Result<String, Memory> {
    match what {
        "batch-length" => counted(alloc, Some(batch::batch_length(entries) as u64)),
        "batch" => put(alloc, batch::batch(alloc, entries)?),
        _ => put(alloc, batch::copied(alloc, entries)?),
    }
}

fn put(alloc: Global, entries: List<Entry>) -> Result<String, Memory> {
    let mut out = String::new(alloc);
    logs::put(&mut out, entries.as_slice())?;
    Ok(out)
}
