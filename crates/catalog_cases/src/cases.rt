ghost use Rattle.std.specs.Prelude.{◌≡◌, ◌<◌};

use crate::words::Words;
use crate::{commands, queries, shown};
use cat_model::{Answer, Command, Memory, Query, Shared, Steps};
use catalog_query::{View, chans, evaluate};
use catalog_store::{Store, is_taken};
use std::alloc::Global;
use std::marker::Brand;
use std::sync::ledger::{Blank, Ledger};

/// A line that gives something else than what is written behind it.
#[derive(Drop)]
pub struct Difference {
    pub line: u64,
    pub is: String,
}

/// Plays the lines of a case over a new store, and gives the first that differs.
pub fn play(alloc: Global, text: &str) -> Result<Option<Difference>, Memory> {
    let mut store = Store::new(alloc)?;
    let difference = first_difference(alloc, &mut store, text);
    // What is large is let go by a call, here and below, so that no exit has to spell its drop out.
    drop(store);
    difference
}

fn first_difference(
    alloc: Global,
    store: &mut Store,
    text: &str,
) -> Result<Option<Difference>, Memory> {
    let mut line = 0u64;
    for words in text.lines() {
        line = line.saturating_add(1);
        if let Some(is) = differing(alloc, store, words)? {
            return Ok(Some(Difference { line, is }));
        }
    }
    Ok(None)
}

// What a line gives, where something else is written behind it.
fn differing(alloc: Global, store: &mut Store, line: &str) -> Result<Option<String>, Memory> {
    match line.split_once(" => ") {
        None => Ok(None),
        Some((said, wanted)) => Ok(other_than(wanted, given(alloc, store, said)?)),
    }
}

fn other_than(wanted: &str, is: String) -> Option<String> {
    if is.as_str() == wanted {
        None
    } else {
        Some(is)
    }
}

// What a line gives: a query after `?` its answer, a query after `^` its channels, and a command what it does.
fn given(alloc: Global, store: &mut Store, said: &str) -> Result<String, Memory> {
    if let Some(query) = said.strip_prefix("? ") {
        return answer(alloc, store, query);
    }
    if let Some(query) = said.strip_prefix("^ ") {
        return channels(alloc, store, query);
    }
    apply(alloc, store, said)
}

fn unread(alloc: Global) -> Result<String, Memory> {
    Ok(String::from_str(alloc, "not read")?)
}

// Applies a command at the next position.
fn apply(alloc: Global, store: &mut Store, said: &str) -> Result<String, Memory> {
    let mut words = Words::new(alloc, said);
    let command = Shared::new(alloc, commands::read(&mut words))?;
    let given = if words.are_read() {
        applied(alloc, store, &command)
    } else {
        unread(alloc)
    };
    drop(command);
    given
}

fn applied(alloc: Global, store: &mut Store, command: &Shared<Command>) -> Result<String, Memory> {
    let position = store.length().saturating_add(1);
    if position > 262_144 || !is_taken(command) {
        return unread(alloc);
    }
    let (answer, fired) = store.apply(alloc, position, command)?;
    let shown = shown::applied(alloc, &answer, &fired);
    drop(answer);
    drop(fired);
    shown
}

fn view_of(store: &Store) -> View<'_> {
    View {
        kv: store.kv(),
        catalog: store.catalog(),
        sessions: store.sessions(),
        queries: store.queries(),
        indexes: store.indexes(),
    }
}

fn answer(alloc: Global, store: &Store, said: &str) -> Result<String, Memory> {
    let mut words = Words::new(alloc, said);
    let query = queries::read(&mut words);
    let given = if words.are_read() {
        answered(alloc, store, &query)
    } else {
        unread(alloc)
    };
    drop(query);
    given
}

fn answered(alloc: Global, store: &Store, query: &Query) -> Result<String, Memory> {
    let (answer, index) = evaluated(alloc, store, query)?;
    let shown = shown::found(alloc, index, &answer);
    drop(answer);
    shown
}

// The answer to the query with its index. Nobody reads how many evaluations were made.
fn evaluated(alloc: Global, store: &Store, query: &Query) -> Result<(Answer, u64), Memory> {
    counted::<Brand>(alloc, store, query, Blank::new(1))
}

fn counted<L: Ledger>(
    alloc: Global,
    store: &Store,
    query: &Query,
    blank: Blank,
) -> Result<(Answer, u64), Memory>
    requires name { blank.name ≡ L.name }
    requires parts { blank.parts ≡ L.parts }
    requires some { 0 < L.parts }
{
    let mut steps: Steps<L> = Steps::new(blank);
    evaluate(alloc, &view_of(store), query, &mut steps)
}

fn channels(alloc: Global, store: &Store, said: &str) -> Result<String, Memory> {
    let mut words = Words::new(alloc, said);
    let query = queries::read(&mut words);
    let given = if words.are_read() {
        hung(alloc, store, &query)
    } else {
        unread(alloc)
    };
    drop(query);
    given
}

fn hung(alloc: Global, store: &Store, query: &Query) -> Result<String, Memory> {
    let chans = chans(alloc, &view_of(store), query)?;
    let shown = shown::hangs(alloc, chans.as_slice());
    drop(chans);
    shown
}
