//! Functions of numbers: `set NUMBERS SERVER NUMBER`, `of-server NUMBERS SERVER`, `reached ID SERVERS NUMBERS LEAST`,
//! `member VOTES SERVER`, `majority SERVERS VOTES` and `committed ID SERVERS TERM COMMIT LOG MATCHED`; the bytes of
//! commands and messages: `command-bytes COMMAND`, `vote-bytes` and `append-bytes COMMAND`, where a command is `reap`
//! or `set KEY VALUE`; and `agreed` with any of `COMMIT@PLACE`, which gives the length of the agreed log after each.

use crate::logs;
use crate::shown::{counted, tested, unread};
use crate::words::{Words, number, numbers, server};
use cat_model::{Bytes, Command, Entry, List, Memory, Shared, Text};
use command_codec::encoded_len;
use raft_model::Message;
use raft_node::quorum;
use raft_world::agreed::Agreed;
use raft_world::weight::message_bytes;
use std::alloc::{AllocError, Global};
use std::fmt::Write;

/// What a function gives.
pub fn given(alloc: Global, what: &str, words: &mut Words) -> Result<String, Memory> {
    match what {
        "set" => listed(alloc, set(alloc, words)),
        "agreed" => listed(alloc, lengths(alloc, words)),
        "reached" | "member" | "majority" => tested(alloc, test(alloc, what, words)),
        _ => counted(alloc, count(alloc, what, words)),
    }
}

fn listed(alloc: Global, numbers: Option<Vec<u64>>) -> Result<String, Memory> {
    let Some(numbers) = numbers else {
        return unread(alloc);
    };
    let mut out = String::new(alloc);
    put_numbers(&mut out, numbers.as_slice())?;
    Ok(out)
}

fn test(alloc: Global, what: &str, words: &mut Words) -> Option<bool> {
    match what {
        "reached" => reached(alloc, words),
        "member" => member(alloc, words),
        _ => majority(alloc, words),
    }
}

fn count(alloc: Global, what: &str, words: &mut Words) -> Option<u64> {
    match what {
        "of-server" => of_server(alloc, words),
        "committed" => committed(alloc, words),
        "command-bytes" => command_bytes(alloc, words),
        "vote-bytes" => Some(vote_bytes()),
        "append-bytes" => append_bytes(alloc, words),
        _ => None,
    }
}

fn set(alloc: Global, words: &mut Words) -> Option<Vec<u64>> {
    let mut numbers = numbers(alloc, words)?;
    let server = server(words)?;
    let number = number(words)?;
    quorum::set_server(&mut numbers, server, number);
    Some(numbers)
}

fn put_numbers(out: &mut String, numbers: &[u64]) -> Result<(), AllocError> {
    let mut is_first = true;
    for number in numbers {
        if !is_first {
            out.push_str(",")?;
        }
        write!(out, "{number}")?;
        is_first = false;
    }
    Ok(())
}

fn of_server(alloc: Global, words: &mut Words) -> Option<u64> {
    let numbers = numbers(alloc, words)?;
    let server = server(words)?;
    Some(quorum::of_server(numbers.as_slice(), server))
}

fn reached(alloc: Global, words: &mut Words) -> Option<bool> {
    let id = server(words)?;
    let servers = server(words)?;
    let numbers = numbers(alloc, words)?;
    let least = number(words)?;
    Some(quorum::have_reached(id, servers, numbers.as_slice(), least))
}

fn member(alloc: Global, words: &mut Words) -> Option<bool> {
    let votes = numbers(alloc, words)?;
    let server = server(words)?;
    Some(quorum::is_member(votes.as_slice(), server))
}

fn majority(alloc: Global, words: &mut Words) -> Option<bool> {
    let count = server(words)?;
    let votes = numbers(alloc, words)?;
    Some(quorum::has_majority(count, votes.as_slice()))
}

fn committed(alloc: Global, words: &mut Words) -> Option<u64> {
    let id = server(words)?;
    let servers = server(words)?;
    let term = number(words)?;
    let commit = number(words)?;
    let log = logs::read(alloc, words)?;
    let matched = numbers(alloc, words)?;
    Some(quorum::committed(
        id,
        servers,
        term,
        commit,
        log.as_slice(),
        matched.as_slice(),
    ))
}

fn command(alloc: Global, words: &mut Words) -> Option<Command> {
    match words.next()? {
        "reap" => Some(Command::Reap),
        "set" => set_command(alloc, words),
        _ => None,
    }
}

fn set_command(alloc: Global, words: &mut Words) -> Option<Command> {
    let key = words.next()?;
    let value = words.next()?;
    let key = Text::new(alloc, key).ok()?;
    let value = Bytes::new(alloc, value.as_bytes()).ok()?;
    Some(Command::KvSet {
        key,
        flags: 0,
        value,
    })
}

fn command_bytes(alloc: Global, words: &mut Words) -> Option<u64> {
    let command = command(alloc, words)?;
    Some(encoded_len(&command))
}

fn vote_bytes() -> u64 {
    bytes_of(Message::Vote {
        term: 1,
        granted: true,
    })
}

// The bytes of an Append of this one command.
fn append_bytes(alloc: Global, words: &mut Words) -> Option<u64> {
    let entries = entries_of(alloc, command(alloc, words)?)?;
    Some(bytes_of(Message::Append {
        term: 1,
        prev_index: 0,
        prev_term: 0,
        entries,
        commit: 0,
        round: 0,
    }))
}

fn entries_of(alloc: Global, command: Command) -> Option<List<Entry>> {
    let command = Shared::new(alloc, command).ok()?;
    let mut entries = List::new(alloc);
    entries
        .push(Entry {
            term: 1,
            number: 0,
            command,
        })
        .ok()?;
    Some(entries)
}

fn bytes_of(message: Message) -> u64 {
    message_bytes(&message)
}

// The length of the agreed log after each.
fn lengths(alloc: Global, words: &mut Words) -> Option<Vec<u64>> {
    let mut agreed = Agreed::Kept(List::new(alloc));
    let lengths = lengths_of(alloc, &mut agreed, words);
    drop(agreed);
    lengths
}

fn lengths_of(alloc: Global, agreed: &mut Agreed, words: &mut Words) -> Option<Vec<u64>> {
    let mut lengths = Vec::new(alloc);
    for word in words {
        push_grown(&mut lengths, agreed, word)?;
    }
    Some(lengths)
}

fn push_grown(lengths: &mut Vec<u64>, agreed: &mut Agreed, word: &str) -> Option<()> {
    grow(agreed, word)?;
    lengths.push(agreed.len() as u64).ok()
}

fn grow(agreed: &mut Agreed, word: &str) -> Option<()> {
    let (count, place) = word.split_once("@")?;
    let count = count.parse::<u32>().ok()?;
    let place = place.parse::<u32>().ok()?;
    agreed.grow(place as usize, count as usize);
    Some(())
}
