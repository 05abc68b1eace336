//! The fields of records, read from bytes.

ghost use Rattle.command_codec.specs.Reading.{Gives, items_at, list_at};
ghost use Rattle.store_records.specs.RecordReading.{entry_at, payload_at, store_at, vote_at};

use crate::numbers::read_server;
use crate::records::Record;
use cat_model::{Entry, List, Shared};
use command_codec::{ReadError, bad, cut, read_command, read_number};
use std::alloc::Global;

// An entry of a log: its term, its number and its command.
#[tactic(auto, unfolding(crate::specs::RecordReading::entry_at))]
fn read_entry(alloc: Global, bytes: &[u8]) -> Result<(Entry, &[u8]), ReadError>
    ensures { Gives (λ x. (x.0, x.1.now)) result (entry_at bytes.now) }
{
    let (term, rest) = read_number(0, u64::MAX, bytes)?;
    let (number, rest) = read_number(0, u64::MAX, rest)?;
    let (command, rest) = read_command(alloc, rest)?;
    let command = Shared::new(alloc, command)?;
    let entry = Entry {
        term,
        number,
        command,
    };
    Ok((entry, rest))
}

/// So many entries.
pub fn read_some_entries(
    alloc: Global,
    count: u64,
    bytes: &[u8],
) -> Result<(List<Entry>, &[u8]), ReadError>
    ensures { Gives (λ x. (x.0, x.1.now)) result (items_at entry_at count bytes.now) }
{
    let mut entries = List::new(alloc);
    let mut rest = bytes;
    for _ in 0..count {
        let (entry, after) = read_entry(alloc, rest)?;
        entries.push(entry)?;
        rest = after;
    }
    Ok((entries, rest))
}

fn read_entries(alloc: Global, bytes: &[u8]) -> Result<(List<Entry>, &[u8]), ReadError>
    ensures { Gives (λ x. (x.0, x.1.now)) result (list_at 1048576 entry_at bytes.now) }
{
    let (count, rest) = read_number(0, 1_048_576, bytes)?;
    read_some_entries(alloc, count, rest)
}

#[tactic(auto, unfolding(crate::specs::RecordReading::vote_at))]
fn read_vote(bytes: &[u8]) -> Result<(Record, &[u8]), ReadError>
    ensures { Gives (λ x. (x.0, x.1.now)) result (vote_at bytes.now) }
{
    let (term, rest) = read_number(0, u64::MAX, bytes)?;
    let (vote, rest) = read_server(rest)?;
    Ok((Record::Vote { term, vote }, rest))
}

#[tactic(auto, unfolding(crate::specs::RecordReading::store_at))]
fn read_store(alloc: Global, bytes: &[u8]) -> Result<(Record, &[u8]), ReadError>
    ensures { Gives (λ x. (x.0, x.1.now)) result (store_at bytes.now) }
{
    let (index, rest) = read_number(0, u64::MAX, bytes)?;
    let (entries, rest) = read_entries(alloc, rest)?;
    Ok((Record::Store { index, entries }, rest))
}

/// A payload of whatever length.
pub fn read_payload(alloc: Global, bytes: &[u8]) -> Result<(Record, &[u8]), ReadError>
    ensures { Gives (λ x. (x.0, x.1.now)) result (payload_at bytes.now) }
{
    let Some((kind, rest)) = bytes.split_first() else {
        return Err(cut());
    };
    match *kind {
        1 => read_vote(rest),
        2 => read_store(alloc, rest),
        _ => Err(bad(bytes)),
    }
}
