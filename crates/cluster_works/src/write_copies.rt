//! The copies of a write that a server is to enter, and what its log would have with that.

ghost use Rattle.std.specs.Prelude.{◌≡◌, ◌+◌, IfOk};
ghost use Rattle.cat_model.specs.LogLimits.{command_bytes as bytes_of_command};
ghost use Rattle.cluster_rules.specs.Replies.{entered};

use crate::entries::entered;
use crate::writes::Write;
use cat_model::{Command, Entry, Memory, Shared};
use cluster_requests::Question;
use command_codec::encoded_len;
use std::alloc::Global;

// The entry of a write at a leader of this term.
fn entry_of(
    alloc: Global,
    question: &Question,
    term: u64,
    command: &Shared<Command>,
) -> Result<Entry, Memory>
    ensures { IfOk result (λ entry. entry ≡ record { term = term; number = question.now.number; command = entered question.now command.now }) }
{
    Ok(Entry {
        term,
        number: question.number(),
        command: entered(alloc, question, command)?,
    })
}

// How many bytes these are with a command more. A count that reaches the greatest number of 64 bits may have stopped
// there.
fn total(bytes: u64, command: &Command) -> Result<u64, Memory>
    ensures { IfOk result (λ all. all ≡ bytes + bytes_of_command command.now) }
{
    let all = bytes.saturating_add(encoded_len(command));
    if all == u64::MAX {
        return Err(Memory);
    }
    Ok(all)
}

// A write with its entry, behind so many bytes of the log.
fn with_entry(question: Question, entry: Entry, entries: u64, before: u64) -> Result<Write, Memory>
    ensures { IfOk result (λ write. write ≡ record { question = question; entry = entry; entries = entries; bytes = before + bytes_of_command entry.command }) }
{
    match total(before, &entry.command) {
        Ok(bytes) => Ok(Write {
            question,
            entry,
            entries,
            bytes,
        }),
        Err(Memory) => {
            drop(question);
            drop(entry);
            Err(Memory)
        }
    }
}

/// A write with its question, which a leader of this term enters behind so many bytes of its log.
pub fn with_question(
    alloc: Global,
    question: Question,
    term: u64,
    command: &Shared<Command>,
    entries: u64,
    before: u64,
) -> Result<Write, Memory>
    ensures { let enters = entered question command.now in IfOk result (λ write. write ≡ record { question = question; entry = record { term = term; number = question.number; command = enters }; entries = entries; bytes = before + bytes_of_command enters }) }
{
    match entry_of(alloc, &question, term, command) {
        Ok(entry) => with_entry(question, entry, entries, before),
        Err(Memory) => {
            drop(question);
            Err(Memory)
        }
    }
}
