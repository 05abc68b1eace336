//! Messages in the words of a case: `ask TERM LAST LAST_TERM`, `vote TERM yes|no`,
//! `append TERM PREV PREV_TERM ENTRIES COMMIT ROUND`, `yes TERM MATCHED ROUND` and `no TERM LAST`. ENTRIES is how many
//! entries there are; where one is read, they are Noops of its term, three at most.

ghost use Rattle.std.specs.Prelude.{◌≡◌, true, IfOk, IfSome};
ghost use Rattle.cat_model.specs.LogLimits.{keeps_limits};
ghost use Rattle.cat_model.specs.declared.command.Command.TheVariants.{Noop};
ghost use Rattle.raft_node.specs.Receiving.{CarriesAllowed};

use crate::words::{Words, answer, answered, number, server};
use cat_model::{Command, Entry, List, Memory, Shared};
use raft_model::Message;
use std::alloc::{AllocError, Global};
use std::fmt::Write;

/// The message that the words say. `None` also stands for lack of memory.
pub fn read(alloc: Global, words: &mut Words) -> Option<Message>
    ensures { IfSome result CarriesAllowed }
{
    match words.next()? {
        "ask" => ask(words),
        "vote" => vote(words),
        "append" => append(alloc, words),
        "yes" => yes(words),
        "no" => no(words),
        _ => None,
    }
}

fn ask(words: &mut Words) -> Option<Message>
    ensures { IfSome result CarriesAllowed }
{
    let term = number(words)?;
    let last_index = number(words)?;
    let last_term = number(words)?;
    Some(Message::AskVote {
        term,
        last_index,
        last_term,
    })
}

fn vote(words: &mut Words) -> Option<Message>
    ensures { IfSome result CarriesAllowed }
{
    let term = number(words)?;
    let granted = answer(words)?;
    Some(Message::Vote { term, granted })
}

fn append(alloc: Global, words: &mut Words) -> Option<Message>
    ensures { IfSome result CarriesAllowed }
{
    let term = number(words)?;
    let prev_index = number(words)?;
    let prev_term = number(words)?;
    let count = server(words)?;
    let commit = number(words)?;
    let round = number(words)?;
    let entries = noops(alloc, term, count)?;
    Some(Message::Append {
        term,
        prev_index,
        prev_term,
        entries,
        commit,
        round,
    })
}

fn yes(words: &mut Words) -> Option<Message>
    ensures { IfSome result CarriesAllowed }
{
    let term = number(words)?;
    let matched = number(words)?;
    let round = number(words)?;
    Some(Message::Yes {
        term,
        matched,
        round,
    })
}

fn no(words: &mut Words) -> Option<Message>
    ensures { IfSome result CarriesAllowed }
{
    let term = number(words)?;
    let last = number(words)?;
    Some(Message::No { term, last })
}

fn noop(alloc: Global, term: u64) -> Result<Entry, Memory>
    ensures { IfOk result (λ entry. entry ≡ record { term = term; number = 0; command = Noop }) }
{
    Ok(Entry {
        term,
        number: 0,
        command: Shared::new(alloc, Command::Noop)?,
    })
}

// So many Noops of a term, three at most.
fn noops(alloc: Global, term: u64, count: u32) -> Option<List<Entry>>
    ensures { IfSome result (λ entries. keeps_limits entries ≡ true) }
{
    match count {
        0 => Some(List::new(alloc)),
        1 => one_noop(alloc, term),
        2 => two_noops(alloc, term),
        3 => three_noops(alloc, term),
        _ => None,
    }
}

fn one_noop(alloc: Global, term: u64) -> Option<List<Entry>>
    ensures { IfSome result (λ entries. keeps_limits entries ≡ true) }
{
    let Ok(one) = noop(alloc, term) else {
        return None;
    };
    Some(List::from(vec![in alloc; one].ok()?))
}

fn two_noops(alloc: Global, term: u64) -> Option<List<Entry>>
    ensures { IfSome result (λ entries. keeps_limits entries ≡ true) }
{
    let (Ok(one), Ok(two)) = (noop(alloc, term), noop(alloc, term)) else {
        return None;
    };
    Some(List::from(vec![in alloc; one, two].ok()?))
}

fn three_noops(alloc: Global, term: u64) -> Option<List<Entry>>
    ensures { IfSome result (λ entries. keeps_limits entries ≡ true) }
{
    let (Ok(one), Ok(two), Ok(three)) = (noop(alloc, term), noop(alloc, term), noop(alloc, term))
    else {
        return None;
    };
    Some(List::from(vec![in alloc; one, two, three].ok()?))
}

/// A message.
pub fn put(out: &mut String, message: &Message) -> Result<(), AllocError> {
    match message {
        Message::AskVote {
            term,
            last_index,
            last_term,
        } => write!(out, "ask {term} {last_index} {last_term}"),
        Message::Vote { term, granted } => {
            let granted = answered(*granted);
            write!(out, "vote {term} {granted}")
        }
        Message::Append {
            term,
            prev_index,
            prev_term,
            entries,
            commit,
            round,
        } => {
            let count = entries.len();
            write!(
                out,
                "append {term} {prev_index} {prev_term} {count} {commit} {round}"
            )
        }
        Message::Yes {
            term,
            matched,
            round,
        } => write!(out, "yes {term} {matched} {round}"),
        Message::No { term, last } => write!(out, "no {term} {last}"),
    }
}
