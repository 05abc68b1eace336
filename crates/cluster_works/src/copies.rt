//! Copies of what is asked and entered.

ghost use Rattle.std.specs.Prelude.{◌≡◌, IfOk};

use cat_model::{Asked, Command, Draw, Entry, List, Memory, Refusal, Shared};
use cluster_requests::Question;
use std::alloc::Global;

/// A copy of a command.
pub(crate) fn copy_command(command: &Command) -> Result<Command, Memory>
    ensures { IfOk result (λ copy. copy ≡ command.now) }
{
    Ok(command.clone()?)
}

/// A copy of a command, which logs then share.
pub(crate) fn shared_copy(alloc: Global, command: &Command) -> Result<Shared<Command>, Memory>
    ensures { IfOk result (λ copy. copy ≡ command.now) }
{
    Shared::new(alloc, copy_command(command)?)
}

/// A copy of why a request is none.
pub fn copy_refusal(why: &Refusal) -> Result<Refusal, Memory>
    ensures { IfOk result (λ copy. copy ≡ why.now) }
{
    Ok(why.clone()?)
}

/// A copy of these entries.
pub fn copy_entries(alloc: Global, entries: &[Entry]) -> Result<List<Entry>, Memory>
    ensures { IfOk result (λ copy. copy ≡ entries.now) }
{
    let copy = Vec::from_clones(alloc, entries)?;
    Ok(List::from(copy))
}

/// A request with its number, and a copy of what was asked.
pub fn copied_question(
    number: u64,
    agent: u32,
    asked: &Shared<Asked>,
    draw: Draw,
) -> Result<Question, Memory>
    ensures { IfOk result (λ question. question ≡ record { number = number; agent = agent; asked = asked.now; draw = draw }) }
{
    Ok(Question::new(number, agent, asked.share()?, draw))
}
