//! What replies show.

ghost use Rattle.std.specs.Prelude.{◌≡◌, IfOk, false};
ghost use Rattle.std.specs.Option.{option_copied};
ghost use Rattle.cluster_rules.specs.Agents.{agent_body, unknown};
ghost use Rattle.cat_model.specs.declared.reply.Kind.{Kind as SpecKind};
ghost use Rattle.cat_model.specs.declared.reply.Refusal.TheVariants as refusal;
ghost use Rattle.cat_model.specs.declared.request.Mode.{Mode as SpecMode};
ghost use Rattle.cluster_rules.specs.Replies as replies;
ghost use Rattle.cluster_rules.specs.Replies.{Defers, Holds, Says};
ghost use Rattle.cluster_requests.specs.Contents.{content_of};
ghost use Rattle.cluster_requests.specs.Requests.{reply_with};
ghost use Rattle.cluster_works.specs.Agents.{IsThere, agent_at, own_reply};

use crate::agents::Agents;
use agent_state::unknown;
use cat_model::{AgentOp, Command, Kind, Memory, Mode, Refusal, SessionRow, Shared, Text};
use cluster_requests::{Content, Reply};
use std::alloc::Global;

fn copy_of(row: Option<&SessionRow>) -> Result<Option<SessionRow>, Memory>
    ensures { IfOk result (λ copy. copy ≡ option_copied row.entry) }
{
    match row {
        None => Ok(None),
        Some(row) => Ok(Some(row.clone()?)),
    }
}

/// The reply to a renewal at this prefix, where the session has this row, or is not there.
pub fn renewed(number: u64, prefix: u64, row: Option<&SessionRow>) -> Result<Reply, Memory>
    ensures { IfOk result (λ reply. reply ≡ reply_with number (SpecKind.Seen SpecMode.Default prefix) false 0 (replies.Renews (option_copied row.entry))) }
{
    let content = Content::Renews(copy_of(row)?);
    let kind = Kind::Seen {
        mode: Mode::Default,
        prefix,
    };
    Ok(Reply::new(number, kind, false, 0, content))
}

// What a write shows that locks this key.
fn defers(alloc: Global, command: &Shared<Command>, key: &str) -> Result<Content, Memory>
    ensures { IfOk result (λ content. content_of content ≡ Defers command.now key.now) }
{
    let key = Text::new(alloc, key)?;
    match command.share() {
        Ok(command) => Ok(Content::Defers { command, key }),
        Err(Memory) => {
            drop(key);
            Err(Memory)
        }
    }
}

/// The reply to a write that locks this key, whose delay is over at a later time of the clock.
pub fn deferred(
    alloc: Global,
    number: u64,
    command: &Shared<Command>,
    key: &str,
    until: u64,
    now: u64,
) -> Result<Reply, Memory>
    ensures { IfOk result (λ reply. reply ≡ reply_with number (SpecKind.Delayed key.now until now) false 0 (Defers command.now key.now)) }
{
    let content = defers(alloc, command, key)?;
    match Text::new(alloc, key) {
        Ok(key) => Ok(Reply::new(number, Kind::Delayed { key, until, now }, false, 0, content)),
        Err(Memory) => {
            drop(content);
            Err(Memory)
        }
    }
}

// Why a request is refused that names what an agent doesn't have.
fn not_found(alloc: Global, op: &AgentOp) -> Result<Refusal, Memory>
    ensures { IfOk result (λ why. why ≡ refusal.NotFound (unknown op.now)) }
{
    Ok(Refusal::NotFound {
        what: Text::new(alloc, unknown(op))?,
    })
}

// The refusal of a request that names what an agent doesn't have.
fn refusing(alloc: Global, number: u64, op: &AgentOp) -> Result<Reply, Memory>
    ensures { let why = refusal.NotFound (unknown op.now) in IfOk result (λ reply. reply ≡ reply_with number (SpecKind.Refused why) false 0 (Says why)) }
{
    let why = not_found(alloc, op)?;
    match not_found(alloc, op) {
        Ok(again) => Ok(Reply::new(number, Kind::Refused(why), false, 0, Content::Says(again))),
        Err(Memory) => {
            drop(why);
            Err(Memory)
        }
    }
}

// The answer of an agent that does what it is asked.
fn telling(
    alloc: Global,
    agents: &Agents,
    number: u64,
    agent: u32,
    op: &AgentOp,
) -> Result<Reply, Memory>
    requires { IsThere agents.now agent }
    ensures { let body = agent_body agent op.now (agent_at agents.now agent) in IfOk result (λ reply. reply ≡ reply_with number (SpecKind.Local body) false 0 (Holds body)) }
{
    let body = agents.body(alloc, agent, op)?;
    match agents.body(alloc, agent, op) {
        Ok(again) => Ok(Reply::new(
            number,
            Kind::Local { body },
            false,
            0,
            Content::Holds(again),
        )),
        Err(Memory) => {
            drop(body);
            Err(Memory)
        }
    }
}

/// The reply of an agent to the request of this number.
pub fn own_reply(
    alloc: Global,
    agents: &Agents,
    number: u64,
    agent: u32,
    op: &AgentOp,
) -> Result<Reply, Memory>
    requires { IsThere agents.now agent }
    ensures { IfOk result (λ reply. reply ≡ own_reply number agent op.now agents.now) }
{
    if agents.can_change(agent, op) {
        telling(alloc, agents, number, agent, op)
    } else {
        refusing(alloc, number, op)
    }
}
