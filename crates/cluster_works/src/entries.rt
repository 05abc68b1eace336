//! The command that a write enters into the log.

ghost use Rattle.std.specs.Prelude.{◌≡◌, IfOk, if◌then◌else◌, true};
ghost use Rattle.cluster_rules.specs.Agents.{agent_node};
ghost use Rattle.cat_model.specs.Identifiers.{identifier};
ghost use Rattle.cat_model.specs.Keys.{is_empty};
ghost use Rattle.cluster_rules.specs.Replies.{Question as SpecQuestion, entered};

use crate::copies::copy_command;
use cat_model::{Command, Draw, Memory, Shared, Text};
use cluster_requests::Question;
use std::alloc::Global;

// The name of an agent's node. It answers Memory also for a number of three digits, of which no agent has one.
#[tactic(auto, using(crate::proofs::Commands::two_digits))]
fn agent_node(alloc: Global, agent: u32) -> Result<Text, Memory>
    ensures { IfOk result (λ name. name ≡ agent_node agent) }
{
    if agent > 99 {
        return Err(Memory);
    }
    Ok(Text::from(format!(in alloc; "agent-{agent}")?))
}

// The node of a new session: the one that was asked for, or else its agent's.
fn node_of(alloc: Global, agent: u32, node: Text) -> Result<Text, Memory>
    ensures { IfOk result (λ name. name ≡ (if is_empty node then agent_node agent else node)) }
{
    if node.len() == 0 {
        agent_node(alloc, agent)
    } else {
        Ok(node)
    }
}

// A new prepared query gets the identifier that was drawn.
fn query_id(draw: Draw, create: bool, id: u128) -> u128
    ensures { result ≡ (if create then identifier draw.hi draw.lo else id) }
{
    if create { draw.identifier() } else { id }
}

// The command of a new session or prepared query with the identifier that was drawn, and any other as it is.
#[tactic(auto, using(crate::proofs::Commands::entered_query), unfolding(cluster_rules::specs::Replies::entered))]
fn with_draw(alloc: Global, question: &Question, command: Command) -> Result<Command, Memory>
    ensures { IfOk result (λ new. new ≡ entered question.now command) }
{
    match command {
        Command::SessionCreate {
            id: _,
            name,
            node,
            checks,
            behavior,
            delay_ms,
            ttl_ms,
        } => Ok(Command::SessionCreate {
            id: question.draw().identifier(),
            name,
            node: node_of(alloc, question.agent(), node)?,
            checks,
            behavior,
            delay_ms,
            ttl_ms,
        }),
        Command::QuerySet {
            id,
            create,
            name,
            session,
            service,
            only_passing,
            tags,
            dns_ttl_ms,
        } => Ok(Command::QuerySet {
            id: query_id(question.draw(), create, id),
            create,
            name,
            session,
            service,
            only_passing,
            tags,
            dns_ttl_ms,
        }),
        other => Ok(other),
    }
}

// Whether a write enters the command as it was asked for.
#[tactic(auto, unfolding(cluster_rules::specs::Replies::entered))]
fn enters_as_asked(command: &Command) -> bool
    ensures { (question : SpecQuestion) → result ≡ true → command.now ≡ entered question command.now }
{
    !matches!(
        command,
        Command::SessionCreate { .. } | Command::QuerySet { .. }
    )
}

/// The command that a write enters: a new session or prepared query gets the identifier that was drawn, and a session
/// without a node is its agent's. Any other is the command that was asked for, which the log shares.
pub fn entered(
    alloc: Global,
    question: &Question,
    command: &Shared<Command>,
) -> Result<Shared<Command>, Memory>
    ensures { IfOk result (λ new. new ≡ entered question.now command.now) }
{
    if enters_as_asked(command) {
        return command.share();
    }
    let copy = copy_command(command)?;
    let new = with_draw(alloc, question, copy)?;
    Shared::new(alloc, new)
}
