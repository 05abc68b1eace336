//! What is due of a write whose position is applied.

ghost use Rattle.std.specs.Prelude.{◌≡◌, ◌≤◌, IfOk, length};
ghost use Rattle.cat_model.specs.declared.reply.Kind.TheVariants as kinds;
ghost use Rattle.raft_model.specs.Log.{entry_at};
ghost use Rattle.raft_world.specs.Steps.{IsNumber};
ghost use Rattle.cluster_rules.specs.Cluster.{AtPlace};
ghost use Rattle.cluster_rules.specs.Due.{Replies, landed};
ghost use Rattle.cluster_rules.specs.Replies.{Tells, shown_entry, shown_write};
ghost use Rattle.cluster_requests.specs.Contents.{content_of};
ghost use Rattle.cluster_works.specs.Evaluating.{evaluations};
ghost use Rattle.cluster_works.specs.Looking.{applied_at};
ghost use Rattle.cluster_works.specs.Standing.{IsAwaited};
ghost use Rattle.cluster_works.specs.Working.{IsWork};

use crate::duties::lost;
use crate::work::Work;
use cat_model::{Applied, Asked, Command, Kind, Memory, Request, Shared};
use cluster_replicas::Servers;
use cluster_requests::{Content, Question};
use outside::Keeper;
use std::alloc::Global;

// The answer to a command, which is shared.
fn telling(command: &Shared<Command>, applied: Applied) -> Result<Content, Memory>
    ensures { IfOk result (λ content. content_of content ≡ Tells command.now applied) }
{
    match command.share() {
        Ok(command) => Ok(Content::Tells { command, applied }),
        Err(Memory) => {
            drop(applied);
            Err(Memory)
        }
    }
}

// What the entry shows that a server applied last, whichever that is, with the catalog's answer to it.
#[tactic(auto, using(crate::proofs::LastReply::told_last))]
fn shown_last<K: Keeper>(
    servers: &Servers<K>,
    alloc: Global,
    server: u32,
) -> Result<Content, Memory>
    requires server { IsNumber server servers.now.world }
    ensures { let log = applied_at servers.now server in IfOk result (λ content. content_of content ≡ shown_entry (entry_at (length log) log) (length log) log) }
{
    let last = servers.applied(server);
    match servers.applied_entry(server, last) {
        None => Ok(Content::Blank),
        Some(entry) => match servers.reply(alloc, server)? {
            Some(applied) => telling(&entry.command, applied),
            None => unreachable!(),
        },
    }
}

// What a request shows whose position a server applied last.
fn written<K: Keeper>(
    servers: &Servers<K>,
    alloc: Global,
    server: u32,
    question: &Question,
) -> Result<Content, Memory>
    requires server { IsNumber server servers.now.world }
    ensures { let log = applied_at servers.now server in IfOk result (λ content. content_of content ≡ shown_write question.now.asked (length log) log) }
{
    match question.asked() {
        Asked::Good(Request::Write { .. }) => shown_last(servers, alloc, server),
        _ => Ok(Content::Blank),
    }
}

// The reply to a write whose position was applied last.
#[tactic(auto, using(crate::proofs::LastReply::acked_shown))]
fn acked<K: Keeper>(
    servers: &Servers<K>,
    alloc: Global,
    server: u32,
    question: &Question,
    position: u64,
) -> Result<Work, Memory>
    requires server { IsNumber server servers.now.world }
    requires last { position ≡ length (applied_at servers.now server) }
    ensures work { IfOk result (λ work. IsWork (applied_at servers.now server) work (Replies question.now (kinds.Acked position))) }
    ensures evaluated { IfOk result (λ work. evaluations work ≡ 0) }
{
    Ok(Work::Answer {
        number: question.number(),
        kind: Kind::Acked { position },
        content: written(servers, alloc, server, question)?,
    })
}

/// What is due of a request whose position is applied.
pub(crate) fn write_due<K: Keeper>(
    servers: &Servers<K>,
    alloc: Global,
    server: u32,
    question: &Question,
    index: u64,
    term: u64,
) -> Result<Work, Memory>
    requires server { IsNumber server servers.now.world }
    requires awaited { IsAwaited (length (applied_at servers.now server)) (AtPlace index term) }
    requires applied { index ≤ length (applied_at servers.now server) }
    ensures work { IfOk result (λ work. IsWork (applied_at servers.now server) work (Replies question.now (landed index term (applied_at servers.now server)))) }
    ensures evaluated { IfOk result (λ work. evaluations work ≡ 0) }
{
    let found = servers.term_at(server, index);
    if found == term {
        acked(servers, alloc, server, question, index)
    } else {
        Ok(lost(question.number(), term, found))
    }
}
