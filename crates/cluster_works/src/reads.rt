//! What is due of a read that waits for an index.

ghost use Rattle.std.specs.Prelude.{◌≡◌, ◌<◌, ℕ, Bool, IfOk, Some, is_some, length, true};
ghost use Rattle.cat_model.specs.declared.reply.Kind.TheVariants as kinds;
ghost use Rattle.cat_model.specs.declared.request.Asked.TheVariants.{Good};
ghost use Rattle.cat_model.specs.declared.request.Request.TheVariants.{Execute, Read};
ghost use Rattle.cat_model.specs.Indexes.{index_of};
ghost use Rattle.cat_model.specs.Log.{commands_of};
ghost use Rattle.cat_model.specs.Machine.{catalog_at};
ghost use Rattle.cat_model.specs.Queries.{answer};
ghost use Rattle.raft_model.specs.Log.{Log};
ghost use Rattle.raft_world.specs.Steps.{IsNumber};
ghost use Rattle.cat_model.specs.Taken.{IsTakenAsked};
ghost use Rattle.cluster_rules.specs.Cluster.{clock_of};
ghost use Rattle.cluster_rules.specs.Due.{Replies, asks, asks_read, waiting};
ghost use Rattle.cluster_rules.specs.Replies.{shown_read};
ghost use Rattle.cluster_requests.specs.Contents.{read_content};
ghost use Rattle.cluster_works.specs.Evaluating.{Counts, evaluations};
ghost use Rattle.cluster_works.specs.Looking.{applied_at, waits_on};
ghost use Rattle.cluster_works.specs.Working.{IsFound, IsWork};

use crate::duties::too_many;
use crate::identifiers::id_in;
use crate::waits::is_answered;
use crate::work::Work;
use cat_model::{Answer, Asked, Kind, Memory, Mode, Query, Request, Steps, Text};
use cluster_replicas::Servers;
use cluster_requests::{Content, Pending, Question, Requests, Stand};
use outside::Keeper;
use std::alloc::Global;
use std::sync::ledger::Ledger;

// The most queries that wait at a server.
const MOST_WAITING: u32 = 4096;

// How many requests wait at a server for an index.
fn waiting(requests: &Requests, server: u32) -> Result<u32, Memory>
    ensures { IfOk result (λ count. count ≡ waiting server requests.now.held) }
{
    match u32::try_from(requests.waiting(server)) {
        Ok(count) => Ok(count),
        Err(_) => Err(Memory),
    }
}

// A read is answered with all that the server has applied.
#[tactic(auto, unfolding(cluster_rules::specs::Replies::shown))]
fn answer_read<K: Keeper>(
    servers: &Servers<K>,
    server: u32,
    question: &Question,
    mode: Mode,
    deadline: u64,
    answer: Answer,
    index: u64,
) -> Result<Work, Memory>
    requires server { IsNumber server servers.now.world }
    requires shows { let log = applied_at servers.now server in read_content question.now.asked answer ≡ shown_read question.now.asked (length log) log }
    ensures work { IfOk result (λ work. IsWork (applied_at servers.now server) work (Replies question.now (kinds.At mode (length (applied_at servers.now server)) index (clock_of servers.now.world server) deadline))) }
    ensures evaluated { IfOk result (λ work. evaluations work ≡ 1) }
{
    let content = question.read_content(answer)?;
    let kind = Kind::At {
        mode,
        prefix: servers.applied(server),
        index,
        clock: servers.clock(server),
        deadline,
    };
    Ok(Work::Answer {
        number: question.number(),
        kind,
        content,
    })
}

// A new query whose index is not above the one given waits, or is refused where as many wait as may.
fn wait_on(requests: &Requests, server: u32, held: &Pending, deadline: u64) -> Result<Work, Memory>
    ensures found { (log : Log) → IfOk result (λ work. IsFound log (waits_on held.now (waiting server requests.now.held) deadline) (Some work)) }
    ensures evaluated { IfOk result (λ work. evaluations work ≡ 1) }
{
    let waiting = waiting(requests, server)?;
    if MOST_WAITING <= waiting {
        return Ok(too_many(held.number(), waiting));
    }
    let stand = Stand::ForIndex {
        deadline,
        looked: true,
    };
    Ok(Work::Hold {
        number: held.number(),
        stand,
    })
}

// A query is looked for at all that the server has applied: that is one evaluation, whatever comes of it.
#[tactic(auto, using(crate::proofs::Evaluated::counts_one))]
fn look<K: Keeper, L: Ledger>(
    servers: &Servers<K>,
    requests: &Requests,
    alloc: Global,
    server: u32,
    held: &Pending,
    query: &Query,
    mode: Mode,
    least: u64,
    deadline: u64,
    looked: bool,
    steps: &mut Steps<L>,
) -> Result<Work, Memory>
    requires server { IsNumber server servers.now.world }
    requires asked { (wait : ℕ) × (raw : Bool) × (held.now.question.asked ≡ Good (Read query.now mode least wait raw)) }
    requires due { is_some (asks held.now (waiting server requests.now.held) (clock_of servers.now.world server) (applied_at servers.now server) deadline looked query.now mode least) ≡ true }
    ensures found { IfOk result (λ work. IsFound (applied_at servers.now server) (asks held.now (waiting server requests.now.held) (clock_of servers.now.world server) (applied_at servers.now server) deadline looked query.now mode least) (Some work)) }
    ensures counted { Counts evaluations steps.old steps.new result }
{
    let (answer, index) = servers.read(alloc, server, query, steps)?;
    if is_answered(least, index, deadline, servers.clock(server)) {
        return answer_read(
            servers,
            server,
            held.question(),
            mode,
            deadline,
            answer,
            index,
        );
    }
    drop(answer);
    wait_on(requests, server, held, deadline)
}

// An execution is answered with what its prepared query gives at all that the server has applied. No query of a read is
// evaluated.
#[tactic(auto, using(crate::proofs::Finding::run_whole))]
fn execute<K: Keeper>(
    servers: &Servers<K>,
    alloc: Global,
    server: u32,
    question: &Question,
    name: &Text,
    limit: u64,
    mode: Mode,
) -> Result<Work, Memory>
    requires server { IsNumber server servers.now.world }
    requires asked { question.now.asked ≡ Good (Execute name.now limit mode) }
    ensures work { IfOk result (λ work. IsWork (applied_at servers.now server) work (Replies question.now (kinds.Seen mode (length (applied_at servers.now server))))) }
    ensures evaluated { IfOk result (λ work. evaluations work ≡ 0) }
{
    let id = id_in(name.as_str());
    let ran = servers.execute(alloc, server, id, name.as_str(), limit)?;
    Ok(Work::Answer {
        number: question.number(),
        kind: Kind::Seen {
            mode,
            prefix: servers.applied(server),
        },
        content: Content::Runs(ran),
    })
}

/// What is due of a read that waits for an index: its answer, or that it waits from now on. An execution waits for
/// nothing.
#[tactic(auto, using(crate::proofs::Evaluated::counts_none))]
pub(crate) fn read_due<K: Keeper, L: Ledger>(
    servers: &Servers<K>,
    requests: &Requests,
    alloc: Global,
    server: u32,
    held: &Pending,
    deadline: u64,
    looked: bool,
    steps: &mut Steps<L>,
) -> Result<Work, Memory>
    requires server { IsNumber server servers.now.world }
    requires taken { IsTakenAsked held.now.question.asked }
    requires due { is_some (asks_read held.now (waiting server requests.now.held) (clock_of servers.now.world server) (applied_at servers.now server) deadline looked held.now.question.asked) ≡ true }
    ensures found { IfOk result (λ work. IsFound (applied_at servers.now server) (asks_read held.now (waiting server requests.now.held) (clock_of servers.now.world server) (applied_at servers.now server) deadline looked held.now.question.asked) (Some work)) }
    ensures counted { Counts evaluations steps.old steps.new result }
{
    match held.question().asked() {
        Asked::Good(
            Request::Read {
                query,
                mode,
                min,
                ..
            },
        ) => look(
            servers, requests, alloc, server, held, query, *mode, *min, deadline, looked, steps,
        ),
        Asked::Good(Request::Execute { name, limit, mode }) => {
            execute(servers, alloc, server, held.question(), name, *limit, *mode)
        }
        _ => unreachable!(),
    }
}
