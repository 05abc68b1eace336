//! What is due at a server.

ghost use Rattle.std.specs.Prelude.{◌≡◌, ◌≢◌, None, Some, false, true, IfOk, OnErr, is_some, length};
ghost use Rattle.std.specs.List.{AllByRecursion as Each};
ghost use Rattle.raft_world.specs.Steps.{IsNumber};
ghost use Rattle.cat_model.specs.Taken.{IsTakenAsked};
ghost use Rattle.cluster_rules.specs.Due.{due, early_stand, early_work};
ghost use Rattle.cluster_works.specs.Evaluating.{Counts, evaluations, evaluations_of};
ghost use Rattle.cluster_works.specs.Looking.{OnlyAwakeIsDue, applied_at, is_early, is_number_early};
ghost use Rattle.cluster_works.specs.Standing.{IsAwaited, Stands};
ghost use Rattle.cluster_works.specs.Watching.{Watching as SpecWatching};
ghost use Rattle.cluster_works.specs.Working.{Finds, IsFound, whole};

use crate::applied_writes::write_due;
use crate::duties::{halted, lost};
use crate::early::{early_number, is_halted};
use crate::late::late_due;
use crate::reads::read_due;
use crate::waits::is_ended;
use crate::wakes::wake_due;
use crate::watch::Watching;
use crate::work::Work;
use cat_model::{Memory, Steps};
use cluster_replicas::Servers;
use cluster_requests::{Pending, Requests, Stand};
use outside::Keeper;
use std::alloc::Global;
use std::sync::ledger::Ledger;

// What is due of a held request by what it waits for.
#[tactic(auto, using(crate::proofs::Evaluated::counts_none))]
fn stand_due<K: Keeper, L: Ledger>(
    servers: &Servers<K>,
    requests: &Requests,
    alloc: Global,
    server: u32,
    held: &Pending,
    steps: &mut Steps<L>,
) -> Result<Work, Memory>
    requires server { IsNumber server servers.now.world }
    requires taken { IsTakenAsked held.now.question.asked }
    requires awaited { IsAwaited (length (applied_at servers.now server)) held.now.stand }
    requires early { is_some (early_stand (whole servers.now requests.now) server held.now held.now.stand) ≡ true }
    ensures found { IfOk result (λ work. IsFound (applied_at servers.now server) (early_stand (whole servers.now requests.now) server held.now held.now.stand) (Some work)) }
    ensures counted { Counts evaluations steps.old steps.new result }
{
    match held.stand() {
        Stand::Ended { event } => Ok(Work::Close {
            number: held.number(),
            event,
        }),
        Stand::AtPlace { index, term } => {
            write_due(servers, alloc, server, held.question(), index, term)
        }
        Stand::ForIndex { deadline, looked } => {
            read_due(
                servers, requests, alloc, server, held, deadline, looked, steps,
            )
        }
        Stand::InRound { round, .. } => {
            let found = servers.node(server).term();
            Ok(lost(held.number(), round.term, found))
        }
    }
}

// What is due of a held request before the next position is applied.
fn early_due<K: Keeper, L: Ledger>(
    servers: &Servers<K>,
    requests: &Requests,
    alloc: Global,
    server: u32,
    held: &Pending,
    steps: &mut Steps<L>,
) -> Result<Work, Memory>
    requires server { IsNumber server servers.now.world }
    requires taken { IsTakenAsked held.now.question.asked }
    requires awaited { IsAwaited (length (applied_at servers.now server)) held.now.stand }
    requires early { is_some (early_work (whole servers.now requests.now) server held.now) ≡ true }
    ensures found { IfOk result (λ work. IsFound (applied_at servers.now server) (early_work (whole servers.now requests.now) server held.now) (Some work)) }
    ensures counted { Counts evaluations steps.old steps.new result }
{
    if is_halted(servers, server) && !is_ended(held.stand()) {
        Ok(halted(held.number(), server))
    } else {
        stand_due(servers, requests, alloc, server, held, steps)
    }
}

// What is due of the held request with this number.
fn early_of<K: Keeper, L: Ledger>(
    servers: &Servers<K>,
    requests: &Requests,
    alloc: Global,
    server: u32,
    number: u64,
    steps: &mut Steps<L>,
) -> Result<Work, Memory>
    requires server { IsNumber server servers.now.world }
    requires stands { (watch : SpecWatching) × Stands watch servers.now.world servers.now.servers requests.now }
    requires early { is_number_early servers.now requests.now.held server number ≡ true }
    ensures found { IfOk result (λ work. Finds (whole servers.now requests.now) server (Some work)) }
    ensures behind { OnErr result (due server (whole servers.now requests.now) ≢ None) }
    ensures counted { Counts evaluations steps.old steps.new result }
{
    match requests.pending(number) {
        Some(held) => early_due(servers, requests, alloc, server, held, steps),
        None => unreachable!(),
    }
}

// The next position, where more is committed than applied, or a round that is confirmed once there is none.
fn later_due<K: Keeper + Drop>(
    servers: &Servers<K>,
    requests: &Requests,
    watch: &Watching,
    server: u32,
) -> Option<Work>
    requires server { IsNumber server servers.now.world }
    requires stands { Stands watch.now servers.now.world servers.now.servers requests.now }
    requires awake { OnlyAwakeIsDue watch.now servers.now server requests.now.held }
    requires none { Each (λ h. is_early servers.now server h ≡ false) requests.now.held }
    ensures found { Finds (whole servers.now requests.now) server result }
    ensures evaluated { evaluations_of result ≡ 0 }
{
    if servers.has_next(server) {
        Some(Work::Apply)
    } else {
        late_due(servers, requests, watch, server)
    }
}

/// Something that is due at a server, if anything is. It lacks memory only where there is something. `steps` counts the
/// queries of reads that it evaluates.
pub(crate) fn find<K: Keeper + Drop, L: Ledger>(
    servers: &Servers<K>,
    requests: &Requests,
    watch: &mut Watching,
    alloc: Global,
    server: u32,
    steps: &mut Steps<L>,
) -> Result<Option<Work>, Memory>
    requires server { IsNumber server servers.now.world }
    requires stands { Stands watch.old servers.now.world servers.now.servers requests.now }
    ensures stands { Stands watch.new servers.now.world servers.now.servers requests.now }
    ensures found { IfOk result (Finds (whole servers.now requests.now) server) }
    ensures behind { OnErr result (due server (whole servers.now requests.now) ≢ None) }
    ensures counted { Counts evaluations_of steps.old steps.new result }
{
    wake_due(servers, requests, watch, alloc, server);
    match early_number(servers, requests, watch, server) {
        Some(number) => match early_of(servers, requests, alloc, server, number, steps) {
            Ok(work) => Ok(Some(work)),
            Err(Memory) => Err(Memory),
        },
        None => Ok(later_due(servers, requests, watch, server)),
    }
}
