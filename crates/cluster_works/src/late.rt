//! The held requests whose round is confirmed.

ghost use Rattle.std.specs.Prelude.{◌≡◌, IfNone, IfSome, None, false, true};
ghost use Rattle.std.specs.List.{AllByRecursion as Each, find};
ghost use Rattle.std.specs.Option.{option_copied};
ghost use Rattle.raft_world.specs.Steps.{IsNumber};
ghost use Rattle.cluster_rules.specs.Due.{next_work};
ghost use Rattle.cluster_rules.specs.Sound.{Ascends};
ghost use Rattle.cluster_requests.specs.Contents.{stand_of};
ghost use Rattle.cluster_requests.specs.Held.{held_in, pending_of};
ghost use Rattle.cluster_works.specs.Looking.{OnlyAwakeIsDue, is_early, is_late, is_number_late, is_round_over, is_stand_late, test_held};
ghost use Rattle.cluster_works.specs.Standing.{Stands};
ghost use Rattle.cluster_works.specs.Evaluating.{evaluations_of};
ghost use Rattle.cluster_works.specs.Working.{Finds, whole};

use crate::duties::past_round;
use crate::early::is_halted;
use crate::watch::Watching;
use crate::work::Work;
use cluster_replicas::Servers;
use cluster_requests::{HeldSlot, Pending, Requests, Stand};
use outside::Keeper;
use raft_model::Round;

// The round is confirmed at a server that runs, and its commit is applied there.
fn is_round_over<K: Keeper + Drop>(servers: &Servers<K>, server: u32, round: &Round) -> bool
    requires { IsNumber server servers.now.world }
    ensures { result ≡ is_round_over servers.now server round.now }
{
    if is_halted(servers, server) {
        return false;
    }
    servers.node(server).confirmed(round) && round.commit <= servers.applied(server)
}

// The request waits for a round that is over.
fn is_stand_late<K: Keeper + Drop>(servers: &Servers<K>, server: u32, stand: Stand) -> bool
    requires { IsNumber server servers.now.world }
    ensures { result ≡ is_stand_late servers.now server (stand_of stand) }
{
    match stand {
        Stand::InRound { round, .. } => is_round_over(servers, server, &round),
        _ => false,
    }
}

// The same of a held request of the server.
fn is_late<K: Keeper + Drop>(servers: &Servers<K>, server: u32, held: &Pending) -> bool
    requires { IsNumber server servers.now.world }
    ensures { result ≡ is_late servers.now server held.now }
{
    held.server() == server && is_stand_late(servers, server, held.stand())
}

// The same of the held request with this number, if there is one.
fn is_number_late<K: Keeper + Drop>(
    servers: &Servers<K>,
    requests: &Requests,
    server: u32,
    number: u64,
) -> bool
    requires { IsNumber server servers.now.world }
    ensures { result ≡ is_number_late servers.now requests.now.held server number }
{
    match requests.pending(number) {
        Some(held) => is_late(servers, server, held),
        None => false,
    }
}

// The first of these numbers.
fn late_awake<K: Keeper + Drop>(
    servers: &Servers<K>,
    requests: &Requests,
    server: u32,
    numbers: &[u64],
) -> Option<u64>
    requires { IsNumber server servers.now.world }
    ensures { result ≡ find (is_number_late servers.now requests.now.held server) numbers.now }
{
    numbers.iter().copied().find(|number| is_number_late(servers, requests, server, *number))
}

// Whether the slot holds a request that is late at the server.
fn is_slot_late<K: Keeper + Drop>(servers: &Servers<K>, server: u32, slot: &HeldSlot) -> bool
    requires { IsNumber server servers.now.world }
    ensures { result ≡ test_held (is_late servers.now server) (pending_of slot.now) }
{
    match slot.pending() {
        Some(held) => is_late(servers, server, held),
        None => false,
    }
}

// The first slot of such a request.
fn first_late_slot<'a, K: Keeper + Drop>(
    servers: &Servers<K>,
    server: u32,
    slots: &'a [HeldSlot],
) -> Option<&'a HeldSlot>
    requires { IsNumber server servers.now.world }
    ensures { option_copied result ≡ find (λ s. test_held (is_late servers.now server) (pending_of s)) slots.now }
{
    slots.iter().find(|s| is_slot_late(servers, server, s))
}

// The first of the held requests in these slots whose server is this one and whose round is over.
fn first_late<'a, K: Keeper + Drop>(
    servers: &Servers<K>,
    server: u32,
    slots: &'a [HeldSlot],
) -> Option<&'a Pending>
    requires { IsNumber server servers.now.world }
    ensures { option_copied result ≡ find (is_late servers.now server) (held_in slots.now) }
{
    match first_late_slot(servers, server, slots) {
        Some(slot) => slot.pending(),
        None => None,
    }
}

// The number of the first of all that are held.
fn late_held<K: Keeper + Drop>(
    servers: &Servers<K>,
    requests: &Requests,
    server: u32,
) -> Option<u64>
    requires server { IsNumber server servers.now.world }
    requires ascends { Ascends requests.now.held }
    ensures some { IfSome result (λ number. is_number_late servers.now requests.now.held server number ≡ true) }
    ensures none { IfNone result (Each (λ h. is_late servers.now server h ≡ false) requests.now.held) }
{
    match first_late(servers, server, requests.held()) {
        Some(held) => Some(held.number()),
        None => None,
    }
}

// The number of a held request of the server whose round is over. Those that are not awake are not looked at, unless
// memory ran out.
fn late_number<K: Keeper + Drop>(
    servers: &Servers<K>,
    requests: &Requests,
    watch: &Watching,
    server: u32,
) -> Option<u64>
    requires server { IsNumber server servers.now.world }
    requires stands { Stands watch.now servers.now.world servers.now.servers requests.now }
    requires awake { OnlyAwakeIsDue watch.now servers.now server requests.now.held }
    ensures some { IfSome result (λ number. is_number_late servers.now requests.now.held server number ≡ true) }
    ensures none { IfNone result (Each (λ h. is_late servers.now server h ≡ false) requests.now.held) }
{
    if !watch.covers(requests.asked()) {
        return late_held(servers, requests, server);
    }
    late_awake(servers, requests, server, watch.awake())
}

// The held request with this number is looked for from now on.
fn late_of<K: Keeper + Drop>(
    servers: &Servers<K>,
    requests: &Requests,
    server: u32,
    number: u64,
) -> Option<Work>
    requires late { is_number_late servers.now requests.now.held server number ≡ true }
    requires none { Each (λ h. is_early servers.now server h ≡ false) requests.now.held }
    requires applied { next_work (whole servers.now requests.now) server ≡ None }
    ensures found { Finds (whole servers.now requests.now) server result }
    ensures evaluated { evaluations_of result ≡ 0 }
{
    match requests.pending(number) {
        Some(held) => past_round(held),
        None => None,
    }
}

/// What is due at a server that has applied all that it committed, and of which nothing is due before.
pub(crate) fn late_due<K: Keeper + Drop>(
    servers: &Servers<K>,
    requests: &Requests,
    watch: &Watching,
    server: u32,
) -> Option<Work>
    requires server { IsNumber server servers.now.world }
    requires stands { Stands watch.now servers.now.world servers.now.servers requests.now }
    requires awake { OnlyAwakeIsDue watch.now servers.now server requests.now.held }
    requires none { Each (λ h. is_early servers.now server h ≡ false) requests.now.held }
    requires applied { next_work (whole servers.now requests.now) server ≡ None }
    ensures found { Finds (whole servers.now requests.now) server result }
    ensures evaluated { evaluations_of result ≡ 0 }
{
    match late_number(servers, requests, watch, server) {
        Some(number) => late_of(servers, requests, server, number),
        None => None,
    }
}
