//! The held requests of which something is due before the next position is applied.

ghost use Rattle.std.specs.Prelude.{◌≡◌, IfNone, IfSome, false, true};
ghost use Rattle.std.specs.List.{AllByRecursion as Each, find};
ghost use Rattle.std.specs.Option.{option_copied};
ghost use Rattle.raft_world.specs.Steps.{IsNumber};
ghost use Rattle.cluster_rules.specs.Cluster.{node_of};
ghost use Rattle.cluster_rules.specs.Sound.{Ascends};
ghost use Rattle.cluster_requests.specs.Contents.{stand_of};
ghost use Rattle.cluster_requests.specs.Held.{held_in, pending_of};
ghost use Rattle.cluster_works.specs.Looking.{OnlyAwakeIsDue, is_early, is_look_due, is_number_early, is_read_due, is_stand_due, test_held};
ghost use Rattle.cluster_works.specs.Standing.{Stands};

use crate::watch::Watching;
use cat_model::{Asked, Query, Request};
use cluster_replicas::Servers;
use cluster_requests::{HeldSlot, Pending, Requests, Stand};
use outside::Keeper;

/// The server's durable store failed, and it has not restarted since.
pub(crate) fn is_halted<K: Keeper>(servers: &Servers<K>, server: u32) -> bool
    requires { IsNumber server servers.now.world }
    ensures { result ≡ (node_of servers.now.world server).halted }
{
    servers.node(server).halted()
}

// A read was not looked for yet, or its time is over, or its index is above the one given.
fn is_read_due<K: Keeper>(
    servers: &Servers<K>,
    server: u32,
    query: &Query,
    least: u64,
    deadline: u64,
    looked: bool,
) -> bool
    requires { IsNumber server servers.now.world }
    ensures { result ≡ is_read_due servers.now server deadline looked query.now least }
{
    !looked || (deadline <= servers.clock(server) || least < servers.index(server, query))
}

// A read is to be looked for, or an execution, which waits for nothing.
fn is_look_due<K: Keeper>(
    servers: &Servers<K>,
    server: u32,
    asked: &Asked,
    deadline: u64,
    looked: bool,
) -> bool
    requires { IsNumber server servers.now.world }
    ensures { result ≡ is_look_due servers.now server deadline looked asked.now }
{
    match asked {
        Asked::Good(Request::Read { query, min, .. }) => {
            is_read_due(servers, server, query, *min, deadline, looked)
        }
        Asked::Good(Request::Execute { .. }) => true,
        _ => false,
    }
}

// What the request waits for has come, at a server that runs.
fn is_stand_due<K: Keeper>(servers: &Servers<K>, server: u32, asked: &Asked, stand: Stand) -> bool
    requires { IsNumber server servers.now.world }
    ensures { result ≡ is_stand_due servers.now server asked.now (stand_of stand) }
{
    match stand {
        Stand::Ended { .. } => true,
        Stand::AtPlace { index, .. } => index <= servers.applied(server),
        Stand::InRound { round, .. } => round.term < servers.node(server).term(),
        Stand::ForIndex { deadline, looked } => {
            is_look_due(servers, server, asked, deadline, looked)
        }
    }
}

// Something of the held request is due at the server.
fn is_early<K: Keeper>(servers: &Servers<K>, server: u32, held: &Pending) -> bool
    requires { IsNumber server servers.now.world }
    ensures { result ≡ is_early servers.now server held.now }
{
    held.server() == server
        && (is_halted(servers, server)
            || is_stand_due(servers, server, held.question().asked(), held.stand()))
}

// The same of the held request with this number, if there is one.
fn is_number_early<K: Keeper>(
    servers: &Servers<K>,
    requests: &Requests,
    server: u32,
    number: u64,
) -> bool
    requires { IsNumber server servers.now.world }
    ensures { result ≡ is_number_early servers.now requests.now.held server number }
{
    match requests.pending(number) {
        Some(held) => is_early(servers, server, held),
        None => false,
    }
}

// The first of these numbers.
fn early_awake<K: Keeper>(
    servers: &Servers<K>,
    requests: &Requests,
    server: u32,
    numbers: &[u64],
) -> Option<u64>
    requires { IsNumber server servers.now.world }
    ensures { result ≡ find (is_number_early servers.now requests.now.held server) numbers.now }
{
    numbers.iter().copied().find(|number| is_number_early(servers, requests, server, *number))
}

// Whether the slot holds a request that is early at the server.
fn is_slot_early<K: Keeper>(servers: &Servers<K>, server: u32, slot: &HeldSlot) -> bool
    requires { IsNumber server servers.now.world }
    ensures { result ≡ test_held (is_early servers.now server) (pending_of slot.now) }
{
    match slot.pending() {
        Some(held) => is_early(servers, server, held),
        None => false,
    }
}

// The first slot of such a request.
fn first_early_slot<'a, K: Keeper>(
    servers: &Servers<K>,
    server: u32,
    slots: &'a [HeldSlot],
) -> Option<&'a HeldSlot>
    requires { IsNumber server servers.now.world }
    ensures { option_copied result ≡ find (λ s. test_held (is_early servers.now server) (pending_of s)) slots.now }
{
    slots.iter().find(|s| is_slot_early(servers, server, s))
}

// The first of the held requests in these slots.
fn first_early<'a, K: Keeper>(
    servers: &Servers<K>,
    server: u32,
    slots: &'a [HeldSlot],
) -> Option<&'a Pending>
    requires { IsNumber server servers.now.world }
    ensures { option_copied result ≡ find (is_early servers.now server) (held_in slots.now) }
{
    match first_early_slot(servers, server, slots) {
        Some(slot) => slot.pending(),
        None => None,
    }
}

// The number of the first of all that are held.
fn early_held<K: Keeper>(servers: &Servers<K>, requests: &Requests, server: u32) -> Option<u64>
    requires server { IsNumber server servers.now.world }
    requires ascends { Ascends requests.now.held }
    ensures some { IfSome result (λ number. is_number_early servers.now requests.now.held server number ≡ true) }
    ensures none { IfNone result (Each (λ h. is_early servers.now server h ≡ false) requests.now.held) }
{
    match first_early(servers, server, requests.held()) {
        Some(held) => Some(held.number()),
        None => None,
    }
}

/// The number of a held request of which something is due at the server. Those that are not awake are not looked at,
/// unless memory ran out.
pub(crate) fn early_number<K: Keeper>(
    servers: &Servers<K>,
    requests: &Requests,
    watch: &Watching,
    server: u32,
) -> Option<u64>
    requires server { IsNumber server servers.now.world }
    requires stands { Stands watch.now servers.now.world servers.now.servers requests.now }
    requires awake { OnlyAwakeIsDue watch.now servers.now server requests.now.held }
    ensures some { IfSome result (λ number. is_number_early servers.now requests.now.held server number ≡ true) }
    ensures none { IfNone result (Each (λ h. is_early servers.now server h ≡ false) requests.now.held) }
{
    if !watch.covers(requests.asked()) {
        return early_held(servers, requests, server);
    }
    early_awake(servers, requests, server, watch.awake())
}
