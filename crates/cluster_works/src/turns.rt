//! One turn of a server's catching up.

ghost use Rattle.std.specs.Prelude.{◌≡◌, ◌≢◌, ◌<◌, List, None, true, IfOk, OnErr};
ghost use Rattle.cluster_rules.specs.Agents.{Agent};
ghost use Rattle.raft_world.specs.Steps.{IsNumber};
ghost use Rattle.cluster_rules.specs.Due.{due};
ghost use Rattle.cluster_rules.specs.Left.{left};
ghost use Rattle.cluster_order.specs.Evaluations.{EvaluatesIn, lacking};
ghost use Rattle.cluster_order.specs.Turns.{Turned};
ghost use Rattle.cluster_requests.specs.Requests.{cluster_of};
ghost use Rattle.cluster_works.specs.Standing.{Stands};
ghost use Rattle.cluster_works.specs.Working.{whole};

use crate::due::find;
use crate::rests::rest;
use crate::watch::Watching;
use crate::works::perform;
use cat_model::{Memory, Steps};
use cluster_replicas::Servers;
use cluster_requests::Requests;
use outside::Keeper;
use std::alloc::Global;
use std::sync::ledger::Ledger;

/// Does something that is due at a server, and says whether there was something. It lacks memory only where there is.
/// `steps` counts the queries of reads that it evaluates.
pub fn turn<K: Keeper + Drop, L: Ledger>(
    servers: &mut Servers<K>,
    requests: &mut Requests,
    watch: &mut Watching,
    alloc: Global,
    server: u32,
    steps: &mut Steps<L>,
) -> Result<bool, Memory>
    requires server { IsNumber server servers.old.world }
    requires stands { Stands watch.old servers.old.world servers.old.servers requests.old }
    ensures stands { Stands watch.new servers.new.world servers.new.servers requests.new }
    ensures turned { (agents : List Agent) → IfOk result (λ was. Turned server was (cluster_of servers.old.world servers.old.servers agents requests.old) (cluster_of servers.new.world servers.new.servers agents requests.new)) }
    ensures left { IfOk result (λ was. was ≡ true → left server (whole servers.new requests.new) < left server (whole servers.old requests.old)) }
    ensures servers { OnErr result (servers.new ≡ servers.old) }
    ensures requests { OnErr result (requests.new ≡ requests.old) }
    ensures behind { OnErr result (due server (whole servers.old requests.old) ≢ None) }
    ensures counted { EvaluatesIn (lacking result) steps.old steps.new (whole servers.old requests.old) (whole servers.new requests.new) }
{
    servers.stays_behind(server);
    match find(servers, requests, watch, alloc, server, steps) {
        Ok(Some(work)) => match perform(servers, requests, watch, alloc, server, work) {
            Ok(()) => Ok(true),
            Err(Memory) => Err(Memory),
        },
        Ok(None) => {
            rest(servers, requests, watch, alloc, server);
            Ok(false)
        }
        Err(Memory) => Err(Memory),
    }
}
