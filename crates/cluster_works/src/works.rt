//! Doing what is due at a server.

ghost use Rattle.std.specs.Prelude.{◌≡◌, [], OnErr, OnOk, List};
ghost use Rattle.raft_model.specs.Log.{Log};
ghost use Rattle.raft_model.specs.World.{World};
ghost use Rattle.raft_world.specs.Steps.{IsNumber};
ghost use Rattle.read_watch.specs.Watch.{IsServer};
ghost use Rattle.cluster_rules.specs.Cluster.{Server};
ghost use Rattle.cluster_rules.specs.Due as rules;
ghost use Rattle.cluster_rules.specs.Due.{IsDue, answered, applies};
ghost use Rattle.cluster_rules.specs.Replies.{Question, shown};
ghost use Rattle.cluster_requests.specs.Contents.{content_of};
ghost use Rattle.cluster_requests.specs.Requests.{cluster_of};
ghost use Rattle.cluster_works.specs.Looking.{applied_at};
ghost use Rattle.cluster_works.specs.Standing.{Stands};
ghost use Rattle.cluster_works.specs.Working.{DidWork, IsWork, closed, whole};

use crate::contact::{knows_leader, last_contact};
use crate::watch::Watching;
use crate::work::Work;
use cat_model::{Kind, Memory};
use cluster_replicas::Servers;
use cluster_requests::{Content, Requests};
use outside::Keeper;
use std::alloc::Global;

// Answers a held request.
fn answer(
    requests: &mut Requests,
    watch: &mut Watching,
    server: u32,
    number: u64,
    kind: Kind,
    known: bool,
    contact: u64,
    content: Content,
) -> Result<(), Memory>
    requires { IsServer server watch.old.watch }
    ensures stands { (w : World) (servers : List Server) → Stands watch.old w servers requests.old → Stands watch.new w servers requests.new }
    ensures done { OnOk result ((w : World) (servers : List Server) (log : Log) (q : Question) → number ≡ q.number → content_of content ≡ shown q kind log → cluster_of w servers [] requests.new ≡ answered q kind known contact log (cluster_of w servers [] requests.old)) }
    ensures same { OnErr result (requests.new ≡ requests.old) }
{
    requests.answer(number, kind, known, contact, content)?;
    watch.forget(server, number);
    Ok(())
}

// Closes a held request.
fn close(
    requests: &mut Requests,
    watch: &mut Watching,
    server: u32,
    number: u64,
    event: u64,
) -> Result<(), Memory>
    requires { IsServer server watch.old.watch }
    ensures stands { (w : World) (servers : List Server) → Stands watch.old w servers requests.old → Stands watch.new w servers requests.new }
    ensures done { OnOk result ((w : World) (servers : List Server) → cluster_of w servers [] requests.new ≡ closed number event (cluster_of w servers [] requests.old)) }
    ensures same { OnErr result (requests.new ≡ requests.old) }
{
    requests.close(number, event)?;
    watch.forget(server, number);
    Ok(())
}

// Applies the next position, and wakes those whose answers it may change.
fn apply_next<K: Keeper>(
    servers: &mut Servers<K>,
    requests: &Requests,
    watch: &mut Watching,
    alloc: Global,
    server: u32,
) -> Result<(), Memory>
    requires server { IsNumber server servers.old.world }
    requires stands { Stands watch.old servers.old.world servers.old.servers requests.now }
    requires next { IsDue server (whole servers.old requests.now) rules.Applies }
    ensures stands { Stands watch.new servers.new.world servers.new.servers requests.now }
    ensures done { OnOk result (whole servers.new requests.now ≡ applies server (whole servers.old requests.now)) }
    ensures same { OnErr result (servers.new ≡ servers.old) }
{
    // The contract names the requests, which this call leaves as they are.
    let _ = requests;
    let fired = servers.apply(alloc, server)?;
    watch.fire(alloc, server, &fired);
    Ok(())
}

/// Does what is due at a server.
pub(crate) fn perform<K: Keeper>(
    servers: &mut Servers<K>,
    requests: &mut Requests,
    watch: &mut Watching,
    alloc: Global,
    server: u32,
    work: Work,
) -> Result<(), Memory>
    requires server { IsNumber server servers.old.world }
    requires stands { Stands watch.old servers.old.world servers.old.servers requests.old }
    requires due { (w : rules.Work) × IsDue server (whole servers.old requests.old) w × IsWork (applied_at servers.old server) work w }
    ensures stands { Stands watch.new servers.new.world servers.new.servers requests.new }
    ensures done { OnOk result (DidWork server work (whole servers.old requests.old) (whole servers.new requests.new)) }
    ensures servers { OnErr result (servers.new ≡ servers.old) }
    ensures requests { OnErr result (requests.new ≡ requests.old) }
{
    match work {
        Work::Answer {
            number,
            kind,
            content,
        } => {
            let known = knows_leader(servers, server, &kind);
            let contact = last_contact(servers, server, &kind);
            answer(
                requests, watch, server, number, kind, known, contact, content,
            )
        }
        Work::Hold { number, stand } => {
            requests.restand(number, stand);
            // It waits no more for what it may be in line for.
            watch.wake(number);
            Ok(())
        }
        Work::Close { number, event } => close(requests, watch, server, number, event),
        Work::Apply => apply_next(servers, requests, watch, alloc, server),
    }
}
