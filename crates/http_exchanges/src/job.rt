//! A connection's job.

ghost use Rattle.std.specs.Prelude.{◌≡◌, ◌⊎◌, ◌<◌, ◌≤◌, ℕ, List, [], false, true, None};
ghost use Rattle.std.specs.Arc.{arc_value};
ghost use Rattle.http_wire.specs.State.{Told};
ghost use Rattle.http_exchanges.specs.declared.cluster.Ask.{Ask as SpecAsk};
ghost use Rattle.http_exchanges.specs.Boards.{IsOurs, known};
ghost use Rattle.http_exchanges.specs.declared.cause.Cause.TheVariants as cause_of;
ghost use Rattle.http_exchanges.specs.Jobs.{connection_of};
ghost use Rattle.http_exchanges.specs.Knowing.{HasLearned, known_by};
ghost use Rattle.http_exchanges.specs.Serving.{EndsBy, is_short};
ghost use Rattle.http_exchanges.specs.Waiting.{Grows, IsHeld};

use crate::cause::Cause;
use crate::cluster::SharedCluster;
use crate::served::Served;
use crate::service::{Board, Service, Serving};
use cat_model::{Draw, Memory};
use http_routes::Routes;
use http_wire::RequestReader;
use serve_outside::{Clock, Gate, Job, Link};
use stale_view::Viewer;
use std::alloc::Global;
use std::snapshot::Snapshot;
use std::sync::{Arc, Wait};
use turn_lock::{History, Pass};

/// A connection that is to be served, from its first byte on.
#[derive(Drop)]
pub struct ServeJob<R, S: History, Cl, G, L, V> {
    pub rt: R,
    pub alloc: Global,
    pub board: Arc<Board<S>, Global>,
    pub clock: Cl,
    pub gate: Arc<G, Global>,
    pub routes: Arc<Routes, Global>,
    /// The agent that is asked for it, the first one 1.
    pub agent: u32,
    /// The words from which those of its requests are drawn.
    pub draw: Draw,
    pub link: L,
    pub reader: RequestReader,
    pub pass: Pass<S>,
    /// What its stale reads are answered by.
    pub viewer: V,
}

/// A connection that has ended, and is shut.
#[derive(Drop)]
pub struct Finished<L, S: History, V> {
    pub link: L,
    pub pass: Pass<S>,
    /// Its viewer at the end.
    pub viewer: V,
    /// How many replies were written whole.
    pub requests: u64,
    pub cause: Cause,
}

// Takes a last turn, in which the viewer reads all that is agreed. Where memory runs out, the connection ends for that.
fn look_once_more<R: Wait, C: SharedCluster, Cl, G, L>(
    service: &Service<R, Served<C>, Cl, G, L, Viewer<C::Pair>>,
    pass: &mut Pass<Served<C>>,
    viewer: &mut Viewer<C::Pair>,
    cause: Cause,
) -> Cause
    requires ours { IsOurs (arc_value service.now.board) pass.old }
    ensures ours { IsOurs (arc_value service.now.board) pass.new }
    ensures grown { Grows (known_by pass.old viewer.old) (known_by pass.new viewer.new) }
    ensures opened { (known pass.new).mine ≡ (known pass.old).mine }
    ensures held { (ask : SpecAsk) (mine : List ℕ) → IsHeld ask mine (known_by pass.old viewer.old) → IsHeld ask mine (known_by pass.new viewer.new) }
    ensures cause { (result ≡ cause) ⊎ (result ≡ cause_of.Memory) }
    ensures learned { is_short result ≡ false → HasLearned C.agrees (known_by pass.new viewer.new) }
{
    if cause.is_short() {
        return cause;
    }
    let lock = &**service.board;
    let mut turn = lock.take(&service.rt, pass);
    let shown = turn.state().show(viewer);
    lock.give(turn, pass);
    match shown {
        Ok(()) => cause,
        Err(Memory) => Cause::Memory,
    }
}

// Shuts a connection that has ended.
fn end_serving<R: Wait, C: SharedCluster, Cl, G, L: Link>(
    service: &Service<R, Served<C>, Cl, G, L, Viewer<C::Pair>>,
    serving: Serving<L, Served<C>, Viewer<C::Pair>>,
    cause: Cause,
) -> Finished<L, Served<C>, Viewer<C::Pair>>
    requires ours { IsOurs (arc_value service.now.board) serving.pass }
    ensures ours { IsOurs (arc_value service.now.board) result.pass }
    ensures link { L.state result.link ≡ record (L.state serving.link) { shut = true } }
    ensures requests { result.requests ≡ serving.requests }
    ensures grown { Grows (known_by serving.pass serving.viewer) (known_by result.pass result.viewer) }
    ensures opened { (known result.pass).mine ≡ (known serving.pass).mine }
    ensures held { (ask : SpecAsk) (mine : List ℕ) → IsHeld ask mine (known_by serving.pass serving.viewer) → IsHeld ask mine (known_by result.pass result.viewer) }
    ensures cause { (result.cause ≡ cause) ⊎ (result.cause ≡ cause_of.Memory) }
    ensures learned { is_short result.cause ≡ false → HasLearned C.agrees (known_by result.pass result.viewer) }
{
    let Serving {
        mut link,
        reader: _,
        mut pass,
        mut viewer,
        requests,
    } = serving;
    link.shut();
    let cause = look_once_more(service, &mut pass, &mut viewer, cause);
    Finished {
        link,
        pass,
        viewer,
        requests,
        cause,
    }
}

/// Serves a connection to its end, and shuts it: each request is asked and answered before the next one is read. Behind the
/// last one its viewer reads once more what is agreed, so that what is handed back tells that all it has read is of that.
pub fn serve_connection<
    R: Wait + Drop,
    C: SharedCluster,
    Cl: Clock + Drop,
    G: Gate + Drop,
    L: Link,
>(job: ServeJob<R, Served<C>, Cl, G, L, Viewer<C::Pair>>) -> Finished<L, Served<C>, Viewer<C::Pair>>
    requires ours { IsOurs (arc_value job.board) job.pass }
    requires agent { (0 < job.agent) × (job.agent ≤ C.agents) }
    requires fresh { (job.reader.stop ≡ None) × Told [] [] job.reader.held job.reader.stop }
    requires unshut { (L.state job.link).shut ≡ false }
    ensures ours { IsOurs (arc_value job.board) result.pass }
    ensures ends { EndsBy C.shows C.agrees (connection_of L.state job) result.cause (L.state result.link) (known_by result.pass result.viewer) result.requests }
    ensures shut { (L.state result.link).shut ≡ true }
    ensures learned { is_short result.cause ≡ false → HasLearned C.agrees (known_by result.pass result.viewer) }
{
    let ServeJob {
        rt,
        alloc,
        board,
        clock,
        gate,
        routes,
        agent,
        draw,
        link,
        reader,
        pass,
        viewer,
    } = job;
    let service = Service {
        rt,
        alloc,
        board,
        clock,
        gate,
        routes,
        agent,
        draw,
        first: Snapshot::of(&link),
        begun: Snapshot::of(&pass),
        read: Snapshot::of(&viewer),
    };
    let mut serving = Serving {
        link,
        reader,
        pass,
        viewer,
        requests: 0,
    };
    let cause = serving.serve(&service);
    end_serving(&service, serving, cause)
}

impl<R: Wait + Drop, C: SharedCluster, Cl: Clock + Drop, G: Gate + Drop, L: Link> Job
    for ServeJob<R, Served<C>, Cl, G, L, Viewer<C::Pair>> {
    ghost use Rattle.std.specs.Arc.{arc_value};
    ghost use Rattle.http_wire.specs.State.{Told};
    ghost use Rattle.http_exchanges.specs.Boards.{IsOurs};
    ghost use Rattle.http_exchanges.specs.Jobs.{HasEnded};

    type Done = Finished<L, Served<C>, Viewer<C::Pair>>;

    ghost ready = { λ job. IsOurs (arc_value job.board) job.pass
        × ((0 < job.agent) × (job.agent ≤ C.agents))
        × ((job.reader.stop ≡ None) × Told [] [] job.reader.held job.reader.stop)
        × ((L.state job.link).shut ≡ false) };

    ghost keeps = { λ job done. HasEnded C.shows C.agrees L.state job done };

    fn run(self) -> Finished<L, Served<C>, Viewer<C::Pair>> {
        serve_connection(self)
    }
}
