//! A connection's job.

ghost use Rattle.std.specs.Prelude.{◌≡◌, false, true, [], None};
ghost use Rattle.std.specs.Arc.{arc_value};
ghost use Rattle.node_connections.specs.Boards.{IsOurs, known};
ghost use Rattle.node_connections.specs.Jobs.{connection_of};
ghost use Rattle.node_connections.specs.Journals.{IsOf, IsTold};
ghost use Rattle.node_connections.specs.Serving.{EndsBy};

use crate::cause::PeerCause;
use crate::serving::{Service, Serving};
use crate::shared::SharedNode;
use node_service::Dialer;
use outside::Keeper;
use peer_frames::FrameReader;
use serve_outside::{Clock, Job, Link, Words};
use std::alloc::Global;
use std::snapshot::Snapshot;
use std::sync::{Arc, Wait};
use turn_lock::{History, HistoryLock, Pass};

/// A connection with a server or a client that is to be served, from its first byte on.
#[derive(Drop)]
pub struct PeerJob<R, S: History, Cl, W, L> {
    pub rt: R,
    pub alloc: Global,
    pub board: Arc<HistoryLock<S>, Global>,
    pub clock: Cl,
    pub words: W,
    pub link: L,
    pub reader: FrameReader,
    pub pass: Pass<S>,
}

/// A connection that has ended, and is shut.
#[derive(Drop)]
pub struct PeerEnded<S: History, L> {
    pub link: L,
    pub pass: Pass<S>,
    /// How many frames were answered, those that have no answer counted too.
    pub frames: u64,
    pub cause: PeerCause,
}

/// Serves a connection to its end, and shuts it: each frame is handed in and answered before the next one is.
pub fn serve_peer<
    R: Wait + Drop,
    K: Keeper + Drop,
    D: Dialer,
    Cl: Clock + Drop,
    W: Words + Drop,
    L: Link,
>(job: PeerJob<R, SharedNode<K, D>, Cl, W, L>) -> PeerEnded<SharedNode<K, D>, L>
    requires ours { IsOurs (arc_value job.board) job.pass }
    requires told { IsTold D.state (known job.pass).seen }
    requires fresh { job.reader ≡ record { peers = job.reader.peers; passed = 0; held = []; stop = None } }
    requires of { IsOf job.reader.peers (known job.pass).seen }
    requires unshut { (L.state job.link).shut ≡ false }
    ensures ours { IsOurs (arc_value job.board) result.pass }
    ensures told { IsTold D.state (known result.pass).seen }
    ensures ends { EndsBy (connection_of L.state job) result.cause (L.state result.link) (known result.pass) result.frames }
    ensures shut { (L.state result.link).shut ≡ true }
{
    let PeerJob {
        rt,
        alloc,
        board,
        clock,
        words,
        link,
        reader,
        pass,
    } = job;
    let service = Service {
        rt,
        alloc,
        board,
        clock,
        first: Snapshot::of(&link),
        fresh: Snapshot::of(&reader),
        begun: Snapshot::of(&pass),
    };
    let mut serving = Serving {
        words,
        link,
        reader,
        pass,
        frames: 0,
    };
    let cause = serving.serve(&service);
    end_serving(serving, cause)
}

// Shuts a connection that has ended.
fn end_serving<K: Keeper + Drop, D: Dialer, W: Drop, L: Link>(
    serving: Serving<SharedNode<K, D>, W, L>,
    cause: PeerCause,
) -> PeerEnded<SharedNode<K, D>, L>
    ensures pass { result.pass ≡ serving.pass }
    ensures link { L.state result.link ≡ record (L.state serving.link) { shut = true } }
    ensures frames { (result.frames ≡ serving.frames) × (result.cause ≡ cause) }
{
    let Serving {
        words: _,
        mut link,
        reader: _,
        pass,
        frames,
    } = serving;
    link.shut();
    PeerEnded {
        link,
        pass,
        frames,
        cause,
    }
}

impl<R: Wait + Drop, K: Keeper + Drop, D: Dialer, Cl: Clock + Drop, W: Words + Drop, L: Link> Job
    for PeerJob<R, SharedNode<K, D>, Cl, W, L> {
    ghost use Rattle.std.specs.Prelude.{[], None, false};
    ghost use Rattle.std.specs.Arc.{arc_value};
    ghost use Rattle.node_connections.specs.Boards.{IsOurs, known};
    ghost use Rattle.node_connections.specs.Jobs.{HasEnded};
    ghost use Rattle.node_connections.specs.Journals.{IsOf, IsTold};

    type Done = PeerEnded<SharedNode<K, D>, L>;

    ghost ready = { λ job. IsOurs (arc_value job.board) job.pass
        × IsTold D.state (known job.pass).seen
        × (job.reader ≡ record { peers = job.reader.peers; passed = 0; held = []; stop = None })
        × IsOf job.reader.peers (known job.pass).seen
        × ((L.state job.link).shut ≡ false) };

    ghost keeps = { λ job done. HasEnded D.state L.state job done };

    fn run(self) -> PeerEnded<SharedNode<K, D>, L> {
        serve_peer(self)
    }
}
