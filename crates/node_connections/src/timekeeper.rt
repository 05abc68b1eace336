//! The job that does what is due while no frame comes.

ghost use Rattle.std.specs.Prelude.{◌≡◌};
ghost use Rattle.std.specs.Arc.{arc_value};
ghost use Rattle.turn_lock.specs.Lists.{IsFront};
ghost use Rattle.node_connections.specs.Boards.{IsOurs, known};
ghost use Rattle.node_connections.specs.Journals.{IsTold};

use crate::shared::SharedNode;
use crate::turns::keep_time;
use node_service::Dialer;
use outside::Keeper;
use serve_outside::{Clock, Gate, Job, Words};
use std::alloc::Global;
use std::sync::atomic::{AtomicBool, Ordering};
use std::sync::{Arc, Wait};
use turn_lock::{History, HistoryLock, Pass};

/// How many milliseconds pass at most between two turns of a timekeeper, a tenth of the time between heartbeats.
const MOST_MS: u64 = 10;

/// By this number the timekeeper waits at its gate.
const TIMEKEEPER: u64 = 0;

/// Takes turns, in which a node does what is due, until it is told to stop.
#[derive(Drop)]
pub struct Timekeeper<R, S: History, Cl, W, G> {
    pub rt: R,
    pub alloc: Global,
    pub board: Arc<HistoryLock<S>, Global>,
    pub clock: Cl,
    pub words: W,
    pub gate: Arc<G, Global>,
    /// Whether it is to stop.
    pub stop: Arc<AtomicBool, Global>,
    pub pass: Pass<S>,
}

/// Takes such turns until the timekeeper is told to stop, and gives its pass back, by which no frame was handed in.
pub fn keep_turns<
    R: Wait + Drop,
    K: Keeper + Drop,
    D: Dialer,
    Cl: Clock + Drop,
    W: Words + Drop,
    G: Gate + Drop,
>(keeper: Timekeeper<R, SharedNode<K, D>, Cl, W, G>) -> Pass<SharedNode<K, D>>
    requires ours { IsOurs (arc_value keeper.board) keeper.pass }
    requires told { IsTold D.state (known keeper.pass).seen }
    ensures ours { IsOurs (arc_value keeper.board) result }
    ensures told { IsTold D.state (known result).seen }
    ensures grown { IsFront (known keeper.pass).seen (known result).seen }
    ensures opens_none { ((known result).mine ≡ (known keeper.pass).mine) × (result.shares ≡ keeper.pass.shares) }
{
    let Timekeeper {
        rt,
        alloc,
        board,
        clock,
        mut words,
        gate,
        stop,
        mut pass,
    } = keeper;
    for _ in rt.forever() {
        if stop.load(Ordering::SeqCst) {
            break;
        }
        gate.idle(TIMEKEEPER, gate.rings(TIMEKEEPER), MOST_MS);
        let now_ms = clock.now_ms();
        let word = words.draw().lo;
        keep_time(&rt, alloc, &*board, &mut pass, now_ms, word);
    }
    pass
}

impl<
    R: Wait + Drop,
    K: Keeper + Drop,
    D: Dialer,
    Cl: Clock + Drop,
    W: Words + Drop,
    G: Gate + Drop,
> Job for Timekeeper<R, SharedNode<K, D>, Cl, W, G> {
    ghost use Rattle.std.specs.Arc.{arc_value};
    ghost use Rattle.turn_lock.specs.Lists.{IsFront};
    ghost use Rattle.node_connections.specs.Boards.{IsOurs, known};
    ghost use Rattle.node_connections.specs.Journals.{IsTold};

    type Done = Pass<SharedNode<K, D>>;

    ghost ready = { λ keeper. IsOurs (arc_value keeper.board) keeper.pass × IsTold D.state (known keeper.pass).seen };

    ghost keeps = { λ keeper pass. IsOurs (arc_value keeper.board) pass × IsTold D.state (known pass).seen
        × IsFront (known keeper.pass).seen (known pass).seen
        × ((known pass).mine ≡ (known keeper.pass).mine) × (pass.shares ≡ keeper.pass.shares) };

    fn run(self) -> Pass<SharedNode<K, D>> {
        keep_turns(self)
    }
}
