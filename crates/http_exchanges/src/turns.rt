//! A connection's request, from its asking to its reply.

ghost use Rattle.std.specs.Prelude.{◌≡◌, ◌++◌, ◌∷◌, [], IfErr, IfOk, MatchResult, OnOk};
ghost use Rattle.serve_outside.specs.Links.{Leaves};
ghost use Rattle.turn_lock.specs.Lists.{Among};
ghost use Rattle.turn_lock.specs.Passes.{IsFree, IsSame};
ghost use Rattle.http_exchanges.specs.declared.cluster.Ask.{Ask as SpecAsk};
ghost use Rattle.http_exchanges.specs.declared.turns.NoReply.TheVariants as no_reply;
ghost use Rattle.http_exchanges.specs.Boards.{known};
ghost use Rattle.http_exchanges.specs.Knowing.{HasLearned, known_by};
ghost use Rattle.http_exchanges.specs.Turns.{MayAsk};
ghost use Rattle.http_exchanges.specs.Waiting.{Grows, IsAfterAsk, IsAnswered, IsBehind, IsHeld, OpensFew, Stands, Waits};

use crate::cluster::{Ask, Collected, SharedCluster};
use crate::patience::{Patience, patience_of};
use crate::served::{NOBODY, Served, Turned};
use cat_model::Memory;
use cluster_requests::Reply;
use serve_outside::{Clock, Gate, Link};
use stale_view::Viewer;
use std::alloc::Global;
use std::sync::Wait;
use turn_lock::{HistoryLock, Pass};

/// The first turn of a request. Behind it the viewer has read all that is agreed by then.
pub(crate) fn first_turn<R: Wait, C: SharedCluster, G: Gate>(
    rt: &R,
    alloc: Global,
    lock: &HistoryLock<Served<C>>,
    pass: &mut Pass<Served<C>>,
    viewer: &mut Viewer<C::Pair>,
    now: u64,
    gate: &G,
    ask: Ask,
) -> Result<Turned, Memory>
    requires own { pass.old.seat.table_id ≡ lock.now.table.shared.table_id }
    requires free { IsFree pass.old.seat }
    requires may { MayAsk C.agents ask }
    ensures own { IsSame pass.old.seat pass.new.seat }
    ensures free { IsFree pass.new.seat }
    ensures grown { Grows (known_by pass.old viewer.old) (known_by pass.new viewer.new) }
    ensures opened { MatchResult result
        (λ t. (known pass.new).mine ≡ (known pass.old).mine ++ t.number ∷ [])
        (λ _. OpensFew (known pass.old).mine (known pass.new).mine) }
    ensures behind { IfOk result (λ t. IsBehind t.number ask (known pass.old).seen (known pass.new).seen) }
    ensures stands { IfOk result (λ t. Stands C.shows t.number ask t.got (known_by pass.new viewer.new)) }
    ensures learned { OnOk result (HasLearned C.agrees (known_by pass.new viewer.new)) }
{
    let mut turn = lock.take(rt, pass);
    let turned = turn
        .state()
        .turn(alloc, now, gate, Some(ask), NOBODY, viewer);
    lock.give(turn, pass);
    turned
}

/// A later turn of a request that waits.
pub(crate) fn next_turn<R: Wait, C: SharedCluster, G: Gate>(
    rt: &R,
    alloc: Global,
    lock: &HistoryLock<Served<C>>,
    pass: &mut Pass<Served<C>>,
    viewer: &mut Viewer<C::Pair>,
    now: u64,
    gate: &G,
    number: u64,
) -> Result<Turned, Memory>
    requires own { pass.old.seat.table_id ≡ lock.now.table.shared.table_id }
    requires free { IsFree pass.old.seat }
    requires mine { Among number (known pass.old).mine }
    ensures own { IsSame pass.old.seat pass.new.seat }
    ensures free { IsFree pass.new.seat }
    ensures grown { Grows (known_by pass.old viewer.old) (known_by pass.new viewer.new) }
    ensures opened { (known pass.new).mine ≡ (known pass.old).mine }
    ensures number { IfOk result (λ t. t.number ≡ number) }
    ensures stands { IfOk result (λ t. (ask : SpecAsk) → Waits number ask (known pass.old).seen (known pass.old).mine → Stands C.shows t.number ask t.got (known_by pass.new viewer.new)) }
    ensures learned { OnOk result (HasLearned C.agrees (known_by pass.new viewer.new)) }
{
    let mut turn = lock.take(rt, pass);
    let turned = turn.state().turn(alloc, now, gate, None, number, viewer);
    lock.give(turn, pass);
    turned
}

/// Why a request has no reply.
#[derive(Clone, Copy, Debug, PartialEq, Eq)]
pub(crate) enum NoReply {
    /// There was no memory.
    Memory,
    /// Its client went away.
    Left,
}

// A request that waits: its number, how often it had been woken, and until when it waits for that.
#[derive(Clone, Copy)]
struct Held {
    number: u64,
    rings: u64,
    patience: Patience,
}

// Whether the reply may be there, or the request is to look for it again.
fn may_look<Cl: Clock, G: Gate>(clock: &Cl, gate: &G, held: &Held) -> bool {
    gate.rings(held.number) != held.rings || held.patience.is_over(clock.now_ms())
}

// Waits until the reply may be there or the client has gone, and says whether it has. Every few seconds it asks the link.
fn waits_in_vain<R: Wait, Cl: Clock, G: Gate, L: Link>(
    rt: &R,
    clock: &Cl,
    gate: &G,
    link: &mut L,
    held: &Held,
) -> bool
    ensures { Leaves (L.state link.old) result (L.state link.new) }
{
    for _ in rt.forever() {
        gate.idle(held.number, held.rings, held.patience.left(clock.now_ms()));
        if may_look(clock, gate, held) {
            return false;
        }
        if link.has_gone() {
            return true;
        }
    }
    unreachable!()
}

/// Asks, and waits until the reply is there or the client has gone.
pub(crate) fn ask_and_wait<R: Wait, C: SharedCluster, Cl: Clock, G: Gate, L: Link>(
    rt: &R,
    alloc: Global,
    lock: &HistoryLock<Served<C>>,
    pass: &mut Pass<Served<C>>,
    viewer: &mut Viewer<C::Pair>,
    clock: &Cl,
    gate: &G,
    link: &mut L,
    ask: Ask,
) -> Result<Reply, NoReply>
    requires own { pass.old.seat.table_id ≡ lock.now.table.shared.table_id }
    requires free { IsFree pass.old.seat }
    requires may { MayAsk C.agents ask }
    ensures own { IsSame pass.old.seat pass.new.seat }
    ensures free { IsFree pass.new.seat }
    ensures grown { Grows (known_by pass.old viewer.old) (known_by pass.new viewer.new) }
    ensures link { IsAfterAsk result (L.state link.old) (L.state link.new) }
    ensures opened { MatchResult result
        (λ reply. (known pass.new).mine ≡ (known pass.old).mine ++ reply.number ∷ [])
        (λ _. OpensFew (known pass.old).mine (known pass.new).mine) }
    ensures behind { IfOk result (λ reply. IsBehind reply.number ask (known pass.old).seen (known pass.new).seen) }
    ensures answered { IfOk result (λ reply. IsAnswered C.shows ask reply (known pass.new).seen (known pass.new).mine) }
    ensures learned { OnOk result (HasLearned C.agrees (known_by pass.new viewer.new)) }
    ensures left { IfErr result (λ why. why ≡ no_reply.Left → IsHeld ask (known pass.old).mine (known_by pass.new viewer.new)) }
{
    let now = clock.now_ms();
    let patience = patience_of(&ask, now);
    match first_turn(rt, alloc, lock, pass, viewer, now, gate, ask) {
        Ok(turned) => wait_for(
            rt, alloc, lock, pass, viewer, clock, gate, link, patience, turned,
        ),
        Err(Memory) => Err(NoReply::Memory),
    }
}

// Looks whenever its answer may have come, until the reply is there or the client has gone.
fn wait_for<R: Wait, C: SharedCluster, Cl: Clock, G: Gate, L: Link>(
    rt: &R,
    alloc: Global,
    lock: &HistoryLock<Served<C>>,
    pass: &mut Pass<Served<C>>,
    viewer: &mut Viewer<C::Pair>,
    clock: &Cl,
    gate: &G,
    link: &mut L,
    patience: Patience,
    turned: Turned,
) -> Result<Reply, NoReply>
    requires own { pass.old.seat.table_id ≡ lock.now.table.shared.table_id }
    requires free { IsFree pass.old.seat }
    requires stands { (ask : SpecAsk) × Stands C.shows turned.number ask turned.got (known_by pass.old viewer.old) }
    requires learned { HasLearned C.agrees (known_by pass.old viewer.old) }
    ensures own { IsSame pass.old.seat pass.new.seat }
    ensures free { IsFree pass.new.seat }
    ensures grown { Grows (known_by pass.old viewer.old) (known_by pass.new viewer.new) }
    ensures link { IsAfterAsk result (L.state link.old) (L.state link.new) }
    ensures opened { (known pass.new).mine ≡ (known pass.old).mine }
    ensures number { IfOk result (λ reply. reply.number ≡ turned.number) }
    ensures answered { IfOk result (λ reply. (ask : SpecAsk) → Stands C.shows turned.number ask turned.got (known_by pass.old viewer.old)
        → IsAnswered C.shows ask reply (known pass.new).seen (known pass.new).mine) }
    ensures learned { OnOk result (HasLearned C.agrees (known_by pass.new viewer.new)) }
    ensures left { IfErr result (λ why. why ≡ no_reply.Left → (ask : SpecAsk) → Stands C.shows turned.number ask turned.got (known_by pass.old viewer.old) → Waits turned.number ask (known pass.new).seen (known pass.new).mine) }
{
    let Turned {
        mut number,
        mut got,
        mut rings,
    } = turned;
    for _ in rt.forever() {
        match got {
            Collected::Ready(reply) => return Ok(reply),
            Collected::NotYet => {}
            Collected::Gone => unreachable!(),
        }
        let held = Held {
            number,
            rings,
            patience,
        };
        if waits_in_vain(rt, clock, gate, link, &held) {
            return Err(NoReply::Left);
        }
        match next_turn(rt, alloc, lock, pass, viewer, clock.now_ms(), gate, number) {
            Ok(turned) => {
                number = turned.number;
                got = turned.got;
                rings = turned.rings;
            }
            Err(Memory) => return Err(NoReply::Memory),
        }
    }
    unreachable!()
}
