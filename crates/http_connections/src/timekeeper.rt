//! The job that lets the clocks go on while nobody asks.

ghost use Rattle.std.specs.Prelude.{◌≡◌, ◌+◌, ◌≤◌, [], IfOk, IfSome, List, MatchOption, MatchResult};
ghost use Rattle.std.specs.Arc.{arc_value};
ghost use Rattle.cat_model.specs.declared.reply.Mark.{Mark as SpecMark};
ghost use Rattle.cluster_rules.specs.Sound.{IsAmong};
ghost use Rattle.serve_outside.specs.Tasks.{IsKept, note_of};
ghost use Rattle.turn_lock.specs.Rule.{all_shares};
ghost use Rattle.http_exchanges.specs.Boards.{IsOurs, known};

use crate::run::{Server, give_back};
use cat_model::Memory;
use http_exchanges::{Board, NOBODY, Served, SharedCluster};
use http_routes::routes_cross;
use serve_outside::{Clock, Gate, Job, NoteOf, Spawner, Task, finish, start_beside};
use stale_view::{Viewer, parts_cross};
use std::alloc::Global;
use std::sync::atomic::{AtomicBool, Ordering};
use std::sync::{Arc, Wait};
use std::thread::{Promise, Threads};
use turn_lock::{History, NoShare, Pass};

/// How many milliseconds pass at most between two turns of the timekeeper.
const MOST_MS: u64 = 1_000;

/// Lets the clocks go on, at least once a second, until it is told to stop. It asks nothing.
#[derive(Drop)]
pub struct Timekeeper<R, S: History, Cl, G, V> {
    pub server: Server<R, S, Cl, G, V>,
    /// Whether it is to stop.
    pub stop: Arc<AtomicBool, Global>,
    pub pass: Pass<S>,
}

// A timekeeper's task.
type KeeperTask<R, C, Cl, G> = Task<
    NoteOf<Timekeeper<R, Served<C>, Cl, G, Viewer<<C as SharedCluster>::Pair>>>,
    Pass<Served<C>>,
>;

/// A timekeeper that was started, and what tells it to stop.
#[derive(Drop)]
pub(crate) struct Keeping<T> {
    stop: Arc<AtomicBool, Global>,
    task: T,
}

// Takes a turn in which the clocks go on. What finds no memory is done in a later turn.
fn keep_time<R: Wait, C: SharedCluster, G: Gate>(
    rt: &R,
    alloc: Global,
    board: &Board<Served<C>>,
    pass: &mut Pass<Served<C>>,
    viewer: &mut Viewer<C::Pair>,
    now: u64,
    gate: &G,
)
    requires ours { IsOurs board.now pass.old }
    ensures ours { IsOurs board.now pass.new }
    ensures asks_none { ((known pass.new).mine ≡ (known pass.old).mine) × (pass.new.shares ≡ pass.old.shares) }
{
    let lock = &**board;
    let mut turn = lock.take(rt, pass);
    let _ = turn.state().keep_time(alloc, now, gate, viewer);
    lock.give(turn, pass);
}

/// Lets the clocks of a cluster go on until the timekeeper is told to stop, and gives its pass back, by which no request
/// was asked.
pub fn keep_clocks<R: Wait + Drop, C: SharedCluster, Cl: Clock + Drop, G: Gate + Drop>(
    keeper: Timekeeper<R, Served<C>, Cl, G, Viewer<C::Pair>>,
) -> Pass<Served<C>>
    requires ours { IsOurs (arc_value keeper.server.board) keeper.pass }
    ensures ours { IsOurs (arc_value keeper.server.board) result }
    ensures asks_none { ((known result).mine ≡ (known keeper.pass).mine) × (result.shares ≡ keeper.pass.shares) }
{
    let Timekeeper {
        server,
        stop,
        mut pass,
    } = keeper;
    let Server {
        rt,
        alloc,
        board,
        clock,
        gate,
        routes: _,
        agents: _,
        mut viewer,
    } = server;
    for _ in rt.forever() {
        let rings = gate.rings(NOBODY);
        if stop.load(Ordering::SeqCst) {
            break;
        }
        gate.idle(NOBODY, rings, MOST_MS);
        let now = clock.now_ms();
        keep_time(&rt, alloc, &*board, &mut pass, &mut viewer, now, &*gate);
    }
    pass
}

impl<R: Wait + Drop, C: SharedCluster, Cl: Clock + Drop, G: Gate + Drop> Job
    for Timekeeper<R, Served<C>, Cl, G, Viewer<C::Pair>> {
    ghost use Rattle.std.specs.Arc.{arc_value};
    ghost use Rattle.http_exchanges.specs.Boards.{IsOurs, known};

    type Done = Pass<Served<C>>;

    ghost ready = { λ keeper. IsOurs (arc_value keeper.server.board) keeper.pass };

    ghost keeps = { λ keeper pass. IsOurs (arc_value keeper.server.board) pass × ((known pass).mine ≡ (known keeper.pass).mine) × (pass.shares ≡ keeper.pass.shares) };

    fn run(self) -> Pass<Served<C>> {
        keep_clocks(self)
    }
}

// The same server once more.
fn shared<R: Copy, C: SharedCluster, Cl: Copy, G>(
    server: &Server<R, Served<C>, Cl, G, Viewer<C::Pair>>,
) -> Result<Server<R, Served<C>, Cl, G, Viewer<C::Pair>>, Memory>
    ensures { IfOk result (λ s. arc_value s.board ≡ arc_value server.now.board) }
{
    let viewer = server.viewer.split()?;
    let board = Arc::try_clone(&server.board)?;
    let routes = Arc::try_clone(&server.routes)?;
    let gate = Arc::try_clone(&server.gate)?;
    Ok(Server {
        rt: server.rt,
        alloc: server.alloc,
        board,
        clock: server.clock,
        gate,
        routes,
        agents: server.agents,
        viewer,
    })
}

// A timekeeper, and what tells it to stop.
fn make_timekeeper<R: Copy + Drop, C: SharedCluster, Cl: Copy + Drop, G: Drop>(
    server: &Server<R, Served<C>, Cl, G, Viewer<C::Pair>>,
    pass: &mut Pass<Served<C>>,
) -> Result<
    (
        Timekeeper<R, Served<C>, Cl, G, Viewer<C::Pair>>,
        Arc<AtomicBool, Global>,
    ),
    Memory,
>
    requires ours { IsOurs (arc_value server.now.board) pass.old }
    ensures ours { IsOurs (arc_value server.now.board) pass.new }
    ensures same { (known pass.new).mine ≡ (known pass.old).mine }
    ensures shares { MatchResult result (λ r. pass.new.shares + r.0.pass.shares ≡ pass.old.shares) (λ _. pass.new.shares ≡ pass.old.shares) }
    ensures board { IfOk result (λ r. arc_value r.0.server.board ≡ arc_value server.now.board) }
    ensures pass { IfOk result (λ r. IsOurs (arc_value server.now.board) r.0.pass × ((known r.0.pass).mine ≡ [])) }
{
    let own = shared(server)?;
    let stop = Arc::new(server.alloc, AtomicBool::new(false))?;
    let told = Arc::try_clone(&stop)?;
    let lock = &**server.board;
    match lock.split(pass) {
        Ok(theirs) => Ok((
            Timekeeper {
                server: own,
                stop: told,
                pass: theirs,
            },
            stop,
        )),
        Err(NoShare) => Err(Memory),
    }
}

/// Starts a timekeeper, where there is memory for it.
pub(crate) fn start_timekeeper<
    R: Threads + Wait + Copy + Send + Drop + 'static,
    C: SharedCluster + Send + 'static,
    Cl: Clock + Copy + Send + Drop + 'static,
    G: Gate + Send + Sync + Drop + 'static,
    Sp: Spawner,
>(
    server: &Server<R, Served<C>, Cl, G, Viewer<C::Pair>>,
    pass: &mut Pass<Served<C>>,
    spawner: &Sp,
) -> Option<Keeping<KeeperTask<R, C, Cl, G>>>
where
    C::Pair: Send + Sync + 'static,
    requires ours { IsOurs (arc_value server.now.board) pass.old }
    ensures ours { IsOurs (arc_value server.now.board) pass.new }
    ensures kept { IfSome result (λ k. IsKept ⟦<NoteOf<Timekeeper<R, Served<C>, Cl, G, Viewer<C::Pair>>> as Promise<Pass<Served<C>>>>⟧.kept_by k.task) }
    ensures same { (known pass.new).mine ≡ (known pass.old).mine }
    ensures shares { MatchOption result (pass.new.shares ≡ pass.old.shares) (λ k. pass.new.shares + (note_of k.task).0.value.pass.shares ≡ pass.old.shares) }
    ensures unasked { IfSome result (λ k. (known (note_of k.task).0.value.pass).mine ≡ []) }
    ensures board { IfSome result (λ k. arc_value (note_of k.task).0.value.server.board ≡ arc_value server.now.board) }
{
    match make_timekeeper(server, pass) {
        Ok((keeper, stop)) => {
            parts_cross();
            routes_cross();
            let task = start_beside(spawner, &server.rt, keeper, &stop);
            Some(Keeping { stop, task })
        }
        Err(Memory) => None,
    }
}

// Tells a timekeeper to stop, waits for it, and takes its pass back.
fn finish_keeping<R: Threads + Wait + Drop, C: SharedCluster, Cl: Clock + Drop, G: Gate + Drop>(
    server: &Server<R, Served<C>, Cl, G, Viewer<C::Pair>>,
    keeping: Keeping<KeeperTask<R, C, Cl, G>>,
) -> Pass<Served<C>>
    requires kept { IsKept ⟦<NoteOf<Timekeeper<R, Served<C>, Cl, G, Viewer<C::Pair>>> as Promise<Pass<Served<C>>>>⟧.kept_by keeping.task }
    requires board { arc_value (note_of keeping.task).0.value.server.board ≡ arc_value server.now.board }
    ensures ours { IsOurs (arc_value server.now.board) result }
    ensures same { ((known result).mine ≡ (known (note_of keeping.task).0.value.pass).mine) × (result.shares ≡ (note_of keeping.task).0.value.pass.shares) }
{
    let Keeping { stop, task } = keeping;
    stop.store(true, Ordering::SeqCst);
    server.gate.wake(NOBODY);
    finish(&server.rt, task)
}

/// Ends the timekeeper, if there is one, and takes its pass back.
pub(crate) fn finish_timekeeper<
    R: Threads + Wait + Drop,
    C: SharedCluster,
    Cl: Clock + Drop,
    G: Gate + Drop,
>(
    server: &Server<R, Served<C>, Cl, G, Viewer<C::Pair>>,
    pass: &mut Pass<Served<C>>,
    keeping: Option<Keeping<KeeperTask<R, C, Cl, G>>>,
)
    requires ours { IsOurs (arc_value server.now.board) pass.old }
    requires kept { IfSome keeping (λ k. IsKept ⟦<NoteOf<Timekeeper<R, Served<C>, Cl, G, Viewer<C::Pair>>> as Promise<Pass<Served<C>>>>⟧.kept_by k.task) }
    requires board { IfSome keeping (λ k. arc_value (note_of k.task).0.value.server.board ≡ arc_value server.now.board) }
    requires unasked { IfSome keeping (λ k. (known (note_of k.task).0.value.pass).mine ≡ []) }
    requires few { IfSome keeping (λ k. pass.old.shares + (note_of k.task).0.value.pass.shares ≤ all_shares) }
    ensures ours { IsOurs (arc_value server.now.board) pass.new }
    ensures same { (known pass.new).mine ≡ (known pass.old).mine }
    ensures shares { MatchOption keeping (pass.new.shares ≡ pass.old.shares) (λ k. pass.new.shares ≡ pass.old.shares + (note_of k.task).0.value.pass.shares) }
    ensures told { (seen : List SpecMark) → IsAmong seen (known pass.old).told → IsAmong seen (known pass.new).told }
{
    if let Some(keeping) = keeping {
        let own = finish_keeping(server, keeping);
        give_back(server, pass, own);
    }
}
