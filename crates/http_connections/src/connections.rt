//! All connections of a run: they are accepted, each is served by a job of its own, and all jobs are waited for.

ghost use Rattle.std.specs.Prelude.{◌≡◌, ◌<◌, [], false, IfErr, OnOk};
ghost use Rattle.std.specs.Arc.{arc_value};
ghost use Rattle.outside.specs.Causes.{Rose};
ghost use Rattle.http_connections.specs.declared.run.Stop.TheVariants as stops;
ghost use Rattle.http_exchanges.specs.Boards.{IsOurs, known};
ghost use Rattle.http_exchanges.specs.Marks.{AreKept, opens};
ghost use Rattle.http_connections.specs.Runs.{HandsBack, HasDrawn, most_of, outcome_of};
ghost use Rattle.turn_lock.specs.Lists.{AreFronts, IsFront, OpensOnly, numbers};
ghost use Rattle.turn_lock.specs.Rule.{all_shares};

use crate::finish::finish_tasks;
use crate::run::{Jobs, Server, Stop, TaskOf};
use crate::start::start_tasks;
use crate::timekeeper::{finish_timekeeper, start_timekeeper};
use http_exchanges::{Served, SharedCluster};
use serve_outside::{Clock, Gate, Listener, Spawner, Words};
use stale_view::Viewer;
use std::alloc::Global;
use std::sync::Wait;
use std::thread::Threads;
use turn_lock::Pass;

// Takes a last turn, and keeps it: the cluster as it stands then. Its marks begin with all that passes had seen that were
// put into this one.
fn last_turn<R: Wait, C: SharedCluster, Cl, G>(
    server: &Server<R, Served<C>, Cl, G, Viewer<C::Pair>>,
    mut pass: Pass<Served<C>>,
) -> C
    requires ours { IsOurs (arc_value server.now.board) pass }
    ensures kept { AreKept (C.marks result) }
    ensures told { AreFronts (known pass).told (C.marks result) }
    ensures whole { pass.shares ≡ all_shares → OpensOnly opens (known pass).mine (C.marks result) }
{
    let lock = &**server.board;
    let turn = lock.take(&server.rt, &mut pass);
    let served = turn.into_state();
    served.kept();
    served.cluster
}

// What a run says of its end: what stopped the accepting, and else whether memory lacked later.
fn outcome(started: Result<(), Stop>, short: bool) -> Result<(), Stop>
    ensures { result ≡ outcome_of started short }
{
    match started {
        Ok(()) => { if short { Err(Stop::Memory) } else { Ok(()) } }
        Err(why) => Err(why),
    }
}

// How many connections are accepted.
fn most(count: Option<u32>) -> u64
    ensures { result ≡ most_of count }
{
    match count {
        Some(count) => u64::from(count),
        None => u64::MAX,
    }
}

// No jobs yet.
fn no_jobs<T>(alloc: Global) -> Jobs<T>
    ensures { (result.tasks.items ≡ []) × (result.short ≡ false) }
{
    Jobs {
        tasks: Vec::new(alloc),
        at: 0,
        short: false,
    }
}

/// Accepts so many connections, or all that come where no number is told, and serves each by a job of its own. Jobs that
/// have ended are joined while others are accepted, and all are waited for behind the last. Then it takes a last turn for good.
/// Beside them a timekeeper lets the clocks go on, where it can be started.
/// Gives the cluster as it leaves it, and says what stopped it, if anything did: a connection that ended for lack of
/// memory counts as lack of memory.
pub fn serve_all<
    R: Threads + Wait + Copy + Send + Drop + 'static,
    C: SharedCluster + Send + 'static,
    Cl: Clock + Copy + Send + Drop + 'static,
    G: Gate + Send + Sync + Drop + 'static,
    L: Listener,
    W: Words,
    Sp: Spawner,
>(
    server: &Server<R, Served<C>, Cl, G, Viewer<C::Pair>>,
    mut pass: Pass<Served<C>>,
    listener: &mut L,
    words: &mut W,
    spawner: &mut Sp,
    count: Option<u32>,
) -> (C, Result<(), Stop>)
where
    L::Link: Send + 'static,
    C::Pair: Send + Sync + 'static,
    requires ours { IsOurs (arc_value server.now.board) pass }
    requires agents { (0 < server.now.agents) × (server.now.agents ≡ C.agents) }
    requires whole { ((known pass).mine ≡ []) × (pass.shares ≡ all_shares) }
    requires fresh { (L.given listener.old ≡ 0) × HasDrawn (W.draws words.old) 0 }
    ensures given { OnOk result.1 (L.given listener.new ≡ most_of count) }
    ensures links { HandsBack C.shows C.agrees C.agents (W.draws words.new) (λ seen. IsFront seen (C.marks result.0)) (L.closed listener.old) (L.closed listener.new) (Sp.faults spawner.old) (Sp.faults spawner.new) (L.given listener.new) (numbers opens (C.marks result.0)) result.1 }
    ensures kept { AreKept (C.marks result.0) }
    ensures cause { IfErr result.1 (λ why. why ≡ stops.Listener → Rose (L.faults listener.old) (L.faults listener.new)) }
    ensures port { L.listens_on listener.new ≡ L.listens_on listener.old }
{
    let mut jobs: Jobs<TaskOf<R, C, Cl, G, L::Link>> = no_jobs(server.alloc);
    let keeping = start_timekeeper(server, &mut pass, spawner);
    let started = start_tasks(
        server,
        &mut pass,
        listener,
        words,
        spawner,
        &mut jobs,
        most(count),
    );
    listener.stop();
    let short = finish_tasks(
        server,
        &mut pass,
        listener,
        words,
        &mut jobs.tasks,
        jobs.short,
    );
    finish_timekeeper(server, &mut pass, keeping);
    let cluster = last_turn(server, pass);
    (cluster, outcome(started, short))
}
