//! The connections of a run are accepted, and a job of its own is started for each.

ghost use Rattle.std.specs.Prelude.{◌≡◌, ◌+◌, ◌<◌, ◌≤◌, [], false, IfErr, IfOk, IfSome, List, MatchOption, MatchResult, None, Err, OnErr, OnOk, length};
ghost use Rattle.std.specs.Arc.{arc_value};
ghost use Rattle.cat_model.specs.declared.reply.Mark.{Mark as SpecMark};
ghost use Rattle.outside.specs.Causes.{Rose};
ghost use Rattle.cluster_rules.specs.Sound.{IsAmong};
ghost use Rattle.http_wire.specs.State.{Told};
ghost use Rattle.serve_outside.specs.Links.{IsNew};
ghost use Rattle.serve_outside.specs.Tasks.{IsKept, note_of};
ghost use Rattle.http_connections.specs.declared.run.Stop.TheVariants as stops;
ghost use Rattle.turn_lock.specs.Rule.{all_shares};
ghost use Rattle.http_exchanges.specs.Boards.{IsOurs, known};
ghost use Rattle.http_connections.specs.Tasks.{AllTasks, agent_of, shares_out};
ghost use Rattle.http_connections.specs.Runs.{Handed, HasDrawn, IsStarted, IsStartedAs, KeepsDraws, Starts, TurnedAway, TurnsAway, lacking};

use crate::finish::sweep;
use crate::run::{Jobs, Server, Stop, TaskOf, give_back};
use cat_model::{Draw, Memory, Refusal};
use http_exchanges::{Board, Finished, ServeJob, Served, SharedCluster, send_refusing};
use http_routes::{Routes, routes_cross};
use http_wire::RequestReader;
use serve_outside::{Clock, Gate, Job, Link, Listener, NoteOf, Spawner, Words, start};
use stale_view::{Viewer, parts_cross};
use std::alloc::{AllocError, Global};
use std::sync::{Arc, Wait};
use std::thread::{Promise, Threads};
use turn_lock::{NoShare, Pass};

// What a job needs of its own.
fn parts<R, C: SharedCluster, Cl, G: Drop>(
    server: &Server<R, Served<C>, Cl, G, Viewer<C::Pair>>,
    pass: &mut Pass<Served<C>>,
) -> Result<
    (
        RequestReader,
        Arc<Board<Served<C>>, Global>,
        Arc<G, Global>,
        Pass<Served<C>>,
        Viewer<C::Pair>,
        Arc<Routes, Global>,
    ),
    Memory,
>
    requires ours { IsOurs (arc_value server.now.board) pass.old }
    ensures ours { IsOurs (arc_value server.now.board) pass.new }
    ensures told { (known pass.new).told ≡ (known pass.old).told }
    ensures same { (known pass.new).mine ≡ (known pass.old).mine }
    ensures shares { MatchResult result (λ r. pass.new.shares + r.3.shares ≡ pass.old.shares) (λ _. pass.new.shares ≡ pass.old.shares) }
    ensures reader { IfOk result (λ r. (r.0.stop ≡ None) × Told [] [] r.0.held r.0.stop) }
    ensures board { IfOk result (λ r. arc_value r.1 ≡ arc_value server.now.board) }
    ensures pass { IfOk result (λ r. IsOurs (arc_value server.now.board) r.3 × ((known r.3).mine ≡ [])) }
{
    let reader = RequestReader::new(server.alloc)?;
    let board = Arc::try_clone(&server.board)?;
    let gate = Arc::try_clone(&server.gate)?;
    let routes = Arc::try_clone(&server.routes)?;
    let viewer = server.viewer.split()?;
    let lock = &**server.board;
    match lock.split(pass) {
        Ok(own) => Ok((reader, board, gate, own, viewer, routes)),
        Err(NoShare) => Err(Memory),
    }
}

// The agent of the n-th connection.
fn agent_at(agents: u32, n: u64) -> u32
    requires agents { 0 < agents }
    requires number { 0 < n }
    ensures { result ≡ agent_of agents n }
{
    ((n - 1) % u64::from(agents)) as u32 + 1
}

// The job of the n-th connection, or its link where there is no memory for a job.
fn job_of<
    R: Wait + Copy + Drop,
    C: SharedCluster,
    Cl: Clock + Copy + Drop,
    G: Gate + Drop,
    L: Link,
>(
    server: &Server<R, Served<C>, Cl, G, Viewer<C::Pair>>,
    pass: &mut Pass<Served<C>>,
    link: L,
    draw: Draw,
    n: u64,
) -> Result<ServeJob<R, Served<C>, Cl, G, L, Viewer<C::Pair>>, L>
    requires ours { IsOurs (arc_value server.now.board) pass.old }
    requires agents { (0 < server.now.agents) × (server.now.agents ≡ C.agents) }
    requires number { 0 < n }
    requires unshut { (L.state link).shut ≡ false }
    ensures ours { IsOurs (arc_value server.now.board) pass.new }
    ensures told { (known pass.new).told ≡ (known pass.old).told }
    ensures same { (known pass.new).mine ≡ (known pass.old).mine }
    ensures shares { MatchResult result (λ job. pass.new.shares + job.pass.shares ≡ pass.old.shares) (λ _. pass.new.shares ≡ pass.old.shares) }
    ensures ready { IfOk result (⟦<ServeJob<R, Served<C>, Cl, G, L, Viewer<C::Pair>> as Job>⟧.ready) }
    ensures job { IfOk result (λ job. (job.link ≡ link) × (job.draw ≡ draw) × (job.agent ≡ agent_of C.agents n)) }
    ensures pass { IfOk result (λ job. IsOurs (arc_value server.now.board) job.pass × ((known job.pass).mine ≡ [])) }
    ensures refused { IfErr result (λ back. back ≡ link) }
{
    match parts(server, pass) {
        Ok((reader, board, gate, own, viewer, routes)) => Ok(ServeJob {
            rt: server.rt,
            alloc: server.alloc,
            board,
            clock: server.clock,
            gate,
            routes,
            agent: agent_at(server.agents, n),
            draw,
            link,
            reader,
            pass: own,
            viewer,
        }),
        Err(Memory) => Err(link),
    }
}

// Tells a link that no worker could be had, and shuts it.
fn turn_away<L: Link>(link: &mut L, alloc: Global)
    requires unshut { (L.state link.old).shut ≡ false }
    ensures { TurnsAway (L.state link.old) (L.state link.new) }
{
    let _ = send_refusing(link, alloc, Refusal::NoWorker);
    link.shut();
}

// Starts a job, whose parts may all go to another thread.
fn start_job<
    R: Threads + Wait + Copy + Send + Drop + 'static,
    C: SharedCluster + Send + 'static,
    Cl: Clock + Copy + Send + Drop + 'static,
    G: Gate + Send + Sync + Drop + 'static,
    L: Link + Send + 'static,
    Sp: Spawner,
>(
    rt: &R,
    alloc: Global,
    spawner: &mut Sp,
    job: ServeJob<R, Served<C>, Cl, G, L, Viewer<C::Pair>>,
) -> Result<TaskOf<R, C, Cl, G, L>, ServeJob<R, Served<C>, Cl, G, L, Viewer<C::Pair>>>
where
    C::Pair: Send + Sync + 'static,
    requires ready { ⟦<ServeJob<R, Served<C>, Cl, G, L, Viewer<C::Pair>> as Job>⟧.ready job }
    ensures started { IfOk result (λ task. ((note_of task).0.value ≡ job) × IsKept ⟦<NoteOf<ServeJob<R, Served<C>, Cl, G, L, Viewer<C::Pair>>> as Promise<Finished<L, Served<C>, Viewer<C::Pair>>>>⟧.kept_by task) }
    ensures refused { IfErr result (λ back. back ≡ job) }
    ensures cause { OnErr result (Rose (Sp.faults spawner.old) (Sp.faults spawner.new)) }
    ensures counted { (Sp.faults spawner.old ≤ Sp.faults spawner.new) × (Sp.faults spawner.new ≤ Sp.faults spawner.old + 1) }
{
    parts_cross();
    routes_cross();
    start(spawner, rt, alloc, job)
}

// Starts a connection's job. Where it cannot be started, the link is turned away and handed back.
fn launch<
    R: Threads + Wait + Copy + Send + Drop + 'static,
    C: SharedCluster + Send + 'static,
    Cl: Clock + Copy + Send + Drop + 'static,
    G: Gate + Send + Sync + Drop + 'static,
    L: Listener,
    Sp: Spawner,
>(
    server: &Server<R, Served<C>, Cl, G, Viewer<C::Pair>>,
    pass: &mut Pass<Served<C>>,
    listener: &mut L,
    spawner: &mut Sp,
    job: ServeJob<R, Served<C>, Cl, G, L::Link, Viewer<C::Pair>>,
) -> Option<TaskOf<R, C, Cl, G, L::Link>>
where
    L::Link: Send + 'static,
    C::Pair: Send + Sync + 'static,
    requires ours { IsOurs (arc_value server.now.board) pass.old }
    requires theirs { IsOurs (arc_value server.now.board) job.pass × ((known job.pass).mine ≡ []) }
    requires few { pass.old.shares + job.pass.shares ≤ all_shares }
    requires ready { ⟦<ServeJob<R, Served<C>, Cl, G, L::Link, Viewer<C::Pair>> as Job>⟧.ready job }
    requires new { IsNew (L.Link.state job.link).number (L.Link.state job.link) }
    ensures ours { IsOurs (arc_value server.now.board) pass.new }
    ensures told { (seen : List SpecMark) → IsAmong seen (known pass.old).told → IsAmong seen (known pass.new).told }
    ensures unasked { (known pass.new).mine ≡ (known pass.old).mine }
    ensures shares { MatchOption result (pass.new.shares ≡ pass.old.shares + job.pass.shares) (λ _. pass.new.shares ≡ pass.old.shares) }
    ensures given { L.given listener.new ≡ L.given listener.old }
    ensures faults { L.faults listener.new ≡ L.faults listener.old }
    ensures port { L.listens_on listener.new ≡ L.listens_on listener.old }
    ensures kept { IfSome result (IsKept ⟦<NoteOf<ServeJob<R, Served<C>, Cl, G, L::Link, Viewer<C::Pair>>> as Promise<Finished<L::Link, Served<C>, Viewer<C::Pair>>>>⟧.kept_by) }
    ensures job { IfSome result (λ task. (note_of task).0.value ≡ job) }
    ensures turned { MatchOption result
        (TurnedAway (L.closed listener.old) (L.closed listener.new) (Sp.faults spawner.old) (Sp.faults spawner.new) 1)
        (λ _. TurnedAway (L.closed listener.old) (L.closed listener.new) (Sp.faults spawner.old) (Sp.faults spawner.new) 0) }
{
    match start_job(&server.rt, server.alloc, spawner, job) {
        Ok(task) => Some(task),
        Err(job) => {
            let ServeJob {
                mut link,
                pass: own,
                ..
            } = job;
            give_back(server, pass, own);
            turn_away(&mut link, server.alloc);
            listener.close(link);
            None
        }
    }
}

// Accepts the n-th connection and starts its job. A link whose job cannot be started is turned away and handed back.
fn start_one<
    R: Threads + Wait + Copy + Send + Drop + 'static,
    C: SharedCluster + Send + 'static,
    Cl: Clock + Copy + Send + Drop + 'static,
    G: Gate + Send + Sync + Drop + 'static,
    L: Listener,
    Sp: Spawner,
>(
    server: &Server<R, Served<C>, Cl, G, Viewer<C::Pair>>,
    pass: &mut Pass<Served<C>>,
    listener: &mut L,
    spawner: &mut Sp,
    draw: Draw,
    n: u64,
) -> Result<Option<TaskOf<R, C, Cl, G, L::Link>>, Stop>
where
    L::Link: Send + 'static,
    C::Pair: Send + Sync + 'static,
    requires ours { IsOurs (arc_value server.now.board) pass.old }
    requires few { pass.old.shares ≤ all_shares }
    requires agents { (0 < server.now.agents) × (server.now.agents ≡ C.agents) }
    requires number { n ≡ L.given listener.old + 1 }
    ensures ours { IsOurs (arc_value server.now.board) pass.new }
    ensures told { (seen : List SpecMark) → IsAmong seen (known pass.old).told → IsAmong seen (known pass.new).told }
    ensures unasked { (known pass.new).mine ≡ (known pass.old).mine }
    ensures shares { MatchResult result
        (λ o. MatchOption o (pass.new.shares ≡ pass.old.shares) (λ task. pass.new.shares + (note_of task).0.value.pass.shares ≡ pass.old.shares))
        (λ _. pass.new.shares ≡ pass.old.shares) }
    ensures given { MatchResult result (λ _. L.given listener.new ≡ n) (λ why. L.given listener.new ≡ L.given listener.old + lacking (Err why)) }
    ensures kept { IfOk result (λ o. IfSome o (IsKept ⟦<NoteOf<ServeJob<R, Served<C>, Cl, G, L::Link, Viewer<C::Pair>>> as Promise<Finished<L::Link, Served<C>, Viewer<C::Pair>>>>⟧.kept_by)) }
    ensures job { IfOk result (λ o. IfSome o (λ task. IsStartedAs n draw (arc_value server.now.board) C.agents L.Link.state (note_of task).0.value)) }
    ensures turned { MatchResult result
        (λ o. MatchOption o
        (TurnedAway (L.closed listener.old) (L.closed listener.new) (Sp.faults spawner.old) (Sp.faults spawner.new) 1)
        (λ _. TurnedAway (L.closed listener.old) (L.closed listener.new) (Sp.faults spawner.old) (Sp.faults spawner.new) 0))
        (λ why. TurnedAway (L.closed listener.old) (L.closed listener.new) (Sp.faults spawner.old) (Sp.faults spawner.new + lacking (Err why)) (lacking (Err why))) }
    ensures counted { L.faults listener.old ≤ L.faults listener.new }
    ensures cause { IfErr result (λ why. why ≡ stops.Listener → Rose (L.faults listener.old) (L.faults listener.new)) }
    ensures port { L.listens_on listener.new ≡ L.listens_on listener.old }
{
    let Ok(link) = listener.accept() else {
        return Err(Stop::Listener);
    };
    match job_of(server, pass, link, draw, n) {
        Ok(job) => Ok(launch(server, pass, listener, spawner, job)),
        Err(mut link) => {
            turn_away(&mut link, server.alloc);
            listener.close(link);
            Err(Stop::Memory)
        }
    }
}

// Accepts the n-th connection, and puts its task behind the others.
fn start_next<
    R: Threads + Wait + Copy + Send + Drop + 'static,
    C: SharedCluster + Send + 'static,
    Cl: Clock + Copy + Send + Drop + 'static,
    G: Gate + Send + Sync + Drop + 'static,
    L: Listener,
    W: Words,
    Sp: Spawner,
>(
    server: &Server<R, Served<C>, Cl, G, Viewer<C::Pair>>,
    pass: &mut Pass<Served<C>>,
    listener: &mut L,
    words: &mut W,
    spawner: &mut Sp,
    tasks: &mut Vec<TaskOf<R, C, Cl, G, L::Link>>,
    n: u64,
) -> Result<(), Stop>
where
    L::Link: Send + 'static,
    C::Pair: Send + Sync + 'static,
    requires ours { IsOurs (arc_value server.now.board) pass.old }
    requires few { pass.old.shares ≤ all_shares }
    requires agents { (0 < server.now.agents) × (server.now.agents ≡ C.agents) }
    requires number { n ≡ L.given listener.old + 1 }
    requires drawn { HasDrawn (W.draws words.old) (L.given listener.old) }
    requires tasks { AllTasks tasks.old.items ⟦<NoteOf<ServeJob<R, Served<C>, Cl, G, L::Link, Viewer<C::Pair>>> as Promise<Finished<L::Link, Served<C>, Viewer<C::Pair>>>>⟧.kept_by (λ p. IsStarted (arc_value server.now.board) C.agents (W.draws words.old) L.Link.state p.0.value) }
    ensures ours { IsOurs (arc_value server.now.board) pass.new }
    ensures told { (seen : List SpecMark) → IsAmong seen (known pass.old).told → IsAmong seen (known pass.new).told }
    ensures unasked { (known pass.new).mine ≡ (known pass.old).mine }
    ensures shares { pass.new.shares + shares_out tasks.new.items (λ p. p.0.value.pass.shares) ≡ pass.old.shares + shares_out tasks.old.items (λ p. p.0.value.pass.shares) }
    ensures given { OnOk result (L.given listener.new ≡ n) }
    ensures drawn { OnOk result (HasDrawn (W.draws words.new) n) }
    ensures later { KeepsDraws (W.draws words.old) (W.draws words.new) }
    ensures tasks { AllTasks tasks.new.items ⟦<NoteOf<ServeJob<R, Served<C>, Cl, G, L::Link, Viewer<C::Pair>>> as Promise<Finished<L::Link, Served<C>, Viewer<C::Pair>>>>⟧.kept_by (λ p. IsStarted (arc_value server.now.board) C.agents (W.draws words.new) L.Link.state p.0.value) }
    ensures starts { Starts (L.closed listener.old) (L.closed listener.new) (Sp.faults spawner.old) (Sp.faults spawner.new) (L.given listener.old) (L.given listener.new) (length tasks.old.items) (length tasks.new.items) result }
    ensures counted { L.faults listener.old ≤ L.faults listener.new }
    ensures cause { IfErr result (λ why. why ≡ stops.Listener → Rose (L.faults listener.old) (L.faults listener.new)) }
    ensures port { L.listens_on listener.new ≡ L.listens_on listener.old }
{
    match tasks.reserve(1) {
        Ok(()) => {
            let draw = words.draw();
            match start_one(server, pass, listener, spawner, draw, n) {
                Ok(Some(task)) => {
                    tasks.push_reserved(task);
                    Ok(())
                }
                Ok(None) => Ok(()),
                Err(why) => Err(why),
            }
        }
        Err(AllocError) => Err(Stop::Memory),
    }
}

// Accepts so many connections and starts their jobs. Before each one it joins some of those that have ended.
pub(crate) fn start_tasks<
    R: Threads + Wait + Copy + Send + Drop + 'static,
    C: SharedCluster + Send + 'static,
    Cl: Clock + Copy + Send + Drop + 'static,
    G: Gate + Send + Sync + Drop + 'static,
    L: Listener,
    W: Words,
    Sp: Spawner,
>(
    server: &Server<R, Served<C>, Cl, G, Viewer<C::Pair>>,
    pass: &mut Pass<Served<C>>,
    listener: &mut L,
    words: &mut W,
    spawner: &mut Sp,
    jobs: &mut Jobs<TaskOf<R, C, Cl, G, L::Link>>,
    count: u64,
) -> Result<(), Stop>
where
    L::Link: Send + 'static,
    C::Pair: Send + Sync + 'static,
    requires ours { IsOurs (arc_value server.now.board) pass.old }
    requires agents { (0 < server.now.agents) × (server.now.agents ≡ C.agents) }
    requires fresh { (L.given listener.old ≡ 0) × HasDrawn (W.draws words.old) 0 }
    requires none { (jobs.old.tasks.items ≡ []) × (jobs.old.short ≡ false) }
    requires unasked { ((known pass.old).mine ≡ []) × (pass.old.shares ≤ all_shares) }
    requires tasks { AllTasks jobs.old.tasks.items ⟦<NoteOf<ServeJob<R, Served<C>, Cl, G, L::Link, Viewer<C::Pair>>> as Promise<Finished<L::Link, Served<C>, Viewer<C::Pair>>>>⟧.kept_by (λ p. IsStarted (arc_value server.now.board) C.agents (W.draws words.old) L.Link.state p.0.value) }
    ensures ours { IsOurs (arc_value server.now.board) pass.new }
    ensures told { (seen : List SpecMark) → IsAmong seen (known pass.old).told → IsAmong seen (known pass.new).told }
    ensures shares { pass.new.shares + shares_out jobs.new.tasks.items (λ p. p.0.value.pass.shares) ≡ pass.old.shares }
    ensures given { OnOk result (L.given listener.new ≡ count) }
    ensures tasks { AllTasks jobs.new.tasks.items ⟦<NoteOf<ServeJob<R, Served<C>, Cl, G, L::Link, Viewer<C::Pair>>> as Promise<Finished<L::Link, Served<C>, Viewer<C::Pair>>>>⟧.kept_by (λ p. IsStarted (arc_value server.now.board) C.agents (W.draws words.new) L.Link.state p.0.value) }
    ensures handed { Handed C.shows C.agrees C.agents (W.draws words.new) (λ seen. IsAmong seen (known pass.new).told) (L.closed listener.old) (L.closed listener.new) (Sp.faults spawner.old) (Sp.faults spawner.new + lacking result) (L.given listener.new) (length jobs.new.tasks.items) jobs.new.short (known pass.new).mine }
    ensures cause { IfErr result (λ why. why ≡ stops.Listener → Rose (L.faults listener.old) (L.faults listener.new)) }
    ensures port { L.listens_on listener.new ≡ L.listens_on listener.old }
{
    let mut n = 0;
    while n < count {
        n += 1;
        sweep(server, pass, listener, &*words, jobs);
        match start_next(server, pass, listener, words, spawner, &mut jobs.tasks, n) {
            Ok(()) => {}
            Err(why) => return Err(why),
        }
    }
    Ok(())
}
