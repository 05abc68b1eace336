//! The jobs of a run are waited for, and their links and passes taken back.

ghost use Rattle.std.specs.Prelude.{◌≡◌, ◌+◌, ◌<◌, ◌≤◌, ◌||◌, true, List, length};
ghost use Rattle.std.specs.Arc.{arc_value};
ghost use Rattle.cat_model.specs.declared.reply.Mark.{Mark as SpecMark};
ghost use Rattle.cluster_rules.specs.Sound.{IsAmong};
ghost use Rattle.serve_outside.specs.Tasks.{IsKept, note_of};
ghost use Rattle.turn_lock.specs.Rule.{all_shares, pooled};
ghost use Rattle.http_exchanges.specs.Boards.{IsOurs, known};
ghost use Rattle.http_exchanges.specs.Jobs.{HasEnded};
ghost use Rattle.http_connections.specs.Tasks.{AllTasks, shares_out};
ghost use Rattle.http_connections.specs.Runs.{IsStarted, Joins, ServesOne};
ghost use Rattle.http_exchanges.specs.Serving.{is_short};

use crate::run::{Jobs, Server, TaskOf, give_back};
use http_exchanges::{Cause, Finished, ServeJob, Served, SharedCluster};
use serve_outside::{Clock, Gate, Link, Listener, NoteOf, Task, Words, finish};
use stale_view::Viewer;
use std::sync::Wait;
use std::thread::{Promise, Threads};
use turn_lock::Pass;

/// How many jobs are looked at before a connection is accepted. So those that have ended and are not joined are at most
/// some more than a thirtieth of the others, and a look at each costs no more than a look at a word.
const LOOKS: usize = 32;

// Waits for a connection's job, and tells how the connection ended.
fn finish_task<
    R: Threads + Wait + Drop,
    C: SharedCluster,
    Cl: Clock + Drop,
    G: Gate + Drop,
    L: Link,
>(
    server: &Server<R, Served<C>, Cl, G, Viewer<C::Pair>>,
    task: TaskOf<R, C, Cl, G, L>,
) -> Finished<L, Served<C>, Viewer<C::Pair>>
    requires kept { IsKept ⟦<NoteOf<ServeJob<R, Served<C>, Cl, G, L, Viewer<C::Pair>>> as Promise<Finished<L, Served<C>, Viewer<C::Pair>>>>⟧.kept_by task }
    ensures { HasEnded C.shows C.agrees L.state (note_of task).0.value result }
{
    finish(&server.rt, task)
}

// Waits for a task, and takes its pass and its link back. Says whether the connection ended for lack of memory.
fn finish_one<
    R: Threads + Wait + Copy + Send + Drop + 'static,
    C: SharedCluster + Send + 'static,
    Cl: Clock + Copy + Send + Drop + 'static,
    G: Gate + Send + Sync + Drop + 'static,
    L: Listener,
    W: Words,
>(
    server: &Server<R, Served<C>, Cl, G, Viewer<C::Pair>>,
    pass: &mut Pass<Served<C>>,
    listener: &mut L,
    words: &W,
    task: TaskOf<R, C, Cl, G, L::Link>,
) -> bool
where
    L::Link: Send + 'static,
    requires ours { IsOurs (arc_value server.now.board) pass.old }
    requires kept { IsKept ⟦<NoteOf<ServeJob<R, Served<C>, Cl, G, L::Link, Viewer<C::Pair>>> as Promise<Finished<L::Link, Served<C>, Viewer<C::Pair>>>>⟧.kept_by task }
    requires started { IsStarted (arc_value server.now.board) C.agents (W.draws words.now) L.Link.state (note_of task).0.value }
    ensures ours { IsOurs (arc_value server.now.board) pass.new }
    ensures told { (seen : List SpecMark) → IsAmong seen (known pass.old).told → IsAmong seen (known pass.new).told }
    ensures given { L.given listener.new ≡ L.given listener.old }
    ensures faults { L.faults listener.new ≡ L.faults listener.old }
    ensures port { L.listens_on listener.new ≡ L.listens_on listener.old }
    ensures shares { pass.new.shares ≡ pooled pass.old.shares (note_of task).0.value.pass.shares }
    ensures served { ServesOne C.shows C.agrees C.agents (W.draws words.now) (λ seen. IsAmong seen (known pass.new).told) (L.closed listener.old) (L.closed listener.new) result (known pass.old).mine (known pass.new).mine }
{
    let Finished {
        link,
        pass: own,
        cause,
        ..
    } = finish_task(server, task);
    give_back(server, pass, own);
    listener.close(link);
    cause.is_short()
}

// Whether the job at this place has ended.
fn has_ended<P: Promise<D>, D>(tasks: &[Task<P, D>], at: usize) -> bool
    ensures { result ≡ true → at < length tasks.now }
{
    match tasks.get(at) {
        Some(task) => task.has_ended(),
        None => false,
    }
}

// The place of the job that is looked at next: each has its turn.
fn next_place(at: usize, count: usize) -> usize {
    if at < count { at } else { 0 }
}

// Looks at the next job, and where it has ended takes its pass and its link back. The words are those from which the
// connections had their draws.
fn sweep_one<
    R: Threads + Wait + Copy + Send + Drop + 'static,
    C: SharedCluster + Send + 'static,
    Cl: Clock + Copy + Send + Drop + 'static,
    G: Gate + Send + Sync + Drop + 'static,
    L: Listener,
    W: Words,
>(
    server: &Server<R, Served<C>, Cl, G, Viewer<C::Pair>>,
    pass: &mut Pass<Served<C>>,
    listener: &mut L,
    words: &W,
    jobs: &mut Jobs<TaskOf<R, C, Cl, G, L::Link>>,
)
where
    L::Link: Send + 'static,
    requires ours { IsOurs (arc_value server.now.board) pass.old }
    requires few { pass.old.shares + shares_out jobs.old.tasks.items (λ p. p.0.value.pass.shares) ≤ all_shares }
    requires tasks { AllTasks jobs.old.tasks.items ⟦<NoteOf<ServeJob<R, Served<C>, Cl, G, L::Link, Viewer<C::Pair>>> as Promise<Finished<L::Link, Served<C>, Viewer<C::Pair>>>>⟧.kept_by (λ p. IsStarted (arc_value server.now.board) C.agents (W.draws words.now) L.Link.state p.0.value) }
    ensures ours { IsOurs (arc_value server.now.board) pass.new }
    ensures tasks { AllTasks jobs.new.tasks.items ⟦<NoteOf<ServeJob<R, Served<C>, Cl, G, L::Link, Viewer<C::Pair>>> as Promise<Finished<L::Link, Served<C>, Viewer<C::Pair>>>>⟧.kept_by (λ p. IsStarted (arc_value server.now.board) C.agents (W.draws words.now) L.Link.state p.0.value) }
    ensures told { (seen : List SpecMark) → IsAmong seen (known pass.old).told → IsAmong seen (known pass.new).told }
    ensures given { L.given listener.new ≡ L.given listener.old }
    ensures faults { L.faults listener.new ≡ L.faults listener.old }
    ensures port { L.listens_on listener.new ≡ L.listens_on listener.old }
    ensures joins { Joins C.shows C.agrees C.agents (W.draws words.now) (λ seen. IsAmong seen (known pass.new).told) (L.closed listener.old) (L.closed listener.new) (length jobs.old.tasks.items) (length jobs.new.tasks.items) jobs.old.short jobs.new.short (known pass.old).mine (known pass.new).mine }
    ensures shares { pass.new.shares + shares_out jobs.new.tasks.items (λ p. p.0.value.pass.shares) ≡ pass.old.shares + shares_out jobs.old.tasks.items (λ p. p.0.value.pass.shares) }
{
    let at = next_place(jobs.at, jobs.tasks.len());
    if !has_ended(&jobs.tasks, at) {
        jobs.at = at.saturating_add(1);
        return;
    }
    jobs.at = at;
    let task = jobs.tasks.swap_remove(at);
    let one = finish_one(server, pass, listener, words, task);
    jobs.short = either(jobs.short, one);
}

/// Looks at some of the jobs, and takes back the passes and the links of those that have ended. Each call looks at the
/// next ones, so that all are looked at in turn.
pub(crate) fn sweep<
    R: Threads + Wait + Copy + Send + Drop + 'static,
    C: SharedCluster + Send + 'static,
    Cl: Clock + Copy + Send + Drop + 'static,
    G: Gate + Send + Sync + Drop + 'static,
    L: Listener,
    W: Words,
>(
    server: &Server<R, Served<C>, Cl, G, Viewer<C::Pair>>,
    pass: &mut Pass<Served<C>>,
    listener: &mut L,
    words: &W,
    jobs: &mut Jobs<TaskOf<R, C, Cl, G, L::Link>>,
)
where
    L::Link: Send + 'static,
    requires ours { IsOurs (arc_value server.now.board) pass.old }
    requires few { pass.old.shares + shares_out jobs.old.tasks.items (λ p. p.0.value.pass.shares) ≤ all_shares }
    requires tasks { AllTasks jobs.old.tasks.items ⟦<NoteOf<ServeJob<R, Served<C>, Cl, G, L::Link, Viewer<C::Pair>>> as Promise<Finished<L::Link, Served<C>, Viewer<C::Pair>>>>⟧.kept_by (λ p. IsStarted (arc_value server.now.board) C.agents (W.draws words.now) L.Link.state p.0.value) }
    ensures ours { IsOurs (arc_value server.now.board) pass.new }
    ensures tasks { AllTasks jobs.new.tasks.items ⟦<NoteOf<ServeJob<R, Served<C>, Cl, G, L::Link, Viewer<C::Pair>>> as Promise<Finished<L::Link, Served<C>, Viewer<C::Pair>>>>⟧.kept_by (λ p. IsStarted (arc_value server.now.board) C.agents (W.draws words.now) L.Link.state p.0.value) }
    ensures told { (seen : List SpecMark) → IsAmong seen (known pass.old).told → IsAmong seen (known pass.new).told }
    ensures given { L.given listener.new ≡ L.given listener.old }
    ensures faults { L.faults listener.new ≡ L.faults listener.old }
    ensures port { L.listens_on listener.new ≡ L.listens_on listener.old }
    ensures joins { Joins C.shows C.agrees C.agents (W.draws words.now) (λ seen. IsAmong seen (known pass.new).told) (L.closed listener.old) (L.closed listener.new) (length jobs.old.tasks.items) (length jobs.new.tasks.items) jobs.old.short jobs.new.short (known pass.old).mine (known pass.new).mine }
    ensures shares { pass.new.shares + shares_out jobs.new.tasks.items (λ p. p.0.value.pass.shares) ≡ pass.old.shares + shares_out jobs.old.tasks.items (λ p. p.0.value.pass.shares) }
{
    let mut left = jobs.tasks.len().min(LOOKS);
    while left > 0 {
        left -= 1;
        sweep_one(server, pass, listener, words, jobs);
    }
}

/// Waits for all tasks, and takes their passes and links back. The words are those from which the connections had their
/// draws. Says whether a connection ended for lack of memory, or one had before.
pub(crate) fn finish_tasks<
    R: Threads + Wait + Copy + Send + Drop + 'static,
    C: SharedCluster + Send + 'static,
    Cl: Clock + Copy + Send + Drop + 'static,
    G: Gate + Send + Sync + Drop + 'static,
    L: Listener,
    W: Words,
>(
    server: &Server<R, Served<C>, Cl, G, Viewer<C::Pair>>,
    pass: &mut Pass<Served<C>>,
    listener: &mut L,
    words: &W,
    tasks: &mut Vec<TaskOf<R, C, Cl, G, L::Link>>,
    before: bool,
) -> bool
where
    L::Link: Send + 'static,
    requires ours { IsOurs (arc_value server.now.board) pass.old }
    requires few { pass.old.shares + shares_out tasks.old.items (λ p. p.0.value.pass.shares) ≤ all_shares }
    requires tasks { AllTasks tasks.old.items ⟦<NoteOf<ServeJob<R, Served<C>, Cl, G, L::Link, Viewer<C::Pair>>> as Promise<Finished<L::Link, Served<C>, Viewer<C::Pair>>>>⟧.kept_by (λ p. IsStarted (arc_value server.now.board) C.agents (W.draws words.now) L.Link.state p.0.value) }
    ensures ours { IsOurs (arc_value server.now.board) pass.new }
    ensures told { (seen : List SpecMark) → IsAmong seen (known pass.old).told → IsAmong seen (known pass.new).told }
    ensures given { L.given listener.new ≡ L.given listener.old }
    ensures faults { L.faults listener.new ≡ L.faults listener.old }
    ensures port { L.listens_on listener.new ≡ L.listens_on listener.old }
    ensures joins { Joins C.shows C.agrees C.agents (W.draws words.now) (λ seen. IsAmong seen (known pass.new).told) (L.closed listener.old) (L.closed listener.new) (length tasks.old.items) 0 before result (known pass.old).mine (known pass.new).mine }
    ensures shares { pass.new.shares ≡ pass.old.shares + shares_out tasks.old.items (λ p. p.0.value.pass.shares) }
{
    let mut short = before;
    while let Some(task) = tasks.pop() {
        let one = finish_one(server, pass, listener, words, task);
        short = either(short, one);
    }
    short
}

// One of two.
fn either(one: bool, other: bool) -> bool
    ensures { result ≡ (one || other) }
{
    one || other
}
