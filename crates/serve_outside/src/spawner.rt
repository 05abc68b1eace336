ghost use Rattle.std.specs.Prelude.{◌≡◌, ℕ, ◌+◌, ◌≤◌, true, false, IfOk, IfErr, OnErr};
ghost use Rattle.outside.specs.Causes.{Rose};
ghost use Rattle.serve_outside.specs.Tasks.{note_of, IsKept};

use crate::job::{Job, NoteOf, Task, Told};
use std::alloc::Global;
use std::snapshot::Snapshot;
use std::sync::Arc;
use std::sync::atomic::{AtomicBool, Ordering};
use std::thread;
use std::thread::{Promise, Threads};

/// What starts jobs. Its calls are plain; `start` and `finish` do the work.
pub trait Spawner {
    /// How many jobs were refused, and for how many no thread could be made.
    ghost faults: { Self → ℕ };

    /// Whether the next job is refused, which is a fault.
    fn refuses(&mut self) -> bool
        ensures refused { result ≡ true → Rose (faults self.old) (faults self.new) }
        ensures taken { result ≡ false → faults self.new ≡ faults self.old }
        ensures counted { (faults self.old ≤ faults self.new) × (faults self.new ≤ faults self.old + 1) };

    /// Whether jobs run in threads of their own.
    fn has_threads(&self) -> bool;

    /// Counts that no thread could be made.
    fn count_missed(&mut self)
        ensures { Rose (faults self.old) (faults self.new) × (faults self.old ≤ faults self.new) × (faults self.new ≤ faults self.old + 1) };
}

/// Starts the job beside the caller, or hands it back only where the count rose. Where no thread can be made the job
/// runs here, and the fault is counted.
pub fn start<S: Spawner, R: Threads, J: Job + Send + 'static>(
    spawner: &mut S,
    rt: &R,
    alloc: Global,
    job: J,
) -> Result<Task<NoteOf<J>, J::Done>, J>
where
    J::Done: Send + Drop + 'static,
    requires { J.ready job }
    ensures started { IfOk result (λ task. ((note_of task).0.value ≡ job) × IsKept ⟦<NoteOf<J> as Promise<J::Done>>⟧.kept_by task) }
    ensures refused { IfErr result (λ back. back ≡ job) }
    ensures cause { OnErr result (Rose (S.faults spawner.old) (S.faults spawner.new)) }
    ensures counted { (S.faults spawner.old ≤ S.faults spawner.new) × (S.faults spawner.new ≤ S.faults spawner.old + 1) }
{
    if spawner.refuses() {
        return Err(job);
    }
    let note = NoteOf(Snapshot::of(&job));
    if !spawner.has_threads() {
        return Ok(Task::Ended(note, job.run()));
    }
    match in_thread(rt, alloc, job) {
        Ok(task) => Ok(task),
        Err(done) => {
            spawner.count_missed();
            Ok(Task::Ended(note, done))
        }
    }
}

// A place where a job tells that it has ended, for the job and for whoever asks it.
fn telling(alloc: Global) -> (Told, Told) {
    let Ok(told) = Arc::new(alloc, AtomicBool::new(false)) else {
        return (None, None);
    };
    match Arc::try_clone(&told) {
        Ok(own) => (Some(own), Some(told)),
        Err(_) => (None, None),
    }
}

// Runs a job, and tells that it has ended.
fn run_and_tell<J: Job>(job: J, told: Told) -> J::Done
    requires { J.ready job }
    ensures { J.keeps job result }
{
    let done = job.run();
    if let Some(told) = told {
        told.store(true, Ordering::SeqCst);
    }
    done
}

// A thread for the job; or what the job gave here, where no thread can be made.
fn in_thread<R: Threads, J: Job + Send + 'static>(
    rt: &R,
    alloc: Global,
    job: J,
) -> Result<Task<NoteOf<J>, J::Done>, J::Done>
where
    J::Done: Send + Drop + 'static,
    requires { J.ready job }
    ensures started { IfOk result (λ task. ((note_of task).0.value ≡ job) × IsKept ⟦<NoteOf<J> as Promise<J::Done>>⟧.kept_by task) }
    ensures here { IfErr result (λ done. J.keeps job done) }
{
    let note = NoteOf(Snapshot::of(&job));
    let (own, told) = telling(alloc);
    match thread::spawn_with(rt, note, move || run_and_tell(job, own)) {
        Ok(handle) => Ok(Task::Running(handle, told)),
        Err(refused) => Err((refused.value)()),
    }
}

/// Starts a job beside the caller that goes on until it is told to stop. Where it cannot be beside the caller it is told to
/// stop, and then run here. That is no fault.
pub fn start_beside<S: Spawner, R: Threads, J: Job + Send + 'static>(
    spawner: &S,
    rt: &R,
    job: J,
    stop: &AtomicBool,
) -> Task<NoteOf<J>, J::Done>
where
    J::Done: Send + Drop + 'static,
    requires { J.ready job }
    ensures { ((note_of result).0.value ≡ job) × IsKept ⟦<NoteOf<J> as Promise<J::Done>>⟧.kept_by result }
{
    let note = NoteOf(Snapshot::of(&job));
    if !spawner.has_threads() {
        stop.store(true, Ordering::SeqCst);
        return Task::Ended(note, job.run());
    }
    let promise = NoteOf(Snapshot::of(&job));
    match thread::spawn_with(rt, promise, move || job.run()) {
        Ok(handle) => Task::Running(handle, None),
        Err(refused) => {
            stop.store(true, Ordering::SeqCst);
            Task::Ended(note, (refused.value)())
        }
    }
}

/// Waits until the job has ended, and gives what it gave.
pub fn finish<R: Threads, P: Promise<D> + Drop, D>(rt: &R, task: Task<P, D>) -> D
    requires { IsKept P.kept_by task }
    ensures { P.kept_by (note_of task) result }
{
    match task {
        Task::Ended(_, done) => done,
        Task::Running(handle, _) => handle.join(rt),
    }
}
