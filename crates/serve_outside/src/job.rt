use std::alloc::Global;
use std::snapshot::Snapshot;
use std::sync::Arc;
use std::sync::atomic::{AtomicBool, Ordering};
use std::thread::{Promise, PromisedHandle};

/// Work that may be done beside the caller.
pub trait Job: Drop {
    type Done;

    /// What the job needs.
    ghost ready: { Self → Type 0 };

    /// What is known of all that it gives.
    ghost keeps: { Self → Self.Done → Type 0 };

    fn run(self) -> Self::Done
        requires { ready self }
        ensures { keeps self result };
}

/// The note of a job: the job as it was before it ran. It takes no memory.
#[derive(Drop)]
pub struct NoteOf<J: Job>(pub Snapshot<J>);

impl<J: Job> Promise<J::Done> for NoteOf<J> {
    ghost kept_by = { λ note done. J.keeps note.0.value done };
}

/// Where a job tells that it has ended, if there was memory for that.
pub(crate) type Told = Option<Arc<AtomicBool, Global>>;

/// A job that was started, with its note: ended, or in a thread of its own.
#[derive(Drop)]
pub enum Task<P: Promise<D>, D> {
    Ended(P, D),
    Running(PromisedHandle<D, P>, Told),
}

impl<P: Promise<D>, D> Task<P, D> {
    /// Whether the job is known to have ended, so that `finish` does not wait for it. No clause says so: where there was
    /// no memory for the word by which a job tells it, it is not known before.
    pub fn has_ended(&self) -> bool {
        match self {
            Task::Ended(_, _) => true,
            Task::Running(_, Some(told)) => told.load(Ordering::SeqCst),
            Task::Running(_, None) => false,
        }
    }
}
