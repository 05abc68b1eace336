//! The job beside its caller.

ghost use Rattle.std.specs.Prelude.{◌≡◌, ◌+◌, ◌≤◌, IfErr, IfOk, OnErr};
ghost use Rattle.outside.specs.Causes.{Rose};
ghost use Rattle.serve_outside.specs.Tasks.{IsKept, note_of};
ghost use Rattle.dns_jobs.specs.Answered.{HasAnswered};

use crate::job::{DnsDone, DnsJob};
use datagram_outside::DatagramPort;
use serve_outside::{NoteOf, Spawner, Task, finish, start};
use stale_view::{PairName, viewers_send};
use std::alloc::Global;
use std::sync::Wait;
use std::thread::{Promise, Threads};

/// The job that was started. Its note is the job as it was then.
pub type NamesTask<R, J, P> = Task<NoteOf<DnsJob<R, J, P>>, DnsDone<J, P>>;

/// Starts the job beside the caller, or hands it back only where the spawner's count rose.
pub fn start_names<
    S: Spawner,
    R: Threads + Wait + Send + Drop + 'static,
    J: PairName + Send + Sync + 'static,
    P: DatagramPort + Send + 'static,
>(
    spawner: &mut S,
    rt: &R,
    alloc: Global,
    job: DnsJob<R, J, P>,
) -> Result<NamesTask<R, J, P>, DnsJob<R, J, P>>
where
    P::Peer: Send + 'static,
    ensures started { IfOk result (λ task. ((note_of task).0.value ≡ job) × IsKept ⟦<NoteOf<DnsJob<R, J, P>> as Promise<DnsDone<J, P>>>⟧.kept_by task) }
    ensures refused { IfErr result (λ back. back ≡ job) }
    ensures cause { OnErr result (Rose (S.faults spawner.old) (S.faults spawner.new)) }
    ensures counted { (S.faults spawner.old ≤ S.faults spawner.new) × (S.faults spawner.new ≤ S.faults spawner.old + 1) }
{
    viewers_send::<J>();
    start(spawner, rt, alloc, job)
}

/// Waits until the job has ended, and gives what it gave back.
pub fn finish_names<R: Threads + Wait + Drop, J: PairName, P: DatagramPort>(
    rt: &R,
    task: NamesTask<R, J, P>,
) -> DnsDone<J, P>
    requires kept { IsKept ⟦<NoteOf<DnsJob<R, J, P>> as Promise<DnsDone<J, P>>>⟧.kept_by task }
    ensures { HasAnswered (P.state (note_of task).0.value.port) (P.state result.port) (note_of task).0.value.viewer (note_of task).0.value.packets result.ended }
{
    finish(rt, task)
}
