//! Questions of names (DNS), which a job of their own answers beside the connections.

ghost use Rattle.std.specs.Prelude.{◌≡◌, ◌≢◌, ◌≤◌, ◌++◌, [], Some, false, IfErr, IfOk, IfSome, OnErr};
ghost use mathlib.Core.List.{IsPrefix};
ghost use Rattle.outside.specs.Causes.{HasCause, Rose};
ghost use Rattle.dns_server.specs.declared.packets.DnsCause.TheVariants as dns_cause;
ghost use Rattle.serve_outside.specs.Tasks.{IsKept, note_of};
ghost use Rattle.http_exchanges.specs.Marks.{agreed_by};
ghost use Rattle.http_connections.specs.Runs.{most_of};
ghost use Rattle.http_front.specs.Names.{Answers, AnswersAs, Finishes, IsAnswered, IsBound, LeavesPort, told_by};

use crate::options::Dns;
use cat_model::Memory;
use datagram_outside::{DatagramPort, Datagrams};
use dns_jobs::{DnsDone, DnsJob, NamesTask, finish_names, start_names};
use dns_server::{DnsCause, DnsEnded};
use http_exchanges::SharedCluster;
use outside::Failed;
use serve_outside::{NoteOf, Spawner};
use stale_view::{PairName, Viewer};
use std::alloc::Global;
use std::sync::Wait;
use std::thread::{Promise, Threads};

/// A port of names that is bound, and how many of its packets are to be answered.
#[derive(Drop)]
pub struct Names<P> {
    pub port: P,
    pub packets: u64,
}

/// What answers questions of names beside the connections: a task, or nobody where it could not be started.
#[derive(Drop)]
pub enum Answering<T, P> {
    Started(T),
    Refused(P),
}

/// What is left when the connections have ended: the port of names, if one was bound, and whether memory was wanting for
/// its packets or its viewer.
#[derive(Drop)]
pub struct Left<P> {
    pub port: Option<P>,
    pub short: bool,
}

// How many packets are answered.
fn most(count: Option<u32>) -> u64
    ensures { result ≡ most_of count }
{
    match count {
        Some(count) => u64::from(count),
        None => u64::MAX,
    }
}

/// Binds the port of names, where one is asked for.
pub fn bind_names<D: Datagrams>(
    datagrams: &mut D,
    dns: Option<Dns>,
) -> Result<Option<Names<D::Port>>, Failed>
    ensures bound { IfOk result (IsBound (λ p. D.Port.state p) dns) }
    ensures cause { HasCause (D.faults datagrams.old) (D.faults datagrams.new) result }
    ensures closed { D.closed datagrams.new ≡ D.closed datagrams.old }
{
    match dns {
        None => Ok(None),
        Some(dns) => match datagrams.bind(dns.port) {
            Ok(port) => Ok(Some(Names {
                port,
                packets: most(dns.packets),
            })),
            Err(Failed) => Err(Failed),
        },
    }
}

/// Hands the port of names back, where there is one.
pub fn close_port<D: Datagrams>(datagrams: &mut D, port: Option<D::Port>)
    ensures closed { D.closed datagrams.new ≡ D.closed datagrams.old ++ told_by (λ p. D.Port.state p) port }
    ensures faults { D.faults datagrams.new ≡ D.faults datagrams.old }
{
    if let Some(port) = port {
        datagrams.close(port);
    }
}

/// The port that is bound, of which no packet is answered.
pub fn port_of<P: DatagramPort>(names: Option<Names<P>>) -> Option<P>
    ensures { LeavesPort names result }
{
    match names {
        Some(names) => Some(names.port),
        None => None,
    }
}

// Starts the job that answers the packets by a viewer of its own. Without memory for that the port is handed back.
fn start_one<
    R: Threads + Wait + Copy + Send + Drop + 'static,
    J: PairName + Send + Sync + 'static,
    P: DatagramPort + Send + 'static,
    Sp: Spawner,
>(
    rt: &R,
    alloc: Global,
    viewer: &Viewer<J>,
    names: Names<P>,
    spawner: &mut Sp,
) -> Result<Answering<NamesTask<R, J, P>, P>, P>
where
    P::Peer: Send + 'static,
    ensures started { IfOk result (AnswersAs
        (λ task. IsKept ⟦<NoteOf<DnsJob<R, J, P>> as Promise<DnsDone<J, P>>>⟧.kept_by task × ((note_of task).0.value.viewer ≡ []) × ((note_of task).0.value.port ≡ names.port) × ((note_of task).0.value.packets ≡ names.packets))
        (λ port. (port ≡ names.port) × Rose (Sp.faults spawner.old) (Sp.faults spawner.new))) }
    ensures lacked { OnErr result (spawner.new ≡ spawner.old) }
    ensures counted { Sp.faults spawner.old ≤ Sp.faults spawner.new }
{
    let Names { port, packets } = names;
    let Ok(viewer) = viewer.split() else {
        return Err(port);
    };
    let job = DnsJob {
        rt: *rt,
        alloc,
        port,
        viewer,
        packets,
    };
    match start_names(spawner, rt, alloc, job) {
        Ok(task) => Ok(Answering::Started(task)),
        Err(job) => Ok(Answering::Refused(job.port)),
    }
}

/// Starts what answers questions of names, where a port is bound. It reads by a viewer of its own, for which there may be no
/// memory: then the port is handed back.
pub fn start_answering<
    R: Threads + Wait + Copy + Send + Drop + 'static,
    J: PairName + Send + Sync + 'static,
    P: DatagramPort + Send + 'static,
    Sp: Spawner,
>(
    rt: &R,
    alloc: Global,
    viewer: &Viewer<J>,
    names: Option<Names<P>>,
    spawner: &mut Sp,
) -> Result<Option<Answering<NamesTask<R, J, P>, P>>, P>
where
    P::Peer: Send + 'static,
    ensures started { IfOk result (Answers
        (λ task n. IsKept ⟦<NoteOf<DnsJob<R, J, P>> as Promise<DnsDone<J, P>>>⟧.kept_by task × ((note_of task).0.value.viewer ≡ []) × ((note_of task).0.value.port ≡ n.port) × ((note_of task).0.value.packets ≡ n.packets))
        (Rose (Sp.faults spawner.old) (Sp.faults spawner.new)) names) }
    ensures lacked { IfErr result (λ port. (spawner.new ≡ spawner.old) × LeavesPort names (Some port)) }
    ensures counted { Sp.faults spawner.old ≤ Sp.faults spawner.new }
{
    match names {
        None => Ok(None),
        Some(names) => match start_one(rt, alloc, viewer, names, spawner) {
            Ok(answering) => Ok(Some(answering)),
            Err(port) => Err(port),
        },
    }
}

// Whether packets were not answered for lack of memory.
fn lacked_memory(cause: DnsCause) -> bool
    ensures { result ≡ false → cause ≢ dns_cause.Memory }
{
    match cause {
        DnsCause::Memory => true,
        DnsCause::Done | DnsCause::Fault => false,
    }
}

// The viewer of a job that has ended reads once more what is agreed. Says whether memory was wanting, for that or before.
fn learn_last<C: SharedCluster>(cluster: &mut C, ended: DnsEnded<Viewer<C::Pair>>) -> bool
    ensures same { cluster.new ≡ cluster.old }
    ensures long { result ≡ false → ended.cause ≢ dns_cause.Memory }
    ensures view { result ≡ false → C.agrees → IsPrefix ended.catalog (agreed_by (C.marks cluster.new)) }
{
    let DnsEnded {
        taken: _,
        cause,
        catalog: mut viewer,
    } = ended;
    if lacked_memory(cause) {
        return true;
    }
    match cluster.show(&mut viewer) {
        Ok(()) => false,
        Err(Memory) => true,
    }
}

// Waits for the job that answers the packets.
fn finish_one<R: Threads + Wait + Drop, C: SharedCluster, P: DatagramPort>(
    rt: &R,
    cluster: &mut C,
    task: NamesTask<R, C::Pair, P>,
) -> (P, bool)
    requires kept { IsKept ⟦<NoteOf<DnsJob<R, C::Pair, P>> as Promise<DnsDone<C::Pair, P>>>⟧.kept_by task }
    requires unread { (note_of task).0.value.viewer ≡ [] }
    ensures same { cluster.new ≡ cluster.old }
    ensures answered { result.1 ≡ false → IsAnswered C.agrees (agreed_by (C.marks cluster.new)) (note_of task).0.value.packets (P.state (note_of task).0.value.port) (P.state result.0) }
{
    let DnsDone { port, ended } = finish_names(rt, task);
    let short = learn_last(cluster, ended);
    (port, short)
}

/// Waits for what answers questions of names. Its viewer reads once more what the cluster has agreed.
pub fn finish_answering<R: Threads + Wait + Drop, C: SharedCluster, P: DatagramPort>(
    rt: &R,
    cluster: &mut C,
    answering: Option<Answering<NamesTask<R, C::Pair, P>, P>>,
) -> Left<P>
    requires kept { IfSome answering (AnswersAs
        (λ task. IsKept ⟦<NoteOf<DnsJob<R, C::Pair, P>> as Promise<DnsDone<C::Pair, P>>>⟧.kept_by task × ((note_of task).0.value.viewer ≡ []))
        (λ _. Unit {0})) }
    ensures same { cluster.new ≡ cluster.old }
    ensures left { Finishes answering
        (λ task p. IsAnswered C.agrees (agreed_by (C.marks cluster.new)) (note_of task).0.value.packets (P.state (note_of task).0.value.port) (P.state p))
        result.port result.short }
{
    match answering {
        None => Left {
            port: None,
            short: false,
        },
        Some(Answering::Started(task)) => {
            let (port, short) = finish_one(rt, cluster, task);
            Left {
                port: Some(port),
                short,
            }
        }
        Some(Answering::Refused(port)) => Left {
            port: Some(port),
            short: false,
        },
    }
}
