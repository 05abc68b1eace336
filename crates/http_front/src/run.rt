//! A server, from its options to its last line.

ghost use Rattle.std.specs.Prelude.{◌≡◌, ◌<◌, [], All, Err, IfErr, IfOk, MatchResult, Ok, OnErr, OnOk, Some, false, length, map};
ghost use Rattle.std.specs.Option.{ForSome};
ghost use Rattle.std.specs.Io.KnownBytes.{Appends};
ghost use Rattle.cluster_rules.specs.Step.{events_in};
ghost use Rattle.script_player.specs.Run.{IsReportOf, WritesPart};
ghost use Rattle.script_player.specs.Text.{last_text};
ghost use Rattle.run_rules.specs.Plays.{Whole};
ghost use Rattle.http_connections.specs.declared.run.Stop.TheVariants as loop;
ghost use Rattle.http_connections.specs.Runs.{HasDrawn};
ghost use Rattle.cluster_interface.specs.Starting.{KeepsLimits, store_of};
ghost use Rattle.run_rules.specs.Serving.{Serves};
ghost use Rattle.http_front.specs.Asked.{IsUnasked};
ghost use Rattle.http_front.specs.Names.{GivesPortBack};
ghost use Rattle.http_front.specs.Options.{IsWithin};
ghost use Rattle.http_front.specs.Served as spec;

use crate::cluster::{ClusterSize, ServingCluster};
use crate::connections::serve_closing;
use crate::machine::Machine;
use crate::options::Options;
use crate::ports::listen;
use crate::start::begin_over;
use crate::stop::Stop;
use crate::stores::make_stores;
use cat_model::{List, Memory};
use cluster_interface::ClusterInterface;
use datagram_outside::{DatagramPort, Datagrams};
use outside::{KeepFail, Keeper, Sink};
use script_player::{Report, write_report};
use serve_outside::{Clock, Gate, Keepers, Listener, Spawner, Words};
use stale_view::{Opened, PairName, Publisher, Viewer, stale_pair};
use std::alloc::Global;
use std::marker::Brand;
use std::sync::Wait;
use std::thread::Threads;

/// How many stale reads are answered at once without one waiting for another. Whatever shows viewers what is agreed visits
/// the place of each.
const READERS: u32 = 32;

// How many viewers read at once: one more where questions of names are answered.
fn readers(options: &Options<'_>) -> u32
    ensures { 0 < result }
{
    match options.dns {
        Some(_) => READERS + 1,
        None => READERS,
    }
}

// Writes the last line, and reports what the cluster was led to. A count of events that fits no number is told as lack of
// memory.
fn report<J: ClusterSize, S: ClusterInterface, Si: Sink>(
    alloc: Global,
    sink: &mut Si,
    cluster: ServingCluster<J, S>,
) -> Result<Report, Stop>
    ensures text { OnOk result (Appends (Si.held sink.old) (Si.held sink.new) (last_text Whole cluster)) }
    ensures part { OnErr result (WritesPart (Si.held sink.old) (Si.held sink.new) (last_text Whole cluster)) }
    ensures report { IfOk result (IsReportOf cluster (events_in cluster.past)) }
    ensures serves { Serves J.size cluster }
    ensures other { IfErr result (λ why. why ≡ Stop.Listener → ⊥) }
    ensures cause { MatchResult result (λ _. Si.faults sink.new ≡ Si.faults sink.old) (λ why. spec.CountsSink why (Si.faults sink.old) (Si.faults sink.new)) }
{
    let servers = cluster.into_cluster();
    let Some(events) = servers.events() else {
        drop(servers);
        return Err(Stop::Memory);
    };
    match write_report(alloc, sink, servers, events) {
        Ok(report) => Ok(report),
        Err(fail) => Err(Stop::from(fail)),
    }
}

fn discard(_: Report) {}

// Ends a run of connections that ended so. Where memory was wanting beside them that ends it.
fn end<J: ClusterSize, S: ClusterInterface, Si: Sink>(
    alloc: Global,
    sink: &mut Si,
    cluster: ServingCluster<J, S>,
    ended: Result<(), http_connections::Stop>,
    short: bool,
) -> Result<Report, Stop>
    ensures text { OnOk result (Appends (Si.held sink.old) (Si.held sink.new) (last_text Whole cluster)) }
    ensures part { OnErr result (WritesPart (Si.held sink.old) (Si.held sink.new) (last_text Whole cluster)) }
    ensures lined { IfErr result (λ why. why ≡ Stop.Listener → Appends (Si.held sink.old) (Si.held sink.new) (last_text Whole cluster)) }
    ensures report { IfOk result (IsReportOf cluster (events_in cluster.past)) }
    ensures whole { OnOk result ((ended ≡ Ok tt) × (short ≡ false)) }
    ensures failed { IfErr result (λ why. why ≡ Stop.Listener → ended ≡ Err loop.Listener) }
    ensures serves { Serves J.size cluster }
    ensures cause { MatchResult result (λ _. Si.faults sink.new ≡ Si.faults sink.old) (λ why. spec.CountsSink why (Si.faults sink.old) (Si.faults sink.new)) }
{
    if short {
        return Err(Stop::Memory);
    }
    match ended {
        Ok(()) => report(alloc, sink, cluster),
        Err(http_connections::Stop::Listener) => match report(alloc, sink, cluster) {
            Ok(report) => {
                discard(report);
                Err(Stop::Listener)
            }
            Err(why) => Err(why),
        },
        Err(http_connections::Stop::Memory) => Err(Stop::Memory),
    }
}

// Serves by a cluster of this size, from the line that says where it listens to the last one.
fn serve_begun<
    J: ClusterSize + PairName + Send + Sync + 'static,
    S: ClusterInterface + Send + 'static,
    R: Threads + Wait + Copy + Send + Drop + 'static,
    Cl: Clock + Copy + Send + Drop + 'static,
    G: Gate + Send + Sync + Drop + 'static,
    Si: Sink,
    L: Listener,
    W: Words,
    Sp: Spawner,
    D: Datagrams,
>(
    machine: Machine<R, Cl, G>,
    options: &Options<'_>,
    cluster: ServingCluster<J, S>,
    pair: (Publisher<J, R>, Viewer<J>),
    sink: &mut Si,
    listener: &mut L,
    words: &mut W,
    spawner: &mut Sp,
    datagrams: &mut D,
) -> Result<Report, Stop>
where
    L::Link: Send + 'static,
    S::K: Send + 'static,
    D::Port: Send + 'static,
    <D::Port as DatagramPort>::Peer: Send + 'static,
    requires new { pair.0.taken ≡ [] }
    requires unasked { IsUnasked cluster }
    requires fits { spec.Fits options.now J.size }
    requires bounds { IsWithin options.now }
    requires fresh { (L.given listener.old ≡ 0) × HasDrawn (W.draws words.old) 0 }
    ensures served { IfOk result (spec.ServedBy J.size options.now (W.draws words.new) (L.closed listener.old) (L.closed listener.new) (Sp.faults spawner.old) (Sp.faults spawner.new) (L.given listener.new) (L.listens_on listener.new) (D.closed datagrams.old) (D.closed datagrams.new) (Si.held sink.old) (Si.held sink.new)) }
    ensures back { spec.GivesBack options.now (W.draws words.new) (L.closed listener.old) (L.closed listener.new) (Sp.faults spawner.old) (Sp.faults spawner.new) (L.given listener.new) }
    ensures ports { GivesPortBack options.now.dns (D.closed datagrams.old) (D.closed datagrams.new) }
    ensures part { OnErr result (spec.WritesFront options.now (Si.held sink.old) (Si.held sink.new)) }
    ensures lined { IfErr result (λ why. why ≡ Stop.Listener → spec.WritesWhole options.now (Si.held sink.old) (Si.held sink.new)) }
    ensures cause { MatchResult result (λ _. Si.faults sink.new ≡ Si.faults sink.old)
        (λ why. spec.CountsServing why (L.faults listener.old) (L.faults listener.new) (Si.faults sink.old) (Si.faults sink.new)) }
    ensures binds { MatchResult result (λ _. D.faults datagrams.new ≡ D.faults datagrams.old) (λ why. spec.CountsBinds why (D.faults datagrams.old) (D.faults datagrams.new)) }
    ensures unbound { IfErr result (λ why. why ≡ Stop.Datagrams → (sink.new ≡ sink.old) × (words.new ≡ words.old) × (spawner.new ≡ spawner.old)
        × (L.given listener.new ≡ L.given listener.old) × (L.closed listener.new ≡ L.closed listener.old) × (D.closed datagrams.new ≡ D.closed datagrams.old)) }
{
    let alloc = machine.alloc;
    match listen(alloc, sink, listener, datagrams, options) {
        Ok(names) => match serve_closing(
            machine, cluster, pair, options, names, listener, words, spawner, datagrams,
        ) {
            Ok((cluster, ended, short)) => end(alloc, sink, cluster, ended, short),
            Err(Memory) => Err(Stop::Memory),
        },
        Err(why) => Err(why),
    }
}

// Serves by a cluster over these stores, of the size that `J` tells.
fn serve_sized<
    J: ClusterSize + PairName + Send + Sync + 'static,
    S: ClusterInterface + Send + 'static,
    R: Threads + Wait + Copy + Send + Drop + 'static,
    Cl: Clock + Copy + Send + Drop + 'static,
    G: Gate + Send + Sync + Drop + 'static,
    Si: Sink,
    L: Listener,
    W: Words,
    Sp: Spawner,
    Ks: Keepers<K = S::K>,
    D: Datagrams,
>(
    machine: Machine<R, Cl, G>,
    options: &Options<'_>,
    stores: List<Ks::K>,
    opened: Opened,
    sink: &mut Si,
    listener: &mut L,
    words: &mut W,
    spawner: &mut Sp,
    keepers: &mut Ks,
    datagrams: &mut D,
) -> Result<Report, Stop>
where
    L::Link: Send + 'static,
    S::K: Send + 'static,
    D::Port: Send + 'static,
    <D::Port as DatagramPort>::Peer: Send + 'static,
    requires named { opened.front.book ≡ J.book }
    requires size { J.size ≡ record { stores = map (λ k. store_of (S.K.held k) (S.K.armed k) (S.K.faults k) (S.K.sure k)) stores; agents = options.now.agents } }
    requires fits { spec.Fits options.now J.size }
    requires count { length stores ≡ options.now.servers }
    requires unused { All (λ k. (S.K.armed k ≡ 0) × (S.K.faults k ≡ 0)) stores }
    requires limits { All (λ k. ForSome (S.K.held k) KeepsLimits) stores }
    requires bounds { IsWithin options.now }
    requires fresh { (L.given listener.old ≡ 0) × HasDrawn (W.draws words.old) 0 }
    ensures served { IfOk result (spec.ServedBy J.size options.now (W.draws words.new) (L.closed listener.old) (L.closed listener.new) (Sp.faults spawner.old) (Sp.faults spawner.new) (L.given listener.new) (L.listens_on listener.new) (D.closed datagrams.old) (D.closed datagrams.new) (Si.held sink.old) (Si.held sink.new)) }
    ensures back { spec.GivesBack options.now (W.draws words.new) (L.closed listener.old) (L.closed listener.new) (Sp.faults spawner.old) (Sp.faults spawner.new) (L.given listener.new) }
    ensures ports { GivesPortBack options.now.dns (D.closed datagrams.old) (D.closed datagrams.new) }
    ensures part { OnErr result (spec.WritesFront options.now (Si.held sink.old) (Si.held sink.new)) }
    ensures lined { IfErr result (λ why. why ≡ Stop.Listener → spec.WritesWhole options.now (Si.held sink.old) (Si.held sink.new)) }
    ensures cause { MatchResult result (λ _. Si.faults sink.new ≡ Si.faults sink.old)
        (λ why. spec.CountsStop why (L.faults listener.old) (L.faults listener.new) (Si.faults sink.old) (Si.faults sink.new)) }
    ensures keepers { MatchResult result (λ _. Ks.faults keepers.new ≡ Ks.faults keepers.old) (λ why. spec.CountsKeepers why (Ks.faults keepers.old) (Ks.faults keepers.new)) }
    ensures untouched { IfErr result (λ why. why ≡ Stop.Keepers → (sink.new ≡ sink.old) × (listener.new ≡ listener.old) × (words.new ≡ words.old) × (spawner.new ≡ spawner.old) × (datagrams.new ≡ datagrams.old)) }

    // That a port of names could not be bound is counted too, and then nothing was written or served.
    ensures binds { MatchResult result (λ _. D.faults datagrams.new ≡ D.faults datagrams.old) (λ why. spec.CountsBinds why (D.faults datagrams.old) (D.faults datagrams.new)) }
    ensures unbound { IfErr result (λ why. why ≡ Stop.Datagrams → (sink.new ≡ sink.old) × (words.new ≡ words.old) × (spawner.new ≡ spawner.old)
        × (L.given listener.new ≡ L.given listener.old) × (L.closed listener.new ≡ L.closed listener.old) × (D.closed datagrams.new ≡ D.closed datagrams.old)) }
    ensures made { Ks.made keepers.new ≡ Ks.made keepers.old }
{
    let places = readers(options);
    let Ok(pair) = stale_pair::<J, R>(machine.alloc, machine.rt, opened, places) else {
        return Err(Stop::Memory);
    };
    match begin_over::<J, S, Ks>(machine.alloc, keepers, stores, options.agents) {
        Ok(cluster) => serve_begun(
            machine, options, cluster, pair, sink, listener, words, spawner, datagrams,
        ),
        Err(KeepFail::Failed) => Err(Stop::Keepers),
        Err(KeepFail::Memory) => Err(Stop::Memory),
    }
}

/// Serves as the options say, over servers of the type `S`, whose stores are made first, those of servers 1, 2, .. in
/// this order, and read: server 1 stands for election, the port is listened on, which a line says, and so many connections
/// are served, each by a job of its own. Then comes the last line, which tells the length of the agreed log and the
/// requests without a reply. The report is of the cluster that is left. Where the options ask for answers to questions of
/// names, their port is bound before the first line, and a job of its own answers them beside the connections.
pub fn serve<
    S: ClusterInterface + Send + 'static,
    R: Threads + Wait + Copy + Send + Drop + 'static,
    Cl: Clock + Copy + Send + Drop + 'static,
    G: Gate + Send + Sync + Drop + 'static,
    Si: Sink,
    L: Listener,
    W: Words,
    Sp: Spawner,
    Ks: Keepers<K = S::K>,
    D: Datagrams,
>(
    machine: Machine<R, Cl, G>,
    options: &Options<'_>,
    sink: &mut Si,
    listener: &mut L,
    words: &mut W,
    spawner: &mut Sp,
    keepers: &mut Ks,
    datagrams: &mut D,
) -> Result<Report, Stop>
where
    L::Link: Send + 'static,
    S::K: Send + 'static,
    D::Port: Send + 'static,
    <D::Port as DatagramPort>::Peer: Send + 'static,
    requires bounds { IsWithin options.now }
    requires fresh { (L.given listener.old ≡ 0) × HasDrawn (W.draws words.old) 0 }
    ensures served { IfOk result (spec.Served options.now (Ks.made keepers.old) (Ks.made keepers.new) (W.draws words.new) (L.closed listener.old) (L.closed listener.new) (Sp.faults spawner.old) (Sp.faults spawner.new) (L.given listener.new) (L.listens_on listener.new) (D.closed datagrams.old) (D.closed datagrams.new) (Si.held sink.old) (Si.held sink.new)) }
    ensures back { spec.GivesBack options.now (W.draws words.new) (L.closed listener.old) (L.closed listener.new) (Sp.faults spawner.old) (Sp.faults spawner.new) (L.given listener.new) }
    ensures ports { GivesPortBack options.now.dns (D.closed datagrams.old) (D.closed datagrams.new) }
    ensures part { OnErr result (spec.WritesFront options.now (Si.held sink.old) (Si.held sink.new)) }
    ensures lined { IfErr result (λ why. why ≡ Stop.Listener → spec.WritesWhole options.now (Si.held sink.old) (Si.held sink.new)) }
    ensures cause { MatchResult result (λ _. Si.faults sink.new ≡ Si.faults sink.old)
        (λ why. spec.CountsStop why (L.faults listener.old) (L.faults listener.new) (Si.faults sink.old) (Si.faults sink.new)) }

    // That a store could not be made or read is counted, and then nothing else was touched.
    ensures keepers { MatchResult result (λ _. Ks.faults keepers.new ≡ Ks.faults keepers.old) (λ why. spec.CountsKeepers why (Ks.faults keepers.old) (Ks.faults keepers.new)) }
    ensures untouched { IfErr result (λ why. why ≡ Stop.Keepers → (sink.new ≡ sink.old) × (listener.new ≡ listener.old) × (words.new ≡ words.old) × (spawner.new ≡ spawner.old) × (datagrams.new ≡ datagrams.old)) }

    // That a port of names could not be bound is counted too, and then nothing was written or served.
    ensures binds { MatchResult result (λ _. D.faults datagrams.new ≡ D.faults datagrams.old) (λ why. spec.CountsBinds why (D.faults datagrams.old) (D.faults datagrams.new)) }
    ensures unbound { IfErr result (λ why. why ≡ Stop.Datagrams → (sink.new ≡ sink.old) × (words.new ≡ words.old) × (spawner.new ≡ spawner.old)
        × (L.given listener.new ≡ L.given listener.old) × (L.closed listener.new ≡ L.closed listener.old) × (D.closed datagrams.new ≡ D.closed datagrams.old)) }
{
    match make_stores(machine.alloc, keepers, options) {
        Ok(stores) => serve_sized::<Brand, S, R, Cl, G, Si, L, W, Sp, Ks, D>(
            machine,
            options,
            stores,
            Opened::new(),
            sink,
            listener,
            words,
            spawner,
            keepers,
            datagrams,
        ),
        Err(KeepFail::Failed) => Err(Stop::Keepers),
        Err(KeepFail::Memory) => Err(Stop::Memory),
    }
}
