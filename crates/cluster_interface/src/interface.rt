ghost use Rattle.std.specs.Prelude.{◌≡◌, ◌<◌, ◌≤◌, All, IfErr, IfOk, IfSome, OnErr, OnOk, MatchResult, None, Some, length, map, true};
ghost use Rattle.std.specs.Option.{ForSome};
ghost use Rattle.cat_model.specs.declared.request.Event.TheVariants as event;
ghost use Rattle.cluster_rules.specs.Cluster.{Cluster, applied_of};
ghost use Rattle.cluster_rules.specs.Reached.{IsAgentNumber};
ghost use Rattle.cluster_rules.specs.Step.{ClusterStep, events_in};
ghost use Rattle.cluster_order.specs.Pairs.{IsPartlySettled};
ghost use Rattle.cluster_order.specs.Turns.{FindsNoMemory};
ghost use Rattle.run_rules.specs.Lines.{misfit};
ghost use Rattle.cluster_rules.specs.Reached.{IsBegun};
ghost use Rattle.cat_model.specs.Taken.{IsTakenAsked};
ghost use Rattle.cluster_interface.specs.Interface.{IsPlayed, SettlesTo, TakesFirst, held_numbers};
ghost use Rattle.cluster_interface.specs.Starting.{HasFailed, KeepsLimits, store_of};
ghost use Rattle.cluster_interface.specs.Taking.{Collects, DropsSyncs};
ghost use Rattle.cluster_requests.specs.Taking.{IsNumberAt};

use cat_model::{Asked, Draw, Entry, Event, List, Memory, Shared};
use cluster_requests::{Collected, Out};
use outside::{KeepFail, Keeper};
use run_rules::Misfit;
use std::alloc::Global;

/// A cluster of servers and agents, numbered from 1, with the outs that wait to be taken. The marks of what has happened
/// are for proofs alone.
pub trait ClusterInterface: Drop {
    /// The cluster of the rules.
    ghost state: { Self → Cluster };

    /// The durable store of a server.
    type K: Keeper + Drop;

    /// A server for each of these stores, in their order, which begins with what its store holds, and so many agents,
    /// that nothing has happened to yet. Where a store cannot be read, which it has counted, or there is no memory, all
    /// are handed back.
    fn start(
        alloc: Global,
        keepers: List<Self::K>,
        agents: u32,
    ) -> Result<Self, (List<Self::K>, KeepFail)>
        requires some { 0 < length keepers }
        requires most { length keepers ≤ 7 }
        requires few { agents ≤ 64 }
        requires unarmed { All (λ k. Self.K.armed k ≡ 0) keepers }
        requires limits { All (λ k. ForSome (Self.K.held k) KeepsLimits) keepers }
        ensures begun { IfOk result (λ s. IsBegun (map (λ k. store_of (Self.K.held k) (Self.K.armed k) (Self.K.faults k) (Self.K.sure k)) keepers) (state s)) }
        ensures agents { IfOk result (λ s. length (state s).agents ≡ agents) }
        ensures cause { IfErr result (λ why. why.1 ≡ KeepFail.Failed → HasFailed (map (λ k. Self.K.faults k) keepers) (map (λ k. Self.K.faults k) why.0)) };

    /// Whether the event fits: what it names is there, and no clock passes its end.
    fn fits(&self, event: &Event) -> Result<(), Misfit>
        ensures { MatchResult result (λ _. misfit (state self.now) event.now ≡ None) (λ why. misfit (state self.now) event.now ≡ Some why) };

    /// Makes the event, whole. What it gives waits to be taken. After `Memory` nothing has changed, or the event was
    /// cut short.
    fn step(&mut self, alloc: Global, event: Event) -> Result<(), Memory>
        requires fits { misfit (state self.old) event ≡ None }
        requires built { IsPlayed event }
        ensures whole { OnOk result (ClusterStep (state self.old) event (state self.new) true) }
        ensures cut { OnErr result (FindsNoMemory event (state self.old) (state self.new)) };

    /// Asks an agent, and gives the request's number. What it gives waits to be taken. After `Memory` nothing has
    /// changed, or the event was cut short.
    fn ask(
        &mut self,
        alloc: Global,
        agent: u32,
        asked: &Shared<Asked>,
        draw: Draw,
    ) -> Result<u64, Memory>
        requires agent { IsAgentNumber (state self.old) agent }
        requires built { IsTakenAsked asked.now }
        ensures whole { OnOk result (ClusterStep (state self.old) (event.Ask agent asked.now draw) (state self.new) true) }
        ensures number { IfOk result (λ number. number ≡ (state self.new).asked) }
        ensures cut { OnErr result (FindsNoMemory (event.Ask agent asked.now draw) (state self.old) (state self.new)) };

    /// Delivers messages and then loses them, the lowest first: so many, or until none is left. Says how many.
    fn settle(&mut self, alloc: Global, most: u32) -> Result<u32, Memory>
        ensures whole { IfOk result (SettlesTo most (state self.old) (state self.new)) }
        ensures cut { OnErr result (IsPartlySettled most (state self.old) (state self.new)) };

    /// Takes the first out that waits, and marks that a request's was taken.
    fn next_out(&mut self) -> Option<Out>
        ensures { TakesFirst (state self.old) (state self.new) result };

    /// Takes a request's reply or closing, or says what the request waits for. There is neither where it was taken
    /// before or never asked.
    fn collect(&mut self, number: u64) -> Collected
        ensures { Collects number result (state self.old) (state self.new) };

    /// Lets go of the outs of syncs, for which no request waits. It takes no memory.
    fn drop_syncs(&mut self)
        ensures { DropsSyncs (state self.old) (state self.new) };

    /// How many outs wait to be taken.
    fn outs(&self) -> usize
        ensures { result ≡ length (state self.now).tray };

    /// The number of the request whose out stands at this place of those that wait, where it is a request's.
    fn out_number(&self, at: usize) -> Option<u64>
        requires { at < length (state self.now).tray }
        ensures { IsNumberAt at (state self.now).tray result };

    /// How many requests were asked.
    fn asked(&self) -> u64
        ensures { result ≡ (state self.now).asked };

    /// How many agents there are.
    fn agents(&self) -> u32
        ensures { result ≡ length (state self.now).agents };

    /// How many servers there are.
    fn servers(&self) -> u32
        ensures { result ≡ length (state self.now).servers };

    /// The agreed log.
    fn agreed(&self) -> &[Entry]
        ensures { result.now ≡ (state self.now).world.agreed };

    /// How many entries of the agreed log this server has applied.
    fn applied(&self, server: u32) -> u64
        requires some { 0 < server }
        requires there { server ≤ length (state self.now).servers }
        ensures { result ≡ length (applied_of (state self.now) server) };

    /// The numbers of the requests without a reply, in ascending order.
    fn unanswered(&self, alloc: Global) -> Result<List<u64>, Memory>
        ensures { IfOk result (λ numbers. numbers ≡ held_numbers (state self.now)) };

    /// How many events there were, as long as that fits.
    fn events(&self) -> Option<u64>
        ensures { IfSome result (λ events. events ≡ events_in (state self.now).past) };

    /// The agreed log of a cluster that is done with.
    fn into_agreed(self, alloc: Global) -> Result<List<Entry>, Memory>
        ensures { IfOk result (λ agreed. agreed ≡ (state self).world.agreed) };
}
