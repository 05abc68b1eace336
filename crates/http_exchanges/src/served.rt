//! What the turns lend: a cluster, and the time up to which its clocks have gone on.

ghost use Rattle.std.specs.Prelude.{◌≡◌, ◌<◌, IfOk, MatchResult, OnErr, OnOk};
ghost use Rattle.std.specs.Option.{ForSome};
ghost use mathlib.Core.List.{IsPrefix};
ghost use Rattle.http_exchanges.specs.Collects.{Collects};
ghost use Rattle.http_exchanges.specs.Marks.{AddsQuiet, AreKept, TicksAll, agreed_by, opens, takes};
ghost use Rattle.http_exchanges.specs.Turns.{Asks, Exchanges, FallsShort, GoesOn, Makes, MayAsk, Readies, Settles, StandsStill, Turns, passed};

use crate::cluster::{Ask, Collected, SharedCluster};
use cat_model::{Mark, Memory};
use serve_outside::Gate;
use stale_view::Viewer;
use std::alloc::Global;
use turn_lock::History;

/// The most messages that a turn settles.
const MOST: u32 = 4096;

/// The most milliseconds that a turn catches up on: a day.
const MOST_MS: u64 = 86_400_000;

/// The number by which whoever asks nothing waits. No request has it.
pub const NOBODY: u64 = 0;

/// A cluster, and the time of its clocks.
#[derive(Drop)]
pub struct Served<C: SharedCluster> {
    pub cluster: C,
    /// The outside clock's time up to which the cluster's clocks have gone on.
    pub last_ms: u64,
}

impl<C: SharedCluster> History for Served<C> {
    type Item = Mark;

    ghost items = { λ s. C.marks s.cluster };

    ghost opens = { opens };

    ghost takes = { takes };
}

/// What a turn gave: the number of its request, what there is of it, and how often the request had been woken by then.
#[derive(Drop)]
pub struct Turned {
    pub number: u64,
    pub got: Collected,
    pub rings: u64,
}

// Wakes the request of this number, where it is another than the turn's own.
fn wake_other<G: Gate>(gate: &G, number: u64, own: u64) {
    if number != own {
        gate.wake(number);
    }
}

impl<C: SharedCluster> Served<C> {
    // Lets the clocks go on to this time. What is more than a day is caught up on later, and a time before the last one
    // changes nothing.
    fn advance(&mut self, alloc: Global, now: u64) -> Result<(), Memory>
        ensures quiet { AddsQuiet (C.marks self.old.cluster) (C.marks self.new.cluster) }
        ensures time { GoesOn self.old.last_ms self.new.last_ms now (C.marks self.old.cluster) (C.marks self.new.cluster) }
        ensures all { OnOk result (0 < passed self.old.last_ms now → TicksAll (C.servers self.old.cluster) C.agents (C.clock self.old.cluster) (passed self.old.last_ms now) (C.marks self.old.cluster) (C.marks self.new.cluster)) }
    {
        let ms = now.saturating_sub(self.last_ms).min(MOST_MS);
        if ms == 0 {
            return Ok(());
        }
        self.last_ms += ms;
        self.cluster.advance(alloc, ms)
    }

    // Makes the ask, if there is one, and gives the number of the request that is waited for.
    fn make(&mut self, alloc: Global, ask: Option<Ask>, number: u64) -> Result<u64, Memory>
        requires { ForSome ask (MayAsk C.agents) }
        ensures made { MatchResult result
            (λ n. Makes ask number n (C.marks self.old.cluster) (C.marks self.new.cluster))
            (λ _. FallsShort ask (C.marks self.old.cluster) (C.marks self.new.cluster)) }
        ensures still { StandsStill self.old.last_ms self.new.last_ms (C.marks self.old.cluster) (C.marks self.new.cluster) }
    {
        match ask {
            Some(ask) => self.cluster.ask(alloc, ask),
            None => Ok(number),
        }
    }

    fn settle(&mut self, alloc: Global) -> Result<u32, Memory>
        ensures quiet { AddsQuiet (C.marks self.old.cluster) (C.marks self.new.cluster) }
        ensures still { StandsStill self.old.last_ms self.new.last_ms (C.marks self.old.cluster) (C.marks self.new.cluster) }
        ensures settled { OnOk result (Settles C.marks C.idle self.old.cluster self.new.cluster) }
    {
        self.cluster.settle(alloc, MOST)
    }

    fn collect(&mut self, number: u64) -> Collected
        ensures got { Collects C.shows number result (C.marks self.old.cluster) (C.marks self.new.cluster) }
        ensures still { StandsStill self.old.last_ms self.new.last_ms (C.marks self.old.cluster) (C.marks self.new.cluster) }
        ensures idle { C.idle self.old.cluster → C.idle self.new.cluster }
    {
        self.cluster.collect(number)
    }

    // Lets the clocks go on to this time, and settles what that brings.
    fn ready(&mut self, alloc: Global, now: u64) -> Result<(), Memory>
        ensures quiet { AddsQuiet (C.marks self.old.cluster) (C.marks self.new.cluster) }
        ensures time { GoesOn self.old.last_ms self.new.last_ms now (C.marks self.old.cluster) (C.marks self.new.cluster) }
        ensures readied { OnOk result (Readies C.marks C.idle C.servers C.agents C.clock self.old.last_ms now self.old.cluster self.new.cluster) }
    {
        match self.advance(alloc, now) {
            Ok(()) => match self.settle(alloc) {
                Ok(_) => Ok(()),
                Err(Memory) => Err(Memory),
            },
            Err(Memory) => Err(Memory),
        }
    }

    // Makes the ask and settles the messages.
    fn ask_and_settle(
        &mut self,
        alloc: Global,
        ask: Option<Ask>,
        number: u64,
    ) -> Result<u64, Memory>
        requires { ForSome ask (MayAsk C.agents) }
        ensures asks { MatchResult result
            (λ n. Asks C.marks C.idle ask number n self.old.cluster self.new.cluster)
            (λ _. FallsShort ask (C.marks self.old.cluster) (C.marks self.new.cluster)) }
        ensures still { StandsStill self.old.last_ms self.new.last_ms (C.marks self.old.cluster) (C.marks self.new.cluster) }
    {
        match self.make(alloc, ask, number) {
            Ok(number) => match self.settle(alloc) {
                Ok(_) => Ok(number),
                Err(Memory) => Err(Memory),
            },
            Err(Memory) => Err(Memory),
        }
    }

    // Wakes each request, but for that of this number, whose out stands at this place of those that wait or behind it.
    fn wake_others<G: Gate>(&self, gate: &G, from: usize, number: u64) {
        for at in from..self.cluster.outs() {
            if let Some(other) = self.cluster.out_number(at) {
                wake_other(gate, other, number);
            }
        }
    }

    // Shows viewers what is agreed, and then collects.
    fn show_and_collect<G: Gate>(
        &mut self,
        gate: &G,
        number: u64,
        viewer: &mut Viewer<C::Pair>,
    ) -> Result<Turned, Memory>
        ensures got { IfOk result (λ t. (t.number ≡ number) × Collects C.shows number t.got (C.marks self.old.cluster) (C.marks self.new.cluster)) }
        ensures none { OnErr result (C.marks self.new.cluster ≡ C.marks self.old.cluster) }
        ensures still { StandsStill self.old.last_ms self.new.last_ms (C.marks self.old.cluster) (C.marks self.new.cluster) }
        ensures idle { C.idle self.old.cluster → C.idle self.new.cluster }
        ensures viewed { IsPrefix viewer.old viewer.new }
        ensures read { OnOk result (C.agrees → viewer.new ≡ agreed_by (C.marks self.new.cluster)) }
    {
        match self.cluster.show(viewer) {
            Ok(()) => {
                let got = self.collect(number);
                let rings = gate.rings(number);
                Ok(Turned { number, got, rings })
            }
            Err(Memory) => Err(Memory),
        }
    }

    // Makes the ask and settles the messages, wakes the other requests whose outs are new since there were so many, shows
    // viewers what is agreed, and then collects.
    fn exchange<G: Gate>(
        &mut self,
        alloc: Global,
        gate: &G,
        outs: usize,
        ask: Option<Ask>,
        number: u64,
        viewer: &mut Viewer<C::Pair>,
    ) -> Result<Turned, Memory>
        requires { ForSome ask (MayAsk C.agents) }
        ensures exchanged { MatchResult result
            (λ t. Exchanges C.marks C.idle C.shows ask number t self.old.cluster self.new.cluster)
            (λ _. FallsShort ask (C.marks self.old.cluster) (C.marks self.new.cluster)) }
        ensures still { StandsStill self.old.last_ms self.new.last_ms (C.marks self.old.cluster) (C.marks self.new.cluster) }
        ensures viewed { IsPrefix viewer.old viewer.new }
        ensures read { OnOk result (C.agrees → viewer.new ≡ agreed_by (C.marks self.new.cluster)) }
    {
        match self.ask_and_settle(alloc, ask, number) {
            Ok(number) => {
                self.wake_others(gate, outs, number);
                self.show_and_collect(gate, number, viewer)
            }
            Err(Memory) => {
                self.wake_others(gate, outs, number);
                Err(Memory)
            }
        }
    }

    // A turn, of whose marks the contract says no more than that they go on.
    fn try_turn<G: Gate>(
        &mut self,
        alloc: Global,
        now: u64,
        gate: &G,
        ask: Option<Ask>,
        number: u64,
        viewer: &mut Viewer<C::Pair>,
    ) -> Result<Turned, Memory>
        requires { ForSome ask (MayAsk C.agents) }
        ensures turned { MatchResult result
            (λ t. Turns C.marks C.idle C.servers C.agents C.clock C.shows self.old.last_ms now ask number t self.old.cluster self.new.cluster)
            (λ _. FallsShort ask (C.marks self.old.cluster) (C.marks self.new.cluster)) }
        ensures time { GoesOn self.old.last_ms self.new.last_ms now (C.marks self.old.cluster) (C.marks self.new.cluster) }
        ensures viewed { IsPrefix viewer.old viewer.new }
        ensures read { OnOk result (C.agrees → viewer.new ≡ agreed_by (C.marks self.new.cluster)) }
    {
        let outs = self.cluster.outs();
        match self.ready(alloc, now) {
            Ok(()) => self.exchange(alloc, gate, outs, ask, number, viewer),
            Err(Memory) => {
                drop(ask);
                self.wake_others(gate, outs, number);
                Err(Memory)
            }
        }
    }

    /// The clocks go on by the time since the last turn, and what that brings is settled. Then the request is asked, if
    /// there is one, and settled, viewers are shown what is agreed by now, and that request is collected, else the one with
    /// this number. Each other request that was answered meanwhile is woken.
    pub fn turn<G: Gate>(
        &mut self,
        alloc: Global,
        now: u64,
        gate: &G,
        ask: Option<Ask>,
        number: u64,
        viewer: &mut Viewer<C::Pair>,
    ) -> Result<Turned, Memory>
        requires { ForSome ask (MayAsk C.agents) }
        ensures turned { MatchResult result
            (λ t. Turns C.marks C.idle C.servers C.agents C.clock C.shows self.old.last_ms now ask number t self.old.cluster self.new.cluster)
            (λ _. FallsShort ask (C.marks self.old.cluster) (C.marks self.new.cluster)) }
        ensures time { GoesOn self.old.last_ms self.new.last_ms now (C.marks self.old.cluster) (C.marks self.new.cluster) }
        ensures before { AreKept (C.marks self.old.cluster) }
        ensures after { AreKept (C.marks self.new.cluster) }
        ensures viewed { IsPrefix viewer.old viewer.new }
        ensures read { OnOk result (C.agrees → viewer.new ≡ agreed_by (C.marks self.new.cluster)) }
    {
        self.cluster.kept();
        let turned = self.try_turn(alloc, now, gate, ask, number, viewer);
        self.cluster.kept();
        turned
    }

    // Lets the clocks go on to this time, settles what that brings, and shows viewers what is agreed.
    fn ready_and_show(
        &mut self,
        alloc: Global,
        now: u64,
        viewer: &mut Viewer<C::Pair>,
    ) -> Result<(), Memory>
        ensures quiet { AddsQuiet (C.marks self.old.cluster) (C.marks self.new.cluster) }
        ensures time { GoesOn self.old.last_ms self.new.last_ms now (C.marks self.old.cluster) (C.marks self.new.cluster) }
        ensures readied { OnOk result (Readies C.marks C.idle C.servers C.agents C.clock self.old.last_ms now self.old.cluster self.new.cluster) }
        ensures viewed { IsPrefix viewer.old viewer.new }
        ensures read { OnOk result (C.agrees → viewer.new ≡ agreed_by (C.marks self.new.cluster)) }
    {
        match self.ready(alloc, now) {
            Ok(()) => self.cluster.show(viewer),
            Err(Memory) => Err(Memory),
        }
    }

    /// A turn that asks and collects nothing: the clocks go on by the time since the last turn, what that brings is
    /// settled, viewers are shown what is agreed by now, and each request that was answered is woken.
    pub fn keep_time<G: Gate>(
        &mut self,
        alloc: Global,
        now: u64,
        gate: &G,
        viewer: &mut Viewer<C::Pair>,
    ) -> Result<(), Memory>
        ensures quiet { AddsQuiet (C.marks self.old.cluster) (C.marks self.new.cluster) }
        ensures time { GoesOn self.old.last_ms self.new.last_ms now (C.marks self.old.cluster) (C.marks self.new.cluster) }
        ensures readied { OnOk result (Readies C.marks C.idle C.servers C.agents C.clock self.old.last_ms now self.old.cluster self.new.cluster) }
        ensures after { AreKept (C.marks self.new.cluster) }
        ensures viewed { IsPrefix viewer.old viewer.new }
        ensures read { OnOk result (C.agrees → viewer.new ≡ agreed_by (C.marks self.new.cluster)) }
    {
        let outs = self.cluster.outs();
        let readied = self.ready_and_show(alloc, now, viewer);
        self.wake_others(gate, outs, NOBODY);
        self.cluster.kept();
        readied
    }

    /// Shows viewers what is agreed. Nothing else happens.
    pub fn show(&mut self, viewer: &mut Viewer<C::Pair>) -> Result<(), Memory>
        ensures same { self.new ≡ self.old }
        ensures kept { AreKept (C.marks self.new.cluster) }
        ensures viewed { IsPrefix viewer.old viewer.new }
        ensures read { OnOk result (C.agrees → viewer.new ≡ agreed_by (C.marks self.new.cluster)) }
    {
        let shown = self.cluster.show(viewer);
        self.cluster.kept();
        shown
    }

    /// A law, which does nothing.
    pub fn kept(&self)
        ensures { AreKept (C.marks self.now.cluster) }
    {
        self.cluster.kept();
    }
}
