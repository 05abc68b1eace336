//! What turns do with a cluster that serves.

ghost use Rattle.std.specs.Prelude.{◌≡◌, ◌<◌, [], IfOk, OnErr, OnOk, length, reverse};
ghost use Rattle.cat_model.specs.Log.{commands_of};
ghost use Rattle.cluster_rules.specs.Cluster.{clock_of};
ghost use Rattle.cluster_rules.specs.Reached.{MayBegin};
ghost use Rattle.cluster_requests.specs.Taking.{IsNumberAt};
ghost use Rattle.http_exchanges.specs.Collects.{Collects};
ghost use Rattle.http_exchanges.specs.Marks.{AddsAsked, AddsCut, AddsQuiet, Agents, AreKept, Delivers, Servers, TicksAll, TicksBy, TicksNone, agreed_by};
ghost use Rattle.http_exchanges.specs.Turns.{MayAsk};
ghost use Rattle.http_front.specs.Shown.{ShowsOver};
ghost use Rattle.http_front.specs.Shared.{IsOpen, Sifts, shared_of};
ghost use Rattle.http_front.specs.Ticks.{TicksEach, TicksOne, TicksOnly, TicksWholly};

use crate::cluster::{ClusterSize, ServingCluster};
use cat_model::{Entry, Event, Memory};
use cluster_interface::ClusterInterface;
use http_exchanges::{Ask, Collected};
use std::alloc::Global;

// A request's reply, or what else there is of a request that is not closed.
fn shared(collected: cluster_requests::Collected) -> Collected
    requires { IsOpen collected }
    ensures { result ≡ shared_of collected }
{
    match collected {
        cluster_requests::Collected::Ready(reply) => Collected::Ready(reply),
        cluster_requests::Collected::Closed { .. } => unreachable!(),
        cluster_requests::Collected::NotYet(_) => Collected::NotYet,
        cluster_requests::Collected::Gone => Collected::Gone,
    }
}

// Whether one of the outs that wait, from this place on, is a sync's.
fn has_sync<S: ClusterInterface>(cluster: &S, from: usize) -> bool {
    for at in from..cluster.outs() {
        if cluster.out_number(at).is_none() {
            return true;
        }
    }
    false
}

// Drops the outs of syncs, if there are any from this place on.
fn drop_syncs_from<S: ClusterInterface>(cluster: &mut S, from: usize)
    ensures { Sifts (S.state cluster.old) (S.state cluster.new) }
{
    if has_sync(cluster, from) {
        cluster.drop_syncs();
    }
}

impl<J: ClusterSize, S: ClusterInterface> ServingCluster<J, S> {
    // The clock of a server goes on. One that is at its end stays there.
    fn tick(&mut self, alloc: Global, server: u32, ms: u64) -> Result<(), Memory>
        ensures quiet { AddsQuiet (reverse self.old.past) (reverse self.new.past) }
        ensures ticks { TicksOne Servers server ms (reverse self.old.past) (reverse self.new.past) }
        ensures wholly { OnOk result (TicksWholly Servers server ms self.old self.new) }
    {
        let tick = Event::Tick(server, ms);
        let fits = self.cluster.fits(&tick);
        match fits {
            Ok(()) => self.cluster.step(alloc, tick),
            Err(_) => {
                drop(tick);
                Ok(())
            }
        }
    }

    // The clocks of all servers go on, one after another. No agent's does.
    fn tick_servers(&mut self, alloc: Global, ms: u64) -> Result<(), Memory>
        ensures quiet { AddsQuiet (reverse self.old.past) (reverse self.new.past) }
        ensures ticks { TicksOnly Servers ms (reverse self.old.past) (reverse self.new.past) }
        ensures each { OnOk result (TicksEach Servers (length self.old.servers) ms self.old self.new) }
    {
        let last = self.cluster.servers();
        let mut server = 0;
        while server < last {
            server += 1;
            match self.tick(alloc, server, ms) {
                Ok(()) => {}
                Err(Memory) => return Err(Memory),
            }
        }
        Ok(())
    }

    // The clock of an agent goes on, and with it what the agent does by itself. It has no end.
    fn tick_agent(&mut self, alloc: Global, agent: u32, ms: u64) -> Result<(), Memory>
        ensures quiet { AddsQuiet (reverse self.old.past) (reverse self.new.past) }
        ensures ticks { TicksOne Agents agent ms (reverse self.old.past) (reverse self.new.past) }
        ensures wholly { OnOk result (TicksWholly Agents agent ms self.old self.new) }
    {
        let tick = Event::AgentTick(agent, ms);
        let fits = self.cluster.fits(&tick);
        match fits {
            Ok(()) => self.cluster.step(alloc, tick),
            Err(_) => {
                drop(tick);
                Ok(())
            }
        }
    }

    // The clocks of all agents go on, one after another. No server's does.
    fn tick_agents(&mut self, alloc: Global, ms: u64) -> Result<(), Memory>
        ensures quiet { AddsQuiet (reverse self.old.past) (reverse self.new.past) }
        ensures ticks { TicksOnly Agents ms (reverse self.old.past) (reverse self.new.past) }
        ensures each { OnOk result (TicksEach Agents J.size.agents ms self.old self.new) }
    {
        let last = self.cluster.agents();
        let mut agent = 0;
        while agent < last {
            agent += 1;
            match self.tick_agent(alloc, agent, ms) {
                Ok(()) => {}
                Err(Memory) => return Err(Memory),
            }
        }
        Ok(())
    }

    // All clocks go on, those of servers first.
    fn go_on(&mut self, alloc: Global, ms: u64) -> Result<(), Memory>
        ensures quiet { AddsQuiet (reverse self.old.past) (reverse self.new.past) }
        ensures ticks { TicksBy ms (reverse self.old.past) (reverse self.new.past) }
        ensures all { OnOk result (TicksAll (length self.old.servers) J.size.agents (λ s. clock_of self.old.world s) ms (reverse self.old.past) (reverse self.new.past)) }
    {
        match self.tick_servers(alloc, ms) {
            Ok(()) => self.tick_agents(alloc, ms),
            Err(Memory) => Err(Memory),
        }
    }

    // Asks an agent that is there.
    pub(crate) fn ask_agent(&mut self, alloc: Global, ask: &Ask) -> Result<u64, Memory>
        requires { MayAsk J.size.agents ask.now }
        ensures asked { IfOk result (λ number. AddsAsked number ask.now (reverse self.old.past) (reverse self.new.past)) }
        ensures cut { OnErr result (AddsCut (reverse self.old.past) (reverse self.new.past)) }
        ensures unticked { TicksNone (reverse self.old.past) (reverse self.new.past) }
    {
        self.cluster.ask(alloc, ask.agent, &ask.asked, ask.draw)
    }

    // Delivers the messages between servers.
    fn deliver(&mut self, alloc: Global, most: u32) -> Result<u32, Memory>
        ensures quiet { AddsQuiet (reverse self.old.past) (reverse self.new.past) }
        ensures unticked { TicksNone (reverse self.old.past) (reverse self.new.past) }
        ensures delivered { IfOk result (λ count. Delivers most (self.new.world.bag.packets ≡ []) count (reverse self.old.past) (reverse self.new.past)) }
    {
        self.cluster.settle(alloc, most)
    }

    // Drops the outs of syncs, which nobody takes here: so none of them waits at the start of a turn. Only those outs are
    // looked at that have come since the last time, since thousands of others may wait. Since then one was taken at most.
    fn drop_syncs(&mut self)
        ensures past { self.new.past ≡ self.old.past }
        ensures world { self.new.world ≡ self.old.world }
    {
        drop_syncs_from(&mut self.cluster, self.sifted.saturating_sub(1));
        self.sifted = self.cluster.outs();
    }

    // Takes a request's reply, if it is there. No request is closed, since no server restarts.
    pub(crate) fn take_reply(&mut self, number: u64) -> Collected
        ensures got { Collects (ShowsOver J.size.stores) number result (reverse self.old.past) (reverse self.new.past) }
        ensures world { self.new.world ≡ self.old.world }
    {
        let collected = self.cluster.collect(number);
        shared(collected)
    }
}

impl<J: ClusterSize, S: ClusterInterface> ServingCluster<J, S> {
    // Each number is asked at most once and answered at most once, and only what was asked is taken.
    pub(crate) fn kept(&self)
        ensures { AreKept (reverse self.now.past) }
    {
        // What the type keeps is at hand once the cluster is read, whatever is read of it.
        self.cluster.asked();
    }

    // The agreed log, which the marks tell.
    pub(crate) fn agreed(&self) -> &[Entry]
        ensures log { MayBegin J.size.stores → agreed_by (reverse self.now.past) ≡ commands_of result.now }
    {
        self.cluster.agreed()
    }

    // All clocks go on, if that is by some time.
    pub(crate) fn advance(&mut self, alloc: Global, ms: u64) -> Result<(), Memory>
        ensures quiet { AddsQuiet (reverse self.old.past) (reverse self.new.past) }
        ensures ticks { TicksBy ms (reverse self.old.past) (reverse self.new.past) }
        ensures all { OnOk result (0 < ms → TicksAll (length self.old.servers) J.size.agents (λ s. clock_of self.old.world s) ms (reverse self.old.past) (reverse self.new.past)) }
    {
        if ms == 0 {
            return Ok(());
        }
        self.go_on(alloc, ms)
    }

    // Delivers the messages between servers, and drops the outs of syncs.
    pub(crate) fn settle(&mut self, alloc: Global, most: u32) -> Result<u32, Memory>
        ensures quiet { AddsQuiet (reverse self.old.past) (reverse self.new.past) }
        ensures unticked { TicksNone (reverse self.old.past) (reverse self.new.past) }
        ensures delivered { IfOk result (λ count. Delivers most (self.new.world.bag.packets ≡ []) count (reverse self.old.past) (reverse self.new.past)) }
    {
        let settled = self.deliver(alloc, most);
        self.drop_syncs();
        settled
    }

    // How many outs wait to be taken.
    pub(crate) fn outs(&self) -> usize
        ensures { result ≡ length self.now.tray }
    {
        self.cluster.outs()
    }

    // The number of the request whose out stands at this place of those that wait, where it is a request's.
    pub(crate) fn out_number(&self, at: usize) -> Option<u64>
        requires { at < length self.now.tray }
        ensures { IsNumberAt at self.now.tray result }
    {
        self.cluster.out_number(at)
    }
}
