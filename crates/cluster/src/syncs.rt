//! Agents' events: those that go to no server, and the sync of an agent at the leader.

ghost use Rattle.std.specs.Prelude.{◌≡◌, ◌<◌, ◌^◌, IfErr, IfOk, None, OnErr, OnOk, Some, length, true};
ghost use Rattle.agent_state.specs.Own.{AreOwn};
ghost use Rattle.cluster_rules.specs.Cluster.{Cluster as SpecCluster, agent_of, runs_leading};
ghost use Rattle.cluster_rules.specs.Proposals.{is_agents, synced, with_agent};
ghost use Rattle.cluster_rules.specs.Reached.{Fits, IsAgentNumber, IsServerNumber};
ghost use Rattle.cluster_rules.specs.Requests.{is_ready};
ghost use Rattle.cluster_rules.specs.Step.{noted};
ghost use Rattle.cluster_order.specs.AgentEvents.{IsNoted, SyncsAt, SyncsInPart, SyncsThere, agent_in, event_of_agent};
ghost use Rattle.cluster.specs.Syncing.{IsPlan, PlansInPart, PlansWhole, cut_first, noted_alone, own_done, retagged};

use crate::cluster::Cluster;
use agent_state::OwnParts;
use anti_entropy::{RowPlan, plan_rows};
use cat_model::{Asked, Event, Memory, Request};
use cluster_order::{AgentEvent, Cut};
use node_rows::Retag;
use outside::Keeper;
use std::alloc::Global;
use std::ops::Deref;

// What the event's cut is where its sync has not begun.
fn cut_first(event: &AgentEvent) -> Cut
    ensures { result ≡ cut_first event.now }
{
    match event {
        AgentEvent::Sync { .. } => Cut::Before,
        AgentEvent::Tick { .. } => Cut::Within,
        AgentEvent::Ask { asked, .. } => match (*asked).deref() {
            Asked::Good(Request::Agent(_)) => Cut::Within,
            _ => Cut::Before,
        },
    }
}

// A plan that has fewer than 2^32 commands.
fn few(plan: RowPlan) -> Result<RowPlan, Memory>
    ensures { IfOk result (λ same. (same ≡ plan) × (length same.commands < 2 ^ 32)) }
{
    if plan.commands.len() > u32::MAX as usize {
        drop(plan);
        return Err(Memory);
    }
    Ok(plan)
}

impl<K: Keeper + Drop> Cluster<K> {
    /// Marks an agent's event. A request gets its number later.
    pub(crate) fn mark_agents(&mut self, event: &AgentEvent)
        ensures { self.new ≡ noted (event_of_agent event.now) self.old }
    {
        match event {
            AgentEvent::Sync { agent } => self.requests.note(&Event::Sync(*agent)),
            AgentEvent::Tick { agent, ms } => self.requests.note(&Event::AgentTick(*agent, *ms)),
            AgentEvent::Ask { agent, asked, draw } => {
                self.requests.note_request(*agent, asked, *draw);
            }
        }
    }

    /// An agent does its own part in an event that was noted, and its sync finds no leader.
    pub(crate) fn do_leaderless(&mut self, alloc: Global, event: &AgentEvent) -> Result<(), Memory>
        requires fits { Fits self.old (event_of_agent event.now) }
        requires agents { is_agents (event_of_agent event.now) ≡ true }
        requires come { IsNoted (event_of_agent event.now) self.old.past }
        ensures ok { OnOk result (self.new ≡ synced (agent_in (event_of_agent event.now)) None (own_done (event_of_agent event.now) self.old)) }
        ensures err { OnErr result (self.new ≡ self.old) }
    {
        let agent = event.agent();
        self.tell_leaderless(agent)?;
        if self.do_own(alloc, event).is_err() {
            self.take_back(agent);
            return Err(Memory);
        }
        Ok(())
    }

    /// The same, where a sync may be a part of it or not.
    pub(crate) fn do_noted(
        &mut self,
        alloc: Global,
        event: &AgentEvent,
        leaderless: bool,
    ) -> Result<(), Memory>
        requires fits { Fits self.old (event_of_agent event.now) }
        requires agents { is_agents (event_of_agent event.now) ≡ true }
        requires come { IsNoted (event_of_agent event.now) self.old.past }
        ensures ok { OnOk result (self.new ≡ noted_alone leaderless (event_of_agent event.now) self.old) }
        ensures err { OnErr result (self.new ≡ self.old) }
    {
        if leaderless {
            self.do_leaderless(alloc, event)
        } else {
            self.do_own(alloc, event)
        }
    }

    // The sync of an agent by its rows, beside those that it has without being asked, and by those of a server's catalog.
    #[tactic(auto, using(crate::proofs::Syncing::planned))]
    fn plan_between(
        &self,
        alloc: Global,
        server: u32,
        agent: u32,
        own: &OwnParts,
    ) -> Result<RowPlan, Memory>
        requires server { IsServerNumber self.now server }
        requires agent { IsAgentNumber self.now agent }
        requires own { AreOwn agent own.now }
        ensures { IfOk result (λ plan. IsPlan server agent self.now plan) }
    {
        let rows = self.agents.own_rows(alloc, agent, own)?;
        let there = self.remote_rows(alloc, server, own.node.node.as_str())?;
        plan_rows(alloc, &rows, &there)
    }

    // What an agent takes over in a sync at a server, and what it proposes there. It answers Memory also for 2^32
    // commands.
    fn plan_at(&self, alloc: Global, server: u32, agent: u32) -> Result<RowPlan, Memory>
        requires server { IsServerNumber self.now server }
        requires agent { IsAgentNumber self.now agent }
        ensures plan { IfOk result (λ plan. IsPlan server agent self.now plan) }
        ensures few { IfOk result (λ plan. length plan.commands < 2 ^ 32) }
    {
        let own = self.agents.own_parts(alloc, agent)?;
        let plan = self.plan_between(alloc, server, agent, &own)?;
        few(plan)
    }

    // Tells how many commands an agent's sync proposed, in the place of that it found no leader.
    fn count_proposed(&mut self, agent: u32, count: u32)
        requires { (c : SpecCluster) × (self.old ≡ synced agent None c) }
        ensures { (c : SpecCluster) → self.old ≡ synced agent None c → self.new ≡ synced agent (Some count) c }
    {
        self.requests.count_sync(agent, count);
    }

    // An agent's services take over these tags.
    fn retag(&mut self, agent: u32, tags: Vec<Retag>)
        requires { IsAgentNumber self.old agent }
        ensures { self.new ≡ with_agent agent (retagged tags.items (agent_of self.old agent)) self.old }
    {
        self.agents.retag(agent, tags);
    }

    // The sync of an agent by this plan, at a server that is ready. The agent takes its tags over once something was
    // proposed, or there was nothing to propose.
    fn carry_plan(
        &mut self,
        alloc: Global,
        server: u32,
        agent: u32,
        plan: RowPlan,
    ) -> Result<(), Cut>
        requires server { IsServerNumber self.old server }
        requires agent { IsAgentNumber self.old agent }
        requires leads { runs_leading self.old.world server ≡ true }
        requires plan { IsPlan server agent self.old plan }
        requires few { length plan.commands < 2 ^ 32 }
        ensures whole { OnOk result (PlansWhole server agent self.old self.new) }
        ensures cut { IfErr result (λ cut. PlansInPart server agent cut self.old self.new) }
    {
        let RowPlan { tags, commands } = plan;
        if self.tell_leaderless(agent).is_err() {
            drop(tags);
            drop(commands);
            return Err(Cut::Before);
        }
        let proposed = self.propose_all(alloc, server, commands.as_slice());
        drop(commands);
        if proposed.whole {
            self.count_proposed(agent, proposed.entered as u32);
            self.retag(agent, tags);
            return Ok(());
        }
        self.take_back(agent);
        if proposed.entered == 0 {
            drop(tags);
            return Err(Cut::Before);
        }
        self.retag(agent, tags);
        Err(Cut::Within)
    }

    // The sync of an agent at a server that is ready.
    fn sync(&mut self, alloc: Global, server: u32, agent: u32) -> Result<(), Cut>
        requires server { IsServerNumber self.old server }
        requires agent { IsAgentNumber self.old agent }
        requires leads { runs_leading self.old.world server ≡ true }
        ensures whole { OnOk result (PlansWhole server agent self.old self.new) }
        ensures cut { IfErr result (λ cut. PlansInPart server agent cut self.old self.new) }
    {
        match self.plan_at(alloc, server, agent) {
            Ok(plan) => self.carry_plan(alloc, server, agent, plan),
            Err(Memory) => Err(Cut::Before),
        }
    }

    /// The same behind the agent's own part.
    pub(crate) fn sync_ready(
        &mut self,
        alloc: Global,
        server: u32,
        event: &AgentEvent,
    ) -> Result<(), Cut>
        requires server { IsServerNumber self.old server }
        requires fits { Fits self.old (event_of_agent event.now) }
        requires agents { is_agents (event_of_agent event.now) ≡ true }
        requires come { IsNoted (event_of_agent event.now) self.old.past }
        requires goes { SyncsThere server (event_of_agent event.now) self.old }
        requires ready { is_ready self.old server ≡ true }
        ensures whole { OnOk result (SyncsAt server (event_of_agent event.now) self.old self.new true) }
        ensures cut { IfErr result (λ cut. SyncsInPart server (event_of_agent event.now) cut self.old self.new) }
    {
        if self.do_own(alloc, event).is_err() {
            return Err(Cut::Before);
        }
        match self.sync(alloc, server, event.agent()) {
            Ok(()) => Ok(()),
            Err(Cut::Before) => Err(cut_first(event)),
            Err(Cut::Within) => Err(Cut::Within),
        }
    }
}
