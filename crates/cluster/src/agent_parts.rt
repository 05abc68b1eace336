//! What an agent does by itself: it answers what it is asked, and its clock goes on.

ghost use Rattle.std.specs.Prelude.{◌≡◌, None, OnErr, OnOk, true};
ghost use Rattle.cat_model.specs.declared.request.Asked.TheVariants.{Good};
ghost use Rattle.cat_model.specs.declared.request.Draw.{Draw as SpecDraw};
ghost use Rattle.cat_model.specs.declared.request.Event.TheVariants as event;
ghost use Rattle.cat_model.specs.declared.request.Request.TheVariants.{Agent as AsksAgent};
ghost use Rattle.cluster_rules.specs.Cluster.{Cluster as SpecCluster};
ghost use Rattle.cluster_rules.specs.Proposals.{agent_did, is_agents, sync_of, synced};
ghost use Rattle.cluster_rules.specs.Reached.{Fits, IsAgentNumber};
ghost use Rattle.cluster_order.specs.AgentEvents.{IsNoted, event_of_agent};
ghost use Rattle.cluster_order.specs.Turns.{IsCome, numbered};
ghost use Rattle.cluster.specs.Syncing.{own_done};

use crate::cluster::Cluster;
use cat_model::{AgentOp, Asked, Draw, Memory, Request};
use cluster_order::AgentEvent;
use cluster_works::{answer_own, changes};
use outside::Keeper;
use std::alloc::Global;
use std::ops::Deref;

impl<K: Keeper> Cluster<K> {
    /// The agent of a request to itself, where a sync follows it.
    pub(crate) fn sync_after(&self, agent: u32, asked: &Asked) -> Option<u32>
        requires { IsAgentNumber self.now agent }
        ensures { (draw : SpecDraw) → result ≡ sync_of self.now (event.Ask agent asked.now draw) }
    {
        match asked {
            Asked::Good(Request::Agent(op)) if changes(op) && self.agents.can_change(agent, op) => {
                Some(agent)
            }
            _ => None,
        }
    }

    // An agent does what it is asked, once the request has its number, and answers.
    fn answer_asked(
        &mut self,
        alloc: Global,
        agent: u32,
        asked: &Asked,
        op: &AgentOp,
        draw: Draw,
    ) -> Result<(), Memory>
        requires agent { IsAgentNumber self.old agent }
        requires asked { asked.now ≡ Good (AsksAgent op.now) }
        requires come { IsCome agent asked.now draw self.old.past }
        ensures ok { OnOk result (self.new ≡ agent_did (event.Ask agent asked.now draw) (numbered agent asked.now draw self.old)) }
        ensures err { OnErr result (self.new ≡ self.old) }
    {
        answer_own(
            &mut self.agents,
            &mut self.requests,
            alloc,
            agent,
            asked,
            op,
            draw,
        )
    }

    // An agent's clock goes on. It answers Memory also where the clock would pass 2^64 milliseconds.
    fn tick_agent(&mut self, alloc: Global, agent: u32, ms: u64) -> Result<(), Memory>
        requires { IsAgentNumber self.old agent }
        ensures ok { OnOk result (self.new ≡ agent_did (event.AgentTick agent ms) self.old) }
        ensures err { OnErr result (self.new ≡ self.old) }
    {
        self.agents.tick(alloc, agent, ms)
    }

    /// An agent does its own part in an event that was noted, once a request has its number.
    pub(crate) fn do_own(&mut self, alloc: Global, event: &AgentEvent) -> Result<(), Memory>
        requires fits { Fits self.old (event_of_agent event.now) }
        requires agents { is_agents (event_of_agent event.now) ≡ true }
        requires come { IsNoted (event_of_agent event.now) self.old.past }
        ensures ok { OnOk result (self.new ≡ own_done (event_of_agent event.now) self.old) }
        ensures err { OnErr result (self.new ≡ self.old) }
    {
        match event {
            AgentEvent::Sync { .. } => Ok(()),
            AgentEvent::Tick { agent, ms } => self.tick_agent(alloc, *agent, *ms),
            AgentEvent::Ask { agent, asked, draw } => {
                let request = (*asked).deref();
                match request {
                    Asked::Good(Request::Agent(op)) => {
                        self.answer_asked(alloc, *agent, request, op, *draw)
                    }
                    _ => unreachable!(),
                }
            }
        }
    }

    /// Tells that an agent's sync finds no leader.
    pub(crate) fn tell_leaderless(&mut self, agent: u32) -> Result<(), Memory>
        ensures ok { OnOk result (self.new ≡ synced agent None self.old) }
        ensures err { OnErr result (self.new ≡ self.old) }
    {
        self.requests.prepare()?;
        self.requests.tell_sync(agent, None);
        Ok(())
    }

    /// Takes back that an agent's sync finds no leader.
    pub(crate) fn take_back(&mut self, agent: u32)
        requires { (c : SpecCluster) × (self.old ≡ synced agent None c) }
        ensures { (c : SpecCluster) → self.old ≡ synced agent None c → self.new ≡ c }
    {
        self.requests.take_sync_back(agent);
    }
}
