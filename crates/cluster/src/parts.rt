//! A cluster as what its events are made up of.

use crate::cluster::Cluster;
use cat_model::{Asked, Draw, Event, Memory, Refusal, Request, Shared, Steps};
use cluster_order::{AgentEvent, Cut, Impulse, Parts, Way};
use cluster_works::{asked_server, copy_refusal, is_stale_read, way_from};
use outside::Keeper;
use std::alloc::Global;
use std::ops::Deref;
use std::sync::ledger::Ledger;

impl<K: Keeper + Drop> Parts for Cluster<K> {
    ghost use Rattle.cat_model.specs.Taken.{IsTakenAsked};

    ghost state = { λ c. c };

    ghost takes = { IsTakenAsked };

    fn turn<L: Ledger>(
        &mut self,
        alloc: Global,
        server: u32,
        steps: &mut Steps<L>,
    ) -> Result<bool, Memory> {
        self.turn(alloc, server, steps)
    }

    fn note(&mut self, made: &Event) {
        self.requests.note(made);
    }

    fn note_request(&mut self, agent: u32, asked: &Asked, draw: Draw) {
        self.requests.note_request(agent, asked, draw);
    }

    fn forget(&mut self) {
        self.forget_event();
    }

    fn act(&mut self, alloc: Global, server: u32, impulse: Impulse) -> Result<(), Cut> {
        match impulse {
            Impulse::Timeout(_) => self.time_out(alloc, server),
            Impulse::Beat(_) => self.beat(alloc, server),
            Impulse::Deliver(number) => self.deliver(alloc, server, number),
            Impulse::Restart(_) => self.restart(alloc, server),
            Impulse::FailKeep(_, nth) => {
                self.fail_keep(server, nth);
                Ok(())
            }
        }
    }

    #[tactic(auto, using(crate::proofs::Numbers::is_number))]
    fn tick(&mut self, server: u32, ms: u64) {
        self.servers.tick(server, ms);
    }

    fn tend(&mut self, alloc: Global, server: u32) -> Result<(), Memory> {
        if !self.runs_leading(server) {
            return Ok(());
        }
        match self.end_sessions(alloc, server) {
            Ok(true) => self.reap(alloc, server),
            Ok(false) => Err(Memory),
            Err(Memory) => Err(Memory),
        }
    }

    fn shelve(&mut self) {
        self.requests.shelve();
    }

    fn receiver(&self, number: u64) -> u32 {
        match self.servers.receiver(number) {
            Some(server) => server,
            None => unreachable!(),
        }
    }

    fn lose(&mut self, number: u64) {
        self.servers.lose(number);
    }

    fn lowest(&self) -> Option<u64> {
        self.servers.lowest()
    }

    fn settled(&mut self, pairs: u32) {
        self.requests.settle(pairs);
    }

    #[tactic(auto, using(crate::proofs::Going::way_is, crate::proofs::Numbers::is_number, crate::proofs::Numbers::number_is))]
    fn way(&self, _alloc: Global, agent: u32, asked: &Shared<Asked>) -> Result<Way, Memory> {
        match asked.deref() {
            Asked::Good(_) => {
                let stale = is_stale_read(asked);
                Ok(way_from(&self.servers, asked_server(&self.servers, agent), stale))
            }
            Asked::Bad(why) => Ok(Way::Answers(copy_refusal(why)?)),
        }
    }

    fn refuse(
        &mut self,
        _alloc: Global,
        agent: u32,
        asked: &Shared<Asked>,
        draw: Draw,
        why: Refusal,
    ) -> Result<(), Memory> {
        let told = self.requests.come_refused(agent, asked, draw, &why);
        drop(why);
        told
    }

    #[tactic(auto, using(crate::proofs::Going::write_leads))]
    fn handle(
        &mut self,
        alloc: Global,
        server: u32,
        agent: u32,
        asked: &Shared<Asked>,
        draw: Draw,
    ) -> Result<(), Memory> {
        let request = asked.deref();
        if !self.may_go(server, request) {
            return self.refuse_unready(server, agent, request, draw);
        }
        match request {
            Asked::Good(Request::Write { command }) => {
                self.write(alloc, server, agent, asked, draw, command)
            }
            Asked::Good(Request::Read { mode, wait_ms, .. }) => {
                self.begin_read(alloc, server, agent, asked, draw, *mode, *wait_ms)
            }
            Asked::Good(Request::Execute { mode, .. }) => {
                self.begin_read(alloc, server, agent, asked, draw, *mode, 0)
            }
            Asked::Good(Request::Renew { id }) => self.renew(server, agent, request, draw, *id),
            _ => unreachable!(),
        }
    }

    fn sync_of(&self, event: &AgentEvent) -> Option<u32> {
        match event {
            AgentEvent::Sync { agent } => Some(*agent),
            AgentEvent::Tick { agent, ms } => {
                if self.agents.wants_sync(*agent, *ms) {
                    Some(*agent)
                } else {
                    None
                }
            }
            AgentEvent::Ask { agent, asked, .. } => self.sync_after(*agent, asked),
        }
    }

    #[tactic(auto, using(crate::proofs::Numbers::number_is))]
    fn leader_way(&self, agent: u32) -> Way {
        way_from(&self.servers, asked_server(&self.servers, agent), false)
    }

    fn do_alone(
        &mut self,
        alloc: Global,
        event: &AgentEvent,
        leaderless: bool,
    ) -> Result<(), Memory> {
        self.mark_agents(event);
        if self.do_noted(alloc, event, leaderless).is_err() {
            self.forget_event();
            return Err(Memory);
        }
        Ok(())
    }

    fn sync_at(&mut self, alloc: Global, server: u32, event: &AgentEvent) -> Result<(), Cut> {
        if self.is_ready(server) {
            return self.sync_ready(alloc, server, event);
        }
        match self.do_leaderless(alloc, event) {
            Ok(()) => Ok(()),
            Err(Memory) => Err(Cut::Before),
        }
    }

    fn asked(&self) -> u64 {
        self.requests.asked()
    }
}
