//! The cluster over any durable stores, as its front ends see it.

ghost use Rattle.std.specs.Prelude.{◌≡◌, ◌<◌, ◌≤◌, All, IfErr, IfOk, length, map};
ghost use Rattle.std.specs.Option.{ForSome};
ghost use Rattle.cluster_rules.specs.Reached.{IsBegun};
ghost use Rattle.cluster_interface.specs.Starting.{HasFailed, KeepsLimits, store_of};

use crate::cluster::Cluster;
use crate::uncounted;
use cat_model::{Asked, Draw, Entry, Event, List, Memory, Shared};
use cluster_interface::ClusterInterface;
use cluster_requests::{Collected, Out};
use outside::{KeepFail, Keeper};
use run_rules::Misfit;
use std::alloc::Global;
use std::marker::Brand;
use std::sync::ledger::Blank;

impl<K: Keeper + Drop> ClusterInterface for Cluster<K> {
    ghost state = { λ c. c };

    type K = K;

    fn start(
        alloc: Global,
        keepers: List<K>,
        agents: u32,
    ) -> Result<Cluster<K>, (List<K>, KeepFail)>
        requires some { 0 < length keepers }
        requires most { length keepers ≤ 7 }
        requires few { agents ≤ 64 }
        requires unarmed { All (λ k. K.armed k ≡ 0) keepers }
        requires limits { All (λ k. ForSome (K.held k) KeepsLimits) keepers }
        ensures begun { IfOk result (λ s. IsBegun (map (λ k. store_of (K.held k) (K.armed k) (K.faults k) (K.sure k)) keepers) s) }
        ensures agents { IfOk result (λ s. length s.agents ≡ agents) }
        ensures cause { IfErr result (λ why. why.1 ≡ KeepFail.Failed → HasFailed (map (λ k. K.faults k) keepers) (map (λ k. K.faults k) why.0)) }
    {
        Cluster::new(alloc, agents, keepers)
    }

    fn fits(&self, event: &Event) -> Result<(), Misfit> {
        self.fits(event)
    }

    fn step(&mut self, alloc: Global, event: Event) -> Result<(), Memory> {
        let made = uncounted::step::<K, Brand>(self, alloc, &event, Blank::new(1));
        drop(event);
        made
    }

    fn ask(
        &mut self,
        alloc: Global,
        agent: u32,
        asked: &Shared<Asked>,
        draw: Draw,
    ) -> Result<u64, Memory> {
        uncounted::ask::<K, Brand>(self, alloc, agent, asked, draw, Blank::new(1))
    }

    fn settle(&mut self, alloc: Global, most: u32) -> Result<u32, Memory> {
        uncounted::settle::<K, Brand>(self, alloc, most, Blank::new(1))
    }

    fn next_out(&mut self) -> Option<Out> {
        self.next_out()
    }

    fn collect(&mut self, number: u64) -> Collected {
        self.collect(number)
    }

    fn drop_syncs(&mut self) {
        self.drop_syncs();
    }

    fn outs(&self) -> usize {
        self.outs()
    }

    fn out_number(&self, at: usize) -> Option<u64> {
        self.out_number(at)
    }

    fn asked(&self) -> u64 {
        self.asked()
    }

    fn agents(&self) -> u32 {
        self.agents()
    }

    fn servers(&self) -> u32 {
        self.count()
    }

    fn agreed(&self) -> &[Entry] {
        self.agreed()
    }

    fn applied(&self, server: u32) -> u64 {
        self.applied(server)
    }

    fn unanswered(&self, alloc: Global) -> Result<List<u64>, Memory> {
        self.unanswered(alloc)
    }

    fn events(&self) -> Option<u64> {
        self.events()
    }

    fn into_agreed(self, alloc: Global) -> Result<List<Entry>, Memory> {
        self.into_agreed(alloc)
    }
}
