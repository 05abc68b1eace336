//! A consistent read waits for a round of acknowledgements, which is begun for it.

ghost use Rattle.std.specs.Prelude.{◌≡◌, ◌<◌, ◌-◌, ◌^◌, ◌||◌, OnErr, OnOk, Some, true};
ghost use Rattle.cat_model.specs.declared.request.Mode.TheVariants as modes;
ghost use Rattle.cat_model.specs.Taken.{IsTakenAsked};
ghost use Rattle.cluster_rules.specs.Cluster.{node_of};
ghost use Rattle.cluster_rules.specs.Reached.{IsServerNumber};
ghost use Rattle.cluster_rules.specs.Requests.{is_ready, is_stale_read, look_of};
ghost use Rattle.cluster_order.specs.Turns.{HandlesNewest, IsCome};
ghost use Rattle.cluster_works.specs.Asking.{IsNewRead};

use crate::cluster::Cluster;
use cat_model::{Asked, Draw, Memory, Shared};
use cluster_requests::Question;
use cluster_works::{copied_question, end_probe, see, wait_of};
use outside::Keeper;
use std::alloc::Global;

impl<K: Keeper + Drop> Cluster<K> {
    // Begins a round for a read that has its number.
    #[tactic(auto, using(crate::proofs::Numbers::is_number))]
    fn probe(
        &mut self,
        alloc: Global,
        server: u32,
        read: Question,
        deadline: u64,
    ) -> Result<(), Memory>
        requires server { IsServerNumber self.old server }
        requires read { IsNewRead self.old server read deadline }
        requires taken { IsTakenAsked read.asked }
        requires come { IsCome read.agent read.asked read.draw self.old.past }
        requires go { (is_stale_read read.asked || is_ready self.old server) ≡ true }
        requires rounds { (node_of self.old.world server).round < 2 ^ 64 - 1 }
        ensures ok { OnOk result (HandlesNewest server read.agent read.asked read.draw self.old self.new) }
        ensures err { OnErr result (self.new ≡ self.old) }
    {
        if self.requests.prepare().is_err() {
            drop(read);
            return Err(Memory);
        }
        let before = see(&self.servers, server);
        let probed = self.servers.probe(alloc, server);
        let now = see(&self.servers, server);
        end_probe(
            &mut self.requests,
            server,
            before,
            now,
            self.servers.agreed(),
            read,
            deadline,
            probed,
        )
    }

    /// Begins a round for a consistent read, which is held until that is confirmed. Its time counts from now on.
    #[tactic(auto, using(crate::proofs::Numbers::is_number))]
    pub(crate) fn begin_round(
        &mut self,
        alloc: Global,
        server: u32,
        agent: u32,
        asked: &Shared<Asked>,
        draw: Draw,
        wait_ms: u64,
    ) -> Result<(), Memory>
        requires server { IsServerNumber self.old server }
        requires taken { IsTakenAsked asked.now }
        requires look { look_of asked.now ≡ Some (modes.Consistent, wait_ms) }
        requires come { IsCome agent asked.now draw self.old.past }
        requires go { (is_stale_read asked.now || is_ready self.old server) ≡ true }
        ensures ok { OnOk result (HandlesNewest server agent asked.now draw self.old self.new) }
        ensures err { OnErr result (self.new ≡ self.old) }
    {
        let number = self.requests.asked().checked_add(1).ok_or(Memory)?;
        let now = self.servers.clock(server);
        let deadline = now.checked_add(wait_of(wait_ms)).ok_or(Memory)?;
        if self.servers.node(server).round() == u64::MAX {
            return Err(Memory);
        }
        let read = copied_question(number, agent, asked, draw)?;
        self.probe(alloc, server, read, deadline)
    }
}
