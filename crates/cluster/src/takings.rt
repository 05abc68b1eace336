//! What is taken from a cluster: its outs, and at last its agreed log.

ghost use Rattle.std.specs.Prelude.{◌≡◌, ◌<◌, IfOk, IfSome, length, map};
ghost use Rattle.cluster_rules.specs.Cluster.{applied_of};
ghost use Rattle.cluster_rules.specs.Reached.{IsServerNumber};
ghost use Rattle.cluster_rules.specs.Step.{events_in};
ghost use Rattle.cluster_interface.specs.Interface.{TakesFirst};
ghost use Rattle.cluster_interface.specs.Taking.{Collects, DropsSyncs};
ghost use Rattle.cluster_requests.specs.Taking.{IsNumberAt};

use crate::cluster::Cluster;
use cat_model::{Entry, List, Memory};
use cluster_requests::{Collected, Out};
use cluster_works::copy_entries;
use outside::Keeper;
use std::alloc::Global;

impl<K: Keeper> Cluster<K> {
    /// Takes the first out that waits, and marks that a request's was taken.
    pub fn next_out(&mut self) -> Option<Out>
        ensures { TakesFirst self.old self.new result }
    {
        self.requests.next_out()
    }

    /// Takes a request's reply or closing, or says what the request waits for. There is neither where it was taken
    /// before or never asked.
    pub fn collect(&mut self, number: u64) -> Collected
        ensures { Collects number result self.old self.new }
    {
        self.requests.collect(number)
    }

    /// Lets go of the outs of syncs, for which no request waits. It takes no memory.
    pub fn drop_syncs(&mut self)
        ensures { DropsSyncs self.old self.new }
    {
        self.requests.drop_syncs();
    }

    /// How many outs wait to be taken.
    pub fn outs(&self) -> usize
        ensures { result ≡ length self.now.tray }
    {
        self.requests.outs()
    }

    /// The number of the request whose out stands at this place of those that wait, where it is a request's.
    pub fn out_number(&self, at: usize) -> Option<u64>
        requires { at < length self.now.tray }
        ensures { IsNumberAt at self.now.tray result }
    {
        self.requests.out_number(at)
    }

    /// How many entries of the agreed log a server has applied.
    #[tactic(auto, using(crate::proofs::Numbers::is_number))]
    pub fn applied(&self, server: u32) -> u64
        requires { IsServerNumber self.now server }
        ensures { result ≡ length (applied_of self.now server) }
    {
        self.servers.applied(server)
    }

    /// How many events there were, as long as that fits.
    pub fn events(&self) -> Option<u64>
        ensures { IfSome result (λ events. events ≡ events_in self.now.past) }
    {
        self.requests.events()
    }

    /// The numbers of the requests that are held, in ascending order.
    pub fn unanswered(&self, alloc: Global) -> Result<List<u64>, Memory>
        ensures { IfOk result (λ numbers. numbers ≡ map (λ h. h.question.number) self.now.held) }
    {
        self.requests.unanswered(alloc)
    }
}

impl<K: Keeper + Drop> Cluster<K> {
    /// The agreed log of a cluster that is done with.
    pub fn into_agreed(self, alloc: Global) -> Result<List<Entry>, Memory>
        ensures { IfOk result (λ agreed. agreed ≡ self.world.agreed) }
    {
        let agreed = copy_entries(alloc, self.agreed());
        drop(self);
        agreed
    }
}
