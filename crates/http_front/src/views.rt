//! A cluster that serves, as its users' turns see it, with what shows its agreed log to viewers.

ghost use Rattle.std.specs.Prelude.{◌≡◌, [], OnOk, reverse};
ghost use mathlib.Core.List.{IsPrefix};
ghost use Rattle.cluster_rules.specs.Reached.{MayBegin};
ghost use Rattle.http_exchanges.specs.Marks.{agreed_by};

use crate::cluster::{ClusterSize, ServingCluster};
use cat_model::Memory;
use cluster_interface::ClusterInterface;
use http_exchanges::{Ask, Collected, SharedCluster};
use stale_view::{PairName, Publisher, Viewer};
use std::alloc::Global;
use std::marker::Model;
use std::sync::Wait;

/// A cluster that serves, and the publisher that shows viewers what it has agreed. Its value is that of the rules. What the
/// publisher has taken begins the agreed log, if the stores were empty or such as an earlier run left: else servers may agree
/// on one list after another.
#[derive(Drop)]
pub struct ViewedCluster<J: ClusterSize + PairName, S: ClusterInterface, R: Wait + Drop> {
    serving: ServingCluster<J, S>,
    publisher: Publisher<J, R>,
}

impl<J: ClusterSize + PairName, S: ClusterInterface, R: Wait + Drop> Model
    for ViewedCluster<J, S, R> {
    ghost use Rattle.std.specs.Prelude.{reverse};
    ghost use mathlib.Core.List.{IsPrefix};
    ghost use Rattle.cluster_rules.specs.Cluster as rules;
    ghost use Rattle.cluster_rules.specs.Reached.{MayBegin};
    ghost use Rattle.http_exchanges.specs.Marks.{agreed_by};

    ghost Value = { rules.Cluster };

    ghost view = { λ c. c.serving };

    ghost invariant = { λ c. MayBegin J.size.stores → IsPrefix c.publisher.taken (agreed_by (reverse c.serving.past)) };
}

// Shows viewers all that the cluster has agreed.
fn publish<J: ClusterSize + PairName, S: ClusterInterface, R: Wait + Drop>(
    serving: &ServingCluster<J, S>,
    publisher: &mut Publisher<J, R>,
) -> Result<(), Memory>
    requires begins { MayBegin J.size.stores → IsPrefix publisher.old.taken (agreed_by (reverse serving.now.past)) }
    ensures begins { MayBegin J.size.stores → IsPrefix publisher.new.taken (agreed_by (reverse serving.now.past)) }
    ensures all { OnOk result (MayBegin J.size.stores → publisher.new.list ≡ agreed_by (reverse serving.now.past)) }
{
    publisher.publish(serving.agreed())
}

impl<J: ClusterSize + PairName, S: ClusterInterface, R: Wait + Drop> ViewedCluster<J, S, R> {
    /// Viewers are shown what the cluster has agreed by now, as far as there is memory for it.
    pub fn new(
        serving: ServingCluster<J, S>,
        mut publisher: Publisher<J, R>,
    ) -> ViewedCluster<J, S, R>
        requires { publisher.taken ≡ [] }
        ensures { result ≡ serving }
    {
        let _ = publish(&serving, &mut publisher);
        ViewedCluster { serving, publisher }
    }

    /// The cluster itself, when no viewer is left.
    pub fn into_serving(self) -> ServingCluster<J, S>
        ensures { result ≡ self }
    {
        let ViewedCluster { serving, publisher } = self;
        drop(publisher);
        serving
    }
}

impl<J: ClusterSize + PairName, S: ClusterInterface, R: Wait + Drop> SharedCluster
    for ViewedCluster<J, S, R> {
    ghost use Rattle.std.specs.Prelude.{◌≡◌, [], length, reverse};
    ghost use Rattle.cluster_rules.specs.Cluster.{clock_of};
    ghost use Rattle.cluster_rules.specs.Reached.{MayBegin};
    ghost use Rattle.http_front.specs.Shown.{ShowsOver};

    type Pair = J;

    ghost marks = { λ c. reverse c.past };

    ghost agents = { J.size.agents };

    ghost servers = { λ c. length c.servers };

    ghost clock = { λ c s. clock_of c.world s };

    ghost idle = { λ c. c.world.bag.packets ≡ [] };

    ghost tray = { λ c. c.tray };

    ghost shows = { ShowsOver J.size.stores };

    ghost agrees = { MayBegin J.size.stores };

    fn kept(&self) {
        self.serving.kept();
    }

    fn advance(&mut self, alloc: Global, ms: u64) -> Result<(), Memory> {
        self.serving.advance(alloc, ms)
    }

    fn ask(&mut self, alloc: Global, ask: Ask) -> Result<u64, Memory> {
        let asked = self.serving.ask_agent(alloc, &ask);
        drop(ask);
        asked
    }

    fn settle(&mut self, alloc: Global, most: u32) -> Result<u32, Memory> {
        self.serving.settle(alloc, most)
    }

    fn collect(&mut self, number: u64) -> Collected {
        self.serving.take_reply(number)
    }

    fn show(&mut self, viewer: &mut Viewer<J>) -> Result<(), Memory> {
        match publish(&self.serving, &mut self.publisher) {
            Ok(()) => viewer.learn(&self.publisher),
            Err(Memory) => Err(Memory),
        }
    }

    fn outs(&self) -> usize {
        self.serving.outs()
    }

    fn out_number(&self, at: usize) -> Option<u64> {
        self.serving.out_number(at)
    }
}
