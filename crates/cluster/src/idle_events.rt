//! Events that come to nothing.

ghost use Rattle.std.specs.Prelude.{◌≡◌};
ghost use Rattle.cat_model.specs.declared.request.Event.{Event as SpecEvent};
ghost use Rattle.cluster_rules.specs.Cluster.{Cluster as SpecCluster};
ghost use Rattle.cluster_rules.specs.Step.{noted};

use crate::cluster::Cluster;
use outside::Keeper;

impl<K: Keeper> Cluster<K> {
    /// Takes the mark of an event back that has changed nothing.
    pub(crate) fn forget_event(&mut self)
        requires { (made : SpecEvent) × (c : SpecCluster) × (self.old ≡ noted made c) }
        ensures { (made : SpecEvent) (c : SpecCluster) → self.old ≡ noted made c → self.new ≡ c }
    {
        self.requests.forget();
    }
}
