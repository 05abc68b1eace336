//! How a server's cluster begins.

ghost use Rattle.std.specs.Prelude.{◌≡◌, ◌<◌, ◌≤◌, All, IfOk, IsErrOf, OnOk, length, map};
ghost use Rattle.std.specs.Option.{ForSome};
ghost use Rattle.outside.specs.Causes.{Rose};
ghost use Rattle.cluster_interface.specs.Starting.{KeepsLimits, store_of};
ghost use Rattle.http_front.specs.Asked.{IsUnasked};

use crate::cluster::{ClusterSize, NotBegun, ServingCluster};
use crate::stores::give_back;
use cat_model::List;
use cluster_interface::ClusterInterface;
use outside::{KeepFail, Keeper};
use serve_outside::Keepers;
use std::alloc::Global;

/// The most messages that are settled before the first connection.
const MOST: u32 = 4096;

/// A cluster over these stores, of the size that `J` tells. Those that cannot be read are given back to what made them.
pub fn begin_over<J: ClusterSize + 'static, S: ClusterInterface + 'static, Ks: Keepers<K = S::K>>(
    alloc: Global,
    keepers: &mut Ks,
    stores: List<Ks::K>,
    agents: u32,
) -> Result<ServingCluster<J, S>, KeepFail>
where
    S::K: 'static,
    requires some { 0 < length stores }
    requires most { length stores ≤ 7 }
    requires few { agents ≤ 64 }
    requires unused { All (λ k. (S.K.armed k ≡ 0) × (S.K.faults k ≡ 0)) stores }
    requires limits { All (λ k. ForSome (S.K.held k) KeepsLimits) stores }
    requires size { J.size ≡ record { stores = map (λ k. store_of (S.K.held k) (S.K.armed k) (S.K.faults k) (S.K.sure k)) stores; agents = agents } }
    ensures unasked { IfOk result (λ c. IsUnasked c) }
    ensures failed { IsErrOf result KeepFail.Failed → Rose (Ks.faults keepers.old) (Ks.faults keepers.new) }
    ensures quiet { OnOk result (Ks.faults keepers.new ≡ Ks.faults keepers.old) }
    ensures memory { IsErrOf result KeepFail.Memory → Ks.faults keepers.new ≡ Ks.faults keepers.old }
    ensures made { Ks.made keepers.new ≡ Ks.made keepers.old }
{
    match ServingCluster::<J, S>::begin(alloc, stores, agents, MOST) {
        Ok(cluster) => Ok(cluster),
        Err(NotBegun::Failed(stores)) => {
            give_back(keepers, stores);
            Err(KeepFail::Failed)
        }
        Err(NotBegun::Memory) => Err(KeepFail::Memory),
    }
}
