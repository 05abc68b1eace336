//! A cluster that serves.

ghost use Rattle.std.specs.Prelude.{◌≡◌, ◌<◌, ◌≤◌, All, IfErr, IfOk, [], length, map};
ghost use Rattle.std.specs.Option.{ForSome};
ghost use Rattle.cluster_interface.specs.Starting.{KeepsLimits, store_of};
ghost use Rattle.http_front.specs.Asked.{IsUnasked};
ghost use Rattle.http_front.specs.Begun.{HasCause};
ghost use Rattle.run_rules.specs.Serving.{Serves, Size};

use cat_model::{Event, List, Memory};
use cluster_interface::ClusterInterface;
use outside::KeepFail;
use std::alloc::Global;
use std::marker::{Brand, Model, PhantomData};

/// The stores over which a cluster began, one a server, and how many agents it has. It exists in contracts alone.
pub trait ClusterSize {
    ghost size: { Size };
}

impl ClusterSize for Brand {
    ghost size = { record { stores = []; agents = 0 } };
}

/// Why a cluster did not begin.
#[derive(Drop)]
pub enum NotBegun<K: Drop> {
    /// A store could not be read, which it has counted. All stores are handed back.
    Failed(List<K>),
    Memory,
}

/// A cluster of such a size that serves. Its value is that of the rules.
#[derive(Drop)]
pub struct ServingCluster<J: ClusterSize, S: ClusterInterface> {
    pub(crate) cluster: S,
    // How many outs waited when they were last looked through for those of syncs.
    pub(crate) sifted: usize,
    size: PhantomData<J>,
}

impl<J: ClusterSize, S: ClusterInterface> Model for ServingCluster<J, S> {
    ghost use Rattle.cluster_rules.specs.Cluster as rules;
    ghost use Rattle.run_rules.specs.Serving.{Serves};

    ghost Value = { rules.Cluster };

    ghost view = { λ c. S.state c.cluster };

    ghost invariant = { λ c. Serves J.size (S.state c.cluster) };
}

// A server for each of these stores, of which server 1 has stood for election.
fn elected<S: ClusterInterface>(
    alloc: Global,
    keepers: List<S::K>,
    agents: u32,
) -> Result<S, NotBegun<S::K>>
    requires some { 0 < length keepers }
    requires most { length keepers ≤ 7 }
    requires few { agents ≤ 64 }
    requires unarmed { All (λ k. S.K.armed k ≡ 0) keepers }
    requires limits { All (λ k. ForSome (S.K.held k) KeepsLimits) keepers }
    ensures serves { IfOk result (λ c. Serves (record { stores = map (λ k. store_of (S.K.held k) (S.K.armed k) (S.K.faults k) (S.K.sure k)) keepers; agents = agents }) (S.state c)) }
    ensures unasked { IfOk result (λ c. IsUnasked (S.state c)) }
    ensures cause { IfErr result (HasCause (λ k. S.K.faults k) keepers) }
{
    let mut cluster = match S::start(alloc, keepers, agents) {
        Ok(cluster) => cluster,
        Err((keepers, KeepFail::Failed)) => return Err(NotBegun::Failed(keepers)),
        Err((_, KeepFail::Memory)) => return Err(NotBegun::Memory),
    };
    match cluster.step(alloc, Event::Timeout(1)) {
        Ok(()) => Ok(cluster),
        Err(Memory) => Err(NotBegun::Memory),
    }
}

impl<J: ClusterSize, S: ClusterInterface> ServingCluster<J, S> {
    /// A server for each of these stores, which begins with what its store holds, and so many agents: server 1 has stood
    /// for election, and at most so many messages were delivered. No request was asked.
    pub fn begin(
        alloc: Global,
        keepers: List<S::K>,
        agents: u32,
        most: u32,
    ) -> Result<ServingCluster<J, S>, NotBegun<S::K>>
        requires some { 0 < length keepers }
        requires most { length keepers ≤ 7 }
        requires few { agents ≤ 64 }
        requires unarmed { All (λ k. S.K.armed k ≡ 0) keepers }
        requires limits { All (λ k. ForSome (S.K.held k) KeepsLimits) keepers }
        requires size { J.size ≡ record { stores = map (λ k. store_of (S.K.held k) (S.K.armed k) (S.K.faults k) (S.K.sure k)) keepers; agents = agents } }
        ensures unasked { IfOk result (λ c. IsUnasked c) }
        ensures cause { IfErr result (HasCause (λ k. S.K.faults k) keepers) }
    {
        let mut cluster = elected(alloc, keepers, agents)?;
        match S::settle(&mut cluster, alloc, most) {
            Ok(_) => Ok(ServingCluster {
                cluster,
                sifted: 0,
                size: PhantomData,
            }),
            Err(Memory) => Err(NotBegun::Memory),
        }
    }

    /// The cluster itself, of one that is done with.
    pub fn into_cluster(self) -> S
        ensures same { S.state result ≡ self }
        ensures serves { Serves J.size self }
    {
        let ServingCluster { cluster, .. } = self;
        cluster
    }
}
