//! How a cluster begins.

ghost use Rattle.std.specs.Prelude.{◌≡◌, ◌<◌, ◌≤◌, ◌^◌, ℕ, All, IfErr, IfOk, length, map, replicate};
ghost use Rattle.std.specs.Option.{ForSome};
ghost use Rattle.raft_node.specs.Nodes.{KeepsLimits};
ghost use Rattle.raft_node.specs.Steps.{stored};
ghost use Rattle.raft_world.specs.Starting.{AreGivenBack};
ghost use Rattle.cluster_rules.specs.Agents.{new_agent};
ghost use Rattle.cluster.specs.Beginning.{HasBegun};
ghost use Rattle.cluster_works.specs.Watching.{nothing_watched};

use crate::cluster::Cluster;
use cat_model::{List, Memory};
use cluster_replicas::Servers;
use cluster_requests::Requests;
use cluster_works::{Agents, Watching};
use outside::{KeepFail, Keeper};
use std::alloc::Global;

impl<K: Keeper + Drop> Cluster<K> {
    // Servers begin with what these stores hold, beside these agents, and nothing is watched.
    fn with_agents(
        alloc: Global,
        agents: Agents,
        watch: Watching,
        keepers: List<K>,
    ) -> Result<Cluster<K>, (List<K>, KeepFail)>
        requires watch { watch ≡ nothing_watched (length keepers) }
        requires some { 0 < length keepers }
        requires few { length keepers < 2 ^ 32 }
        requires limits { All (λ k. ForSome (K.held k) KeepsLimits) keepers }
        ensures begun { (count : ℕ) → agents ≡ replicate count new_agent → IfOk result (HasBegun (map (λ k. stored (K.held k) (K.armed k) (K.faults k) (K.sure k)) keepers) count) }
        ensures back { IfErr result (λ why. AreGivenBack why.1 (map (λ k. stored (K.held k) (K.armed k) (K.faults k) (K.sure k)) keepers) (map (λ k. stored (K.held k) (K.armed k) (K.faults k) (K.sure k)) why.0)) }
    {
        match Servers::new(alloc, keepers) {
            Ok(servers) => Ok(Cluster {
                servers,
                agents,
                requests: Requests::new(alloc),
                watch,
            }),
            Err(back) => {
                drop(agents);
                drop(watch);
                Err(back)
            }
        }
    }

    /// Servers 1, 2, .. begin with what these stores hold, whatever that is, and nothing was asked. Where a store cannot
    /// be read, or there is no memory, all are handed back in their order: those before it were read, those behind it
    /// were not tried.
    pub fn new(
        alloc: Global,
        agents: u32,
        keepers: List<K>,
    ) -> Result<Cluster<K>, (List<K>, KeepFail)>
        requires some { 0 < length keepers }
        requires few { length keepers < 2 ^ 32 }
        requires agents { agents ≤ 64 }
        requires limits { All (λ k. ForSome (K.held k) KeepsLimits) keepers }
        ensures begun { IfOk result (HasBegun (map (λ k. stored (K.held k) (K.armed k) (K.faults k) (K.sure k)) keepers) agents) }
        ensures back { IfErr result (λ why. AreGivenBack why.1 (map (λ k. stored (K.held k) (K.armed k) (K.faults k) (K.sure k)) keepers) (map (λ k. stored (K.held k) (K.armed k) (K.faults k) (K.sure k)) why.0)) }
    {
        match Agents::new(alloc, agents) {
            Ok(agents) => match Watching::new(alloc, keepers.len() as u32) {
                Ok(watch) => Cluster::with_agents(alloc, agents, watch, keepers),
                Err(Memory) => {
                    drop(agents);
                    Err((keepers, KeepFail::Memory))
                }
            },
            Err(Memory) => Err((keepers, KeepFail::Memory)),
        }
    }
}
