//! How the servers begin.

ghost use Rattle.std.specs.Prelude.{◌≡◌, ◌^◌, ◌<◌, All, IfErr, IfOk, length, map, replicate};
ghost use Rattle.std.specs.Option.{ForSome};
ghost use Rattle.raft_model.specs.World.{Begins};
ghost use Rattle.raft_node.specs.Nodes.{KeepsLimits};
ghost use Rattle.raft_node.specs.Steps.{stored};
ghost use Rattle.raft_world.specs.Starting.{AreGivenBack};
ghost use Rattle.applied_state.specs.States.{nothing_applied};
ghost use Rattle.cluster_rules.specs.Cluster.{no_server};

use crate::servers::Servers;
use applied_state::Replica;
use cat_model::{List, Memory};
use outside::{KeepFail, Keeper};
use raft_world::World;
use std::alloc::Global;

// So many replicas that have applied nothing.
#[tactic(auto, using(crate::proofs::Beginning::one_more_idle))]
fn idle(alloc: Global, servers: usize) -> Result<Vec<Replica>, Memory>
    ensures { IfOk result (λ replicas. replicas.items ≡ replicate servers nothing_applied) }
{
    let mut replicas = Vec::new(alloc);
    while replicas.len() < servers {
        replicas.push(Replica::new(alloc)?)?;
    }
    Ok(replicas)
}

impl<K: Keeper + Drop> Servers<K> {
    /// Servers 1, 2, .. begin with what these stores hold, and have applied nothing. Where a store cannot be read, or
    /// there is no memory, all are handed back in their order: those before it were read, those behind it were not
    /// tried. Lack of memory for the servers themselves comes before any is read.
    pub fn new(alloc: Global, keepers: List<K>) -> Result<Servers<K>, (List<K>, KeepFail)>
        requires few { length keepers < 2 ^ 32 }
        requires limits { All (λ k. ForSome (K.held k) KeepsLimits) keepers }
        ensures world { IfOk result (λ s. Begins (map (λ k. stored (K.held k) (K.armed k) (K.faults k) (K.sure k)) keepers) s.world) }
        ensures servers { IfOk result (λ s. s.servers ≡ replicate (length keepers) no_server) }
        ensures back { IfErr result (λ why. AreGivenBack why.1 (map (λ k. stored (K.held k) (K.armed k) (K.faults k) (K.sure k)) keepers) (map (λ k. stored (K.held k) (K.armed k) (K.faults k) (K.sure k)) why.0)) }
    {
        let Ok(replicas) = idle(alloc, keepers.len()) else {
            return Err((keepers, KeepFail::Memory));
        };
        match World::new(alloc, keepers) {
            Ok(world) => Ok(Servers { world, replicas }),
            Err(back) => Err(back),
        }
    }
}
