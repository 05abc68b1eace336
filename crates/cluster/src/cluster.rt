//! The cluster.

ghost use Rattle.std.specs.Prelude.{◌≡◌, length};

use cat_model::Entry;
use cluster_replicas::Servers;
use cluster_requests::Requests;
use cluster_works::{Agents, Watching};
use outside::Keeper;
use std::marker::Model;

/// A cluster of servers and of agents, each numbered from 1, and the requests that the agents were asked, numbered from
/// 1 in the order in which they came.
#[derive(Drop)]
pub struct Cluster<K: Keeper> {
    pub(crate) servers: Servers<K>,
    pub(crate) agents: Agents,
    pub(crate) requests: Requests,
    pub(crate) watch: Watching,
}

impl<K: Keeper> Model for Cluster<K> {
    ghost use Rattle.cluster_rules.specs.Cluster as rules;
    ghost use Rattle.cluster_requests.specs.Requests.{cluster_of};
    ghost use Rattle.cluster_works.specs.Standing.{Stands};

    ghost Value = { rules.Cluster };

    ghost view = { λ c. cluster_of c.servers.world c.servers.servers c.agents c.requests };

    ghost invariant = { λ c. Stands c.watch c.servers.world c.servers.servers c.requests };
}

impl<K: Keeper> Cluster<K> {
    /// How many servers there are.
    pub fn count(&self) -> u32
        ensures { result ≡ length self.now.servers }
    {
        self.servers.count()
    }

    /// How many agents there are.
    pub fn agents(&self) -> u32
        ensures { result ≡ length self.now.agents }
    {
        self.agents.count()
    }

    /// How many requests were asked.
    pub fn asked(&self) -> u64
        ensures { result ≡ self.now.asked }
    {
        self.requests.asked()
    }

    /// The longest list that any server has committed so far.
    pub fn agreed(&self) -> &[Entry]
        ensures { result.now ≡ self.now.world.agreed }
    {
        self.servers.agreed()
    }
}
