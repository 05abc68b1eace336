//! What a leading server proposes for no request.

ghost use Rattle.std.specs.Prelude.{◌≡◌, ◌≤◌, length, true};
ghost use Rattle.cluster_rules.specs.Cluster.{runs_leading};
ghost use Rattle.cluster_rules.specs.Proposals.{Proposals};
ghost use Rattle.cluster_rules.specs.Reached.{IsServerNumber};

use crate::cluster::Cluster;
use cat_model::Command;
use cluster_works::{Proposed, propose_all};
use outside::Keeper;
use std::alloc::Global;

impl<K: Keeper + Drop> Cluster<K> {
    /// Proposes commands at a server that leads, in their order and for no request, up to the first that the log has no
    /// room for or at which the server's store fails.
    pub(crate) fn propose_all(
        &mut self,
        alloc: Global,
        server: u32,
        commands: &[Command],
    ) -> Proposed
        requires server { IsServerNumber self.old server }
        requires leads { runs_leading self.old.world server ≡ true }
        ensures proposals { Proposals server commands.now self.old result.entered self.new result.whole }
        ensures count { result.entered ≤ length commands.now }
        ensures servers { self.new.servers ≡ self.old.servers }
    {
        propose_all(
            &mut self.servers,
            &mut self.requests,
            alloc,
            server,
            commands,
        )
    }
}
