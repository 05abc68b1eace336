//! What a server's catalog has of a node.

ghost use Rattle.std.specs.Prelude.{◌≡◌, IfOk};
ghost use Rattle.cluster_rules.specs.Agents.{remote_of};
ghost use Rattle.cat_model.specs.Log.{commands_of};
ghost use Rattle.cat_model.specs.Machine.{catalog_at};
ghost use Rattle.cluster_rules.specs.Cluster.{server_of};
ghost use Rattle.raft_world.specs.Steps.{IsNumber};

use crate::servers::Servers;
use cat_model::Memory;
use node_rows::CatalogRows;
use outside::Keeper;
use std::alloc::Global;

impl<K: Keeper> Servers<K> {
    /// The rows that the catalog has of this node at all that a server has applied, where they stand.
    pub fn remote<'a>(
        &'a self,
        alloc: Global,
        s: u32,
        node: &str,
    ) -> Result<CatalogRows<'a>, Memory>
        requires { IsNumber s self.now.world }
        ensures { IfOk result (λ remote. remote ≡ remote_of node.now (catalog_at (commands_of (server_of self.now.servers s).applied))) }
    {
        self.replica(s).remote(alloc, node)
    }
}
