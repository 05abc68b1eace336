//! The catalog's rows of an agent's node.

ghost use Rattle.std.specs.Prelude.{◌≡◌, ℕ, IfOk};
ghost use Rattle.cluster_rules.specs.Agents.{agent_node};
ghost use Rattle.cluster_rules.specs.Proposals.{remote_at};
ghost use Rattle.cluster_rules.specs.Reached.{IsServerNumber};

use crate::cluster::Cluster;
use cat_model::Memory;
use node_rows::CatalogRows;
use outside::Keeper;
use std::alloc::Global;

impl<K: Keeper> Cluster<K> {
    /// The catalog's rows of the node of this name, by what a server has applied, where they stand.
    #[tactic(auto, using(crate::proofs::Numbers::is_number))]
    pub(crate) fn remote_rows<'a>(
        &'a self,
        alloc: Global,
        server: u32,
        node: &str,
    ) -> Result<CatalogRows<'a>, Memory>
        requires { IsServerNumber self.now server }
        ensures { IfOk result (λ remote. (agent : ℕ) → node.now ≡ agent_node agent → remote ≡ remote_at agent server self.now) }
    {
        self.servers.remote(alloc, server, node)
    }
}
