//! The rows of one node, looked at where they stand.

ghost use Rattle.std.specs.Prelude.{◌≡◌, IfOk, filter};
ghost use Rattle.cat_model.specs.Keys.{same_text};

use crate::CatalogTable;
use cat_model::{CheckRow, Memory, ServiceRow};
use row_table::{ByNode, RowTable, Seen};
use std::alloc::Global;

/// The rows of the node's services.
pub(crate) fn services_on<'a>(
    alloc: Global,
    rows: &'a RowTable<ServiceRow>,
    node: &str,
) -> Result<Vec<Seen<'a, ServiceRow>>, Memory>
    ensures { IfOk result (λ v. v.items ≡ filter (λ r. same_text r.node node.now) rows.now.now) }
{
    rows.group(alloc, &ByNode(node))
}

/// The rows of the node's checks.
pub(crate) fn checks_on<'a>(
    alloc: Global,
    rows: &'a RowTable<CheckRow>,
    node: &str,
) -> Result<Vec<Seen<'a, CheckRow>>, Memory>
    ensures { IfOk result (λ v. v.items ≡ filter (λ r. same_text r.node node.now) rows.now.now) }
{
    rows.group(alloc, &ByNode(node))
}

impl CatalogTable {
    /// The node's services, by ID.
    pub fn services_on(
        &self,
        alloc: Global,
        node: &str,
    ) -> Result<Vec<Seen<'_, ServiceRow>>, Memory>
        ensures { IfOk result (λ v. v.items ≡ filter (λ r. same_text r.node node.now) self.now.now.services) }
    {
        self.services.on_node(alloc, node)
    }

    /// The node's checks, by ID.
    pub fn checks_on(&self, alloc: Global, node: &str) -> Result<Vec<Seen<'_, CheckRow>>, Memory>
        ensures { IfOk result (λ v. v.items ≡ filter (λ r. same_text r.node node.now) self.now.now.checks) }
    {
        self.checks.on_node(alloc, node)
    }
}
