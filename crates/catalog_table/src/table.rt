ghost use Rattle.std.specs.Prelude.{◌&&◌, ◌||◌, ◌≡◌, ℕ, List as Items, IfErr, IfOk, OnErr, OnOk, filter, map};
ghost use Rattle.std.specs.List.{IsDistinct};
ghost use Rattle.std.specs.Option.{option_copied};
ghost use Rattle.cat_model.specs.Keys.{is_empty, text_cmp, pair_cmp, same_text};
ghost use Rattle.cat_model.specs.Same.{same_status};
ghost use Rattle.cat_model.specs.Tables.{Ascends};
ghost use Rattle.cat_model.specs.Catalog.{node_at, service_at, check_at, node_key, service_key, check_key};
ghost use Rattle.catalog_table.specs.Rows.{Rows, no_rows, catalog_of, InOrder};
ghost use Rattle.catalog_table.specs.Names.{is_among};
ghost use Rattle.catalog_table.specs.Touching.{names_read, Touches};
ghost use Rattle.catalog_table.specs.Changes.{gone_of, is_named, MayBeGone, Tells};
ghost use Rattle.catalog_table.specs.Steps.{IsRegister, IsNotDone, IsUndone, step_of, put_rows, take_service, take_check, take_node};

use crate::checks::CheckTable;
use crate::copies::all;
use crate::names::{is_some_of, names_read};
use crate::once::each_once;
use crate::services::ServiceTable;
use crate::touched::Touched;
use crate::{Changed, RegisterFault};
use cat_model::lists::kept;
use cat_model::{CheckRow, List, Memory, NodeRow, ServiceRow, Status, Text, Texts};
use row_table::{ByNode, RowTable};
use std::alloc::Global;
use std::marker::Model;

/// The nodes, services and checks, each list in the order of its keys. Contracts see them as they are now and as they
/// stood at the last `keep`, or at `new` where there was none. Positions are those of the log.
#[derive(Drop)]
pub struct CatalogTable {
    pub(crate) nodes: RowTable<NodeRow>,
    pub(crate) services: ServiceTable,
    pub(crate) checks: CheckTable,
}

impl Model for CatalogTable {
    ghost use Rattle.catalog_table.specs.Rows.{RowsVersions};

    ghost Value = { RowsVersions };

    ghost view = { λ t. record { now = record { nodes = t.nodes.now; services = t.services.now; checks = t.checks.now }; before = record { nodes = t.nodes.before; services = t.services.before; checks = t.checks.before } } };
}

impl CatalogTable {
    /// The empty table, which takes no memory.
    pub fn new(alloc: Global) -> CatalogTable
        ensures now { result.now ≡ no_rows }
        ensures before { result.before ≡ no_rows }
    {
        CatalogTable {
            nodes: RowTable::new(alloc),
            services: ServiceTable::new(alloc),
            checks: CheckTable::new(alloc),
        }
    }

    /// The node of this name.
    pub fn node(&self, node: &str) -> Option<&NodeRow>
        ensures { option_copied result ≡ node_at node.now self.now.now.nodes }
    {
        self.nodes.get(&ByNode(node))
    }

    /// The service of this ID on the node.
    pub fn service(&self, node: &str, id: &str) -> Option<&ServiceRow>
        ensures { option_copied result ≡ service_at (node.now, id.now) self.now.now.services }
    {
        self.services.get(node, id)
    }

    /// The check of this ID on the node.
    pub fn check(&self, node: &str, id: &str) -> Option<&CheckRow>
        ensures { option_copied result ≡ check_at (node.now, id.now) self.now.now.checks }
    {
        self.checks.get(node, id)
    }

    /// Whether some service has this name.
    pub fn has_name(&self, name: &str) -> bool
        ensures { result ≡ is_named name.now self.now.now }
    {
        self.services.has_name(name)
    }

    /// Copies of the names of all services, by node and then by ID.
    pub fn service_names(&self, alloc: Global) -> Result<Texts, Memory>
        ensures { IfOk result (λ l. l ≡ map (λ r. r.name) self.now.now.services) }
    {
        self.services.each_name(alloc)
    }

    /// Copies of the services with this name, by node and then by ID.
    pub fn services_named(&self, alloc: Global, name: &str) -> Result<List<ServiceRow>, Memory>
        ensures { IfOk result (λ l. l ≡ filter (λ r. same_text r.name name.now) self.now.now.services) }
    {
        self.services.named(alloc, name)
    }

    /// Copies of the node's services, by ID.
    pub fn services_of(&self, alloc: Global, node: &str) -> Result<List<ServiceRow>, Memory>
        ensures { IfOk result (λ l. l ≡ filter (λ r. same_text r.node node.now) self.now.now.services) }
    {
        self.services.of_node(alloc, node)
    }

    /// Copies of the node's checks, by ID.
    pub fn checks_of(&self, alloc: Global, node: &str) -> Result<List<CheckRow>, Memory>
        ensures { IfOk result (λ l. l ≡ filter (λ r. same_text r.node node.now) self.now.now.checks) }
    {
        self.checks.of_node(alloc, node)
    }

    /// Copies of the checks of a service of the node, by ID.
    pub fn checks_of_service(
        &self,
        alloc: Global,
        node: &str,
        service: &str,
    ) -> Result<List<CheckRow>, Memory>
        ensures { IfOk result (λ l. l ≡ filter (λ r. same_text r.node node.now && same_text r.service service.now) self.now.now.checks) }
    {
        self.checks.of_service(alloc, node, service)
    }

    /// Copies of the checks that count for a service of the node, by ID: its own and the node's own.
    pub fn checks_for(
        &self,
        alloc: Global,
        node: &str,
        service: &str,
    ) -> Result<List<CheckRow>, Memory>
        ensures { IfOk result (λ l. l ≡ filter (λ r. same_text r.node node.now && (is_empty r.service || same_text r.service service.now)) self.now.now.checks) }
    {
        self.checks.counting_for(alloc, node, service)
    }

    /// Copies of the checks in this state, by node and then by ID.
    pub fn checks_with(&self, alloc: Global, status: Status) -> Result<List<CheckRow>, Memory>
        ensures { IfOk result (λ l. l ≡ filter (λ r. same_status r.status status) self.now.now.checks) }
    {
        self.checks.with_status(alloc, status)
    }

    /// Copies of all nodes, by name.
    pub fn nodes(&self, alloc: Global) -> Result<List<NodeRow>, Memory>
        ensures { IfOk result (λ l. l ≡ self.now.now.nodes) }
    {
        all(alloc, &self.nodes)
    }

    /// Copies of all services, by node and then by ID.
    pub fn services(&self, alloc: Global) -> Result<List<ServiceRow>, Memory>
        ensures { IfOk result (λ l. l ≡ self.now.now.services) }
    {
        self.services.all(alloc)
    }

    /// Copies of all checks, by node and then by ID.
    pub fn checks(&self, alloc: Global) -> Result<List<CheckRow>, Memory>
        ensures { IfOk result (λ l. l ≡ self.now.now.checks) }
    {
        self.checks.all(alloc)
    }

    /// Tells a proof that the rows are in the order of their keys.
    pub fn in_order(&self)
        ensures { InOrder self.now.now }
    {
        self.nodes.in_order();
        self.services.in_order();
        self.checks.in_order();
    }

    /// Makes the rows that are there those to which `undo` goes back.
    pub fn keep(&mut self)
        ensures now { self.new.now ≡ self.old.now }
        ensures before { self.new.before ≡ self.old.now }
    {
        self.nodes.keep();
        self.services.keep();
        self.checks.keep();
    }

    /// Makes the rows again those of the last `keep`, or of `new` where there was none.
    pub fn undo(&mut self)
        ensures { IsUndone self.old self.new }
    {
        self.nodes.undo();
        self.services.undo();
        self.checks.undo();
    }

    // Those of the names that no service has, or those of which that is known.
    fn vanished(&self, alloc: Global, names: &[Text], known: Option<Texts>) -> Result<Texts, Memory>
        ensures { IfOk result (λ l. l ≡ gone_of self.now.now names.now known) }
    {
        match known {
            Some(names) => Ok(names),
            None => kept(alloc, names, |n| !self.has_name(n.as_str())),
        }
    }

    // The names of which a read takes something else, each once.
    fn names_changed(&self, alloc: Global, node: &str, touched: Touched) -> Result<Texts, Memory>
        ensures among { IfOk result (λ l. (name : Items ℕ) → is_among l name ≡ is_among (names_read node.now self.now.now touched) name) }
        ensures once { IfOk result (IsDistinct same_text) }
    {
        let names = names_read(&self.services, node, touched)?;
        each_once(alloc, names)
    }

    // What changed, where this is what was touched of the node, and these names vanished, if that is known.
    pub(crate) fn changed_by(
        &self,
        alloc: Global,
        node: &str,
        touched: Touched,
        known: Option<Texts>,
    ) -> Result<Changed, Memory>
        ensures { IfOk result (λ c. (old : Rows) → Touches node.now old self.now.now touched → MayBeGone old self.now.now known → Tells old self.now.now c) }
    {
        let nodes = touched.nodes;
        let services = is_some_of(touched.names.as_slice());
        let checks = is_some_of(touched.served.as_slice());
        let names = self.names_changed(alloc, node, touched)?;
        let vanished = self.vanished(alloc, names.as_slice(), known)?;
        Ok(Changed {
            nodes,
            services,
            checks,
            names,
            vanished,
        })
    }
}
