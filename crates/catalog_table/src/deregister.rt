//! The undoing of a registration.

ghost use Rattle.std.specs.Prelude.{◌≡◌, ◌&&◌, [], IfOk, OnErr, OnOk, filter, not};
ghost use Rattle.std.specs.List.{cons_option, list_any};
ghost use Rattle.cat_model.specs.Catalog.{check_at, check_key, service_at, service_key};
ghost use Rattle.cat_model.specs.Keys.{is_empty, pair_cmp, same_text};
ghost use Rattle.cat_model.specs.Machine.{deregister as the_deregister};
ghost use Rattle.catalog_table.specs.Rows.{rows_of, catalog_of};
ghost use Rattle.catalog_table.specs.Changes.{AreGone, MayBeGone, Tells};
ghost use Rattle.catalog_table.specs.Steps.{IsUndone, step_of, take_service as the_take_service, take_check as the_take_check, take_node as the_take_node};
ghost use Rattle.catalog_table.specs.Takes.{without_each};
ghost use Rattle.catalog_table.specs.Touching.{check_services, check_touches, name_in, node_touches, service_touches, take_touches};

use crate::checks::CheckTable;
use crate::copies::copy_of;
use crate::names::{names_of, services_of};
use crate::once::each_once;
use crate::same::is_blank;
use crate::services::ServiceTable;
use crate::touched::Touched;
use crate::{CatalogTable, Changed};
use cat_model::lists::{kept, one};
use cat_model::{Applied, CheckRow, Command, List, Memory, ServiceRow, Text, Texts};
use row_table::ByNode;
use std::alloc::Global;

// Removes the rows of these services.
fn take_services(services: &mut ServiceTable, gone: &[ServiceRow])
    ensures now { services.new.now ≡ without_each pair_cmp service_key gone.now services.old.now }
    ensures before { services.new.before ≡ services.old.before }
{
    let mut left = gone;
    while let Some((row, rest)) = left.split_first() {
        services.remove(row.node.as_str(), row.id.as_str());
        left = rest;
    }
}

// Removes the rows of these checks.
fn take_checks(checks: &mut CheckTable, gone: &[CheckRow])
    ensures now { checks.new.now ≡ without_each pair_cmp check_key gone.now checks.old.now }
    ensures before { checks.new.before ≡ checks.old.before }
{
    let mut left = gone;
    while let Some((row, rest)) = left.split_first() {
        checks.remove(row.node.as_str(), row.id.as_str());
        left = rest;
    }
}

// The name of the service, if it is there.
fn name_at(alloc: Global, services: &ServiceTable, node: &str, id: &str) -> Result<Texts, Memory>
    ensures { IfOk result (λ l. l ≡ cons_option (name_in (service_at (node.now, id.now) services.now.now)) []) }
{
    match services.get(node, id) {
        Some(row) => one(alloc, copy_of(&row.name)?),
        None => Ok(List::new(alloc)),
    }
}

// The service of the check, if that is there.
fn service_of(alloc: Global, checks: &CheckTable, node: &str, id: &str) -> Result<Texts, Memory>
    ensures { IfOk result (λ l. l ≡ check_services (cons_option (check_at (node.now, id.now) checks.now.now) [])) }
{
    match checks.get(node, id) {
        Some(row) => one(alloc, copy_of(&row.service)?),
        None => Ok(List::new(alloc)),
    }
}

impl CatalogTable {
    fn take_service(&mut self, alloc: Global, node: &str, id: &str) -> Result<Touched, Memory>
        ensures now { OnOk result (self.new.now ≡ the_take_service node.now id.now self.old.now) }
        ensures told { IfOk result (λ t. t ≡ service_touches node.now id.now self.old.now) }
        ensures before { self.new.before ≡ self.old.before }
    {
        self.in_order();
        let names = name_at(alloc, &self.services, node, id)?;
        let gone = self.checks.of_service(alloc, node, id)?;
        let served = services_of(alloc, gone.as_slice())?;
        self.services.remove(node, id);
        take_checks(&mut self.checks, gone.as_slice());
        Ok(Touched {
            nodes: false,
            names,
            served,
        })
    }

    fn take_check(&mut self, alloc: Global, node: &str, id: &str) -> Result<Touched, Memory>
        ensures now { OnOk result (self.new.now ≡ the_take_check node.now id.now self.old.now) }
        ensures told { IfOk result (λ t. t ≡ check_touches node.now id.now self.old.now) }
        ensures before { self.new.before ≡ self.old.before }
    {
        let served = service_of(alloc, &self.checks, node, id)?;
        self.checks.remove(node, id);
        Ok(Touched {
            nodes: false,
            names: List::new(alloc),
            served,
        })
    }

    fn take_node(&mut self, alloc: Global, node: &str) -> Result<Touched, Memory>
        ensures now { OnOk result (self.new.now ≡ the_take_node node.now self.old.now) }
        ensures told { IfOk result (λ t. t ≡ node_touches node.now self.old.now) }
        ensures before { self.new.before ≡ self.old.before }
    {
        self.in_order();
        let services = self.services.of_node(alloc, node)?;
        let checks = self.checks.of_node(alloc, node)?;
        let names = names_of(alloc, services.as_slice())?;
        let served = services_of(alloc, checks.as_slice())?;
        let nodes = self.nodes.remove(&ByNode(node));
        take_services(&mut self.services, services.as_slice());
        take_checks(&mut self.checks, checks.as_slice());
        Ok(Touched {
            nodes,
            names,
            served,
        })
    }

    // Removes the service, or where that is empty the check, or where both are empty the node.
    #[tactic(auto, unfolding(cat_model::specs::Machine::deregister))]
    fn take(
        &mut self,
        alloc: Global,
        node: &str,
        service: &str,
        check: &str,
    ) -> Result<Touched, Memory>
        ensures now { OnOk result (self.new.now ≡ rows_of (the_deregister node.now service.now check.now (catalog_of self.old.now))) }
        ensures told { IfOk result (λ t. t ≡ take_touches node.now service.now check.now self.old.now) }
        ensures before { self.new.before ≡ self.old.before }
    {
        if !is_blank(service) {
            self.take_service(alloc, node, service)
        } else if !is_blank(check) {
            self.take_check(alloc, node, check)
        } else {
            self.take_node(alloc, node)
        }
    }

    // Whether a service of another node has this name.
    fn is_elsewhere(&self, name: &Text, node: &str) -> bool
        ensures { result ≡ list_any (λ r. same_text r.name name.now && not (same_text r.node node.now)) self.now.now.services }
    {
        self.services.is_elsewhere(name.as_str(), node)
    }

    // Those of the names that the other nodes' services do not have.
    fn names_apart(&self, alloc: Global, names: &[Text], node: &str) -> Result<Texts, Memory>
        ensures { IfOk result (λ l. l ≡ filter (λ n. not (list_any (λ r. same_text r.name n && not (same_text r.node node.now)) self.now.now.services)) names.now) }
    {
        kept(alloc, names, |n| !self.is_elsewhere(n, node))
    }

    // The names that the node's services alone have, each once.
    fn names_alone(&self, alloc: Global, node: &str) -> Result<Texts, Memory>
        ensures { IfOk result (AreGone self.now.now (the_take_node node.now self.now.now)) }
    {
        let mut names = List::new(alloc);
        self.services.add_names_on(&mut names, node)?;
        let names = each_once(alloc, names)?;
        self.names_apart(alloc, names.as_slice(), node)
    }

    // The names that vanish, where it is the node that will be removed. They are told beforehand, since behind it each
    // look for a name would walk over the places of the services that went.
    #[tactic(auto, unfolding(cat_model::specs::Machine::deregister))]
    fn gone_with(
        &self,
        alloc: Global,
        node: &str,
        service: &str,
        check: &str,
    ) -> Result<Option<Texts>, Memory>
        ensures { IfOk result (MayBeGone self.now.now (rows_of (the_deregister node.now service.now check.now (catalog_of self.now.now)))) }
    {
        if is_blank(service) && is_blank(check) {
            Ok(Some(self.names_alone(alloc, node)?))
        } else {
            Ok(None)
        }
    }

    fn take_and_tell(
        &mut self,
        alloc: Global,
        node: &str,
        service: &str,
        check: &str,
    ) -> Result<Changed, Memory>
        ensures ok { OnOk result (self.new.now ≡ rows_of (the_deregister node.now service.now check.now (catalog_of self.old.now))) }
        ensures tells { IfOk result (Tells self.old.now self.new.now) }
        ensures before { self.new.before ≡ self.old.before }
    {
        self.in_order();
        let known = self.gone_with(alloc, node, service, check)?;
        let touched = self.take(alloc, node, service, check)?;
        self.changed_by(alloc, node, touched, known)
    }

    /// Removes the service with its checks, or where `service` is empty the check, or where both are empty the node with
    /// all its services and checks. Lack of memory takes back all that was done since the last `keep`, and not this call
    /// alone.
    pub fn deregister(
        &mut self,
        alloc: Global,
        position: u64,
        node: &str,
        service: &str,
        check: &str,
    ) -> Result<Changed, Memory>
        ensures ok { OnOk result (step_of position (Command.Deregister node.now service.now check.now) self.old.now ≡ (catalog_of self.new.now, Applied.Yes)) }
        ensures tells { IfOk result (Tells self.old.now self.new.now) }
        ensures before { OnOk result (self.new.before ≡ self.old.before) }
        ensures err { OnErr result (IsUndone self.old self.new) }
    {
        match self.take_and_tell(alloc, node, service, check) {
            Ok(changed) => Ok(changed),
            Err(memory) => {
                self.undo();
                Err(memory)
            }
        }
    }
}
