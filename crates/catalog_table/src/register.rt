//! Registration.

ghost use Rattle.std.specs.Prelude.{◌≡◌, IfErr, IfOk, OnOk, not};
ghost use Rattle.std.specs.List.{list_any};
ghost use Rattle.cat_model.specs.Keys.{same_text};
ghost use Rattle.cat_model.specs.Machine.{last_of_each, register as the_register};
ghost use Rattle.catalog_table.specs.Rows.{catalog_of};
ghost use Rattle.catalog_table.specs.Changes.{Tells};
ghost use Rattle.catalog_table.specs.Puts.{HaveIdsOnce};
ghost use Rattle.catalog_table.specs.Steps.{IsNotDone, IsRegister, IsStopped, gives, is_served, put_rows, step_of};
ghost use Rattle.catalog_table.specs.Touching.{put_touches};

use crate::once::{is_noted, note};
use crate::same::is_same;
use crate::services::ServiceTable;
use crate::set::{find_service, set_checks, set_given, set_node};
use crate::touched::Touched;
use crate::{CatalogTable, Changed, RegisterFault, copies};
use cat_model::{Applied, Command, List, Memory, NewCheck, NewService, Text};
use row_table::RowTable;
use std::alloc::Global;

// A copy of the check.
fn copy_of(check: &NewCheck) -> Result<NewCheck, Memory>
    ensures { IfOk result (λ copy. copy ≡ check.now) }
{
    Ok(check.clone()?)
}

/// Of the checks with equal IDs the last one.
pub(crate) fn counting(alloc: Global, checks: &[NewCheck]) -> Result<List<NewCheck>, Memory>
    ensures { IfOk result (λ l. l ≡ last_of_each checks.now) }
{
    let mut ids = RowTable::new(alloc);
    let mut found = Vec::new(alloc);
    let mut left = checks;
    while let Some((check, before)) = left.split_last() {
        if !is_noted(&ids, &check.id) {
            let id = copies::copy_of(&check.id)?;
            note(&mut ids, id)?;
            found.push(copy_of(check)?)?;
        }
        left = before;
    }
    found.reverse();
    Ok(List::from(found))
}

// Whether it is the registered service that has this ID.
fn has_new_id(service: &Option<NewService>, id: &Text) -> bool
    ensures { result ≡ gives service.now id.now }
{
    match service {
        None => false,
        Some(s) => is_same(&s.id, id),
    }
}

// Whether the check's service is empty, the registered one or one of the node.
fn serves(rows: &ServiceTable, node: &Text, service: &Option<NewService>, check: &NewCheck) -> bool
    ensures { result ≡ is_served node.now service.now rows.now.now check.now }
{
    check.service.len() == 0
        || has_new_id(service, &check.service)
        || find_service(rows, node, &check.service).is_some()
}

/// Whether the service of some check is neither on the node nor the one that is registered.
pub(crate) fn lacks(
    rows: &ServiceTable,
    node: &Text,
    service: &Option<NewService>,
    checks: &[NewCheck],
) -> bool
    ensures { result ≡ list_any (λ c. not (is_served node.now service.now rows.now.now c)) checks.now }
{
    checks.iter().any(|c| !serves(rows, node, service, c))
}

impl CatalogTable {
    fn put_all(
        &mut self,
        alloc: Global,
        position: u64,
        node: &Text,
        address: &Text,
        service: &Option<NewService>,
        checks: &[NewCheck],
    ) -> Result<Touched, Memory>
        ensures ok { OnOk result (self.new.now ≡ put_rows position node.now address.now service.now checks.now self.old.now) }
        ensures told { IfOk result (λ t. t ≡ put_touches position node.now address.now service.now checks.now self.old.now) }
        ensures before { self.new.before ≡ self.old.before }
    {
        let nodes = set_node(&mut self.nodes, position, node, address)?;
        let names = set_given(alloc, &mut self.services, position, node, service)?;
        let served = set_checks(alloc, &mut self.checks, position, node, checks)?;
        Ok(Touched {
            nodes,
            names,
            served,
        })
    }

    fn put_and_tell(
        &mut self,
        alloc: Global,
        position: u64,
        node: &Text,
        address: &Text,
        service: &Option<NewService>,
        checks: &[NewCheck],
    ) -> Result<Changed, Memory>
        requires { HaveIdsOnce checks.now }
        ensures ok { OnOk result (self.new.now ≡ put_rows position node.now address.now service.now checks.now self.old.now) }
        ensures tells { IfOk result (Tells self.old.now self.new.now) }
        ensures before { self.new.before ≡ self.old.before }
    {
        self.in_order();
        let touched = self.put_all(alloc, position, node, address, service, checks)?;
        self.changed_by(alloc, node.as_str(), touched, None)
    }

    fn try_register(
        &mut self,
        alloc: Global,
        position: u64,
        node: &Text,
        address: &Text,
        service: &Option<NewService>,
        checks: &[NewCheck],
    ) -> Result<Changed, RegisterFault>
        ensures ok { OnOk result (the_register position node.now address.now service.now checks.now (catalog_of self.old.now) ≡ (catalog_of self.new.now, Applied.Yes)) }
        ensures tells { IfOk result (Tells self.old.now self.new.now) }
        ensures before { self.new.before ≡ self.old.before }
        ensures fault { IfErr result (IsStopped (the_register position node.now address.now service.now checks.now (catalog_of self.old.now)) self.old self.new) }
    {
        let checks = counting(alloc, checks)?;
        if lacks(&self.services, node, service, checks.as_slice()) {
            return Err(RegisterFault::MissingService);
        }
        let changed = self.put_and_tell(
            alloc,
            position,
            node,
            address,
            service,
            checks.as_slice(),
        )?;
        Ok(changed)
    }

    /// Registers the node, and the service and the checks that the command has. Where it is refused nothing changes. Lack
    /// of memory takes back all that was done since the last `keep`, and not this call alone.
    #[tactic(auto, unfolding(cat_model::specs::Machine::act))]
    pub fn register(
        &mut self,
        alloc: Global,
        position: u64,
        command: &Command,
    ) -> Result<Changed, RegisterFault>
        requires { IsRegister command.now }
        ensures ok { OnOk result (step_of position command.now self.old.now ≡ (catalog_of self.new.now, Applied.Yes)) }
        ensures tells { IfOk result (Tells self.old.now self.new.now) }
        ensures before { OnOk result (self.new.before ≡ self.old.before) }
        ensures fault { IfErr result (IsNotDone (step_of position command.now self.old.now) self.old self.new) }
    {
        let Command::Register {
            node,
            address,
            service,
            checks,
        } = command
        else {
            unreachable!()
        };
        match self.try_register(alloc, position, node, address, service, checks.as_slice()) {
            Ok(changed) => Ok(changed),
            Err(RegisterFault::MissingService) => Err(RegisterFault::MissingService),
            Err(RegisterFault::Memory) => {
                self.undo();
                Err(RegisterFault::Memory)
            }
        }
    }
}
