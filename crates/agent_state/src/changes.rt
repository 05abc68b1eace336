//! What an agent does with a request.

ghost use Rattle.std.specs.Prelude.{◌≡◌, ◌<◌, ◌↔◌, IfOk, OnErr, OnOk, Some, None, is_some, true, map};
ghost use Rattle.cat_model.specs.Keys.{pair_cmp, same_text};
ghost use Rattle.cat_model.specs.Tables.{put, without};
ghost use Rattle.cat_model.specs.Catalog.{service_key};
ghost use Rattle.cluster_rules.specs.Agents as rules;
ghost use Rattle.cat_model.specs.declared.request.AgentOp.TheVariants as op;

use crate::agent::Agent;
use crate::checks::{
    drop_checks, drop_checks_of, has_check, has_own, is_own, marked, place_checks, watched_rows,
};
use crate::fault::ChangeFault;
use crate::replacements::{replace_all, replacements};
use crate::services::{drop_services, has_service, service_row};
use crate::watched::watched_row;
use cat_model::{AgentOp, Memory, ServiceDef, Status, Text, TtlDef};
use node_rows::{is_blank, place, place_in_room};
use std::alloc::Global;

impl Agent {
    // One more check, or another in the place of the one with its ID.
    fn watch(&mut self, alloc: Global, number: u32, check: &TtlDef) -> Result<(), Memory>
        requires { number < 100 }
        ensures ok { OnOk result (self.new ≡ rules.watch number check.now self.old) }
        ensures err { OnErr result (self.new ≡ self.old) }
    {
        let new = watched_row(alloc, number, self.clock, check)?;
        place(&mut self.checks, new)
    }

    // A service with its checks. All that is new is made first.
    #[tactic(auto, using(crate::proofs::Orders::watched_all))]
    fn add_service(
        &mut self,
        alloc: Global,
        number: u32,
        service: &ServiceDef,
        checks: &[TtlDef],
    ) -> Result<(), Memory>
        requires { number < 100 }
        ensures ok { OnOk result (self.new ≡ rules.watch_all number checks.now (record self.old { services = put pair_cmp service_key (rules.service_row number service.now) self.old.services })) }
        ensures err { OnErr result (self.new ≡ self.old) }
    {
        let row = service_row(alloc, number, service)?;
        let new = watched_rows(alloc, number, self.clock, checks)?;
        self.services.reserve(1)?;
        self.checks.reserve(new.len())?;
        place_in_room(&mut self.services, row);
        place_checks(&mut self.checks, new);
        Ok(())
    }

    fn drop_service(&mut self, id: &Text)
        ensures { self.new ≡ record self.old { services = without (λ s. same_text s.id id.now) self.old.services; checks = without (λ (w : rules.Watched). same_text w.row.service id.now) self.old.checks } }
    {
        drop_services(id, &mut self.services);
        drop_checks_of(id, &mut self.checks);
    }

    fn drop_check(&mut self, id: &Text)
        ensures { self.new ≡ record self.old { checks = without (λ (w : rules.Watched). same_text w.row.id id.now) self.old.checks } }
    {
        drop_checks(id, &mut self.checks);
    }

    fn mark(
        &mut self,
        alloc: Global,
        id: &Text,
        status: Status,
        output: &Text,
    ) -> Result<(), Memory>
        ensures ok { OnOk result (self.new ≡ record self.old { checks = map (rules.noted_check id.now status output.now self.old.clock) self.old.checks }) }
        ensures err { OnErr result (self.new ≡ self.old) }
    {
        let now = self.clock;
        let new = replacements(
            alloc,
            self.checks.as_slice(),
            |w| marked(id, status, output, now, w),
        )?;
        replace_all(&mut self.checks, new);
        Ok(())
    }

    // The check may be added.
    fn takes_check(&self, number: u32, check: &TtlDef) -> bool
        requires { number < 100 }
        ensures { result ≡ is_some (rules.change number (op.AddCheck check.now) self.now) }
    {
        !is_own(&check.id)
            && (is_blank(&check.service)
                || has_service(number, &check.service, self.services.as_slice()))
    }

    /// Whether the agent does what it is asked: all that the request names is there, and none of it is the agent's own
    /// check.
    pub fn can_change(&self, number: u32, op: &AgentOp) -> bool
        requires { number < 100 }
        ensures { result ≡ is_some (rules.change number op.now self.now) }
    {
        match op {
            AgentOp::Services | AgentOp::Checks => true,
            AgentOp::AddService { checks, .. } => !has_own(checks.as_slice()),
            AgentOp::DropService { id } => has_service(number, id, self.services.as_slice()),
            AgentOp::AddCheck { check } => self.takes_check(number, check),
            AgentOp::DropCheck { id } | AgentOp::Mark { id, .. } => {
                has_check(number, id, self.checks.as_slice())
            }
        }
    }

    // Does what it may.
    fn enact(&mut self, alloc: Global, number: u32, op: &AgentOp) -> Result<(), Memory>
        requires number { number < 100 }
        requires can { is_some (rules.change number op.now self.old) ≡ true }
        ensures ok { OnOk result (rules.change number op.now self.old ≡ Some self.new) }
        ensures err { OnErr result (self.new ≡ self.old) }
    {
        match op {
            AgentOp::Services | AgentOp::Checks => Ok(()),
            AgentOp::AddService { service, checks } => {
                self.add_service(alloc, number, service, checks.as_slice())
            }
            AgentOp::DropService { id } => {
                self.drop_service(id);
                Ok(())
            }
            AgentOp::AddCheck { check } => self.watch(alloc, number, check),
            AgentOp::DropCheck { id } => {
                self.drop_check(id);
                Ok(())
            }
            AgentOp::Mark { id, status, output } => self.mark(alloc, id, *status, output),
        }
    }

    /// Does what it is asked. Of a service with checks all is taken, or nothing; after a fault all is as before.
    pub fn change(&mut self, alloc: Global, number: u32, op: &AgentOp) -> Result<(), ChangeFault>
        requires { number < 100 }
        ensures ok { OnOk result (rules.change number op.now self.old ≡ Some self.new) }
        ensures unknown { (result ≡ Err ChangeFault.Unknown) ↔ (rules.change number op.now self.old ≡ None) }
        ensures err { OnErr result (self.new ≡ self.old) }
    {
        if !self.can_change(number, op) {
            return Err(ChangeFault::Unknown);
        }
        self.enact(alloc, number, op)?;
        Ok(())
    }
}
