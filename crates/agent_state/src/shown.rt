//! What an agent shows: the bodies of its answers.

ghost use Rattle.std.specs.Prelude.{◌≡◌, ◌∷◌, ◌<◌, IfOk, map};
ghost use Rattle.std.specs.Option.{option_copied};
ghost use Rattle.cluster_rules.specs.Agents as rules;
ghost use Rattle.agent_state.specs.Order.{ServicesAscend};
ghost use Rattle.cat_model.specs.declared.request.AgentOp.TheVariants as op;

use crate::agent::Agent;
use crate::bodies::{checks_body, services_body};
use crate::looks::serf_row;
use crate::watched::Watched;
use cat_model::lists::{copy_of, joined, made, one};
use cat_model::{AgentOp, Bytes, CheckRow, CheckView, List, Memory, ServiceRow, Text};
use node_rows::{find_row, is_blank};
use row_table::ByPair;
use std::alloc::Global;

fn row_of(w: &Watched) -> Result<CheckRow, Memory>
    ensures { IfOk result (λ row. row ≡ w.now.row) }
{
    copy_of(&w.row)
}

// The rows of all checks, the agent's own first.
fn check_rows(alloc: Global, number: u32, checks: &[Watched]) -> Result<List<CheckRow>, Memory>
    requires { number < 100 }
    ensures { IfOk result (λ rows. rows ≡ rules.serf_row number ∷ map (λ (w : rules.Watched). w.row) checks.now) }
{
    let own = one(alloc, serf_row(alloc, number)?)?;
    let others = made(alloc, checks, |w| row_of(w))?;
    joined(own, others)
}

fn name_of(alloc: Global, service: Option<&ServiceRow>) -> Result<Text, Memory>
    ensures { IfOk result (λ name. name ≡ rules.name_of (option_copied service.entry)) }
{
    match service {
        None => Text::new(alloc, ""),
        Some(service) => Ok(service.name.clone()?),
    }
}

// A check with the name of its service, where that is local.
fn view_of(alloc: Global, services: &[ServiceRow], row: &CheckRow) -> Result<CheckView, Memory>
    requires { ServicesAscend services.now }
    ensures { IfOk result (λ check. check ≡ rules.view_of services.now row.now) }
{
    let service_name = if is_blank(&row.service) {
        Text::new(alloc, "")?
    } else {
        let key = ByPair {
            node: row.node.as_str(),
            id: row.service.as_str(),
        };
        name_of(alloc, find_row(services, &key))?
    };
    Ok(CheckView {
        row: copy_of(row)?,
        service_name,
    })
}

// The checks with the names of their services.
fn views_of(
    alloc: Global,
    services: &[ServiceRow],
    rows: &[CheckRow],
) -> Result<List<CheckView>, Memory>
    requires { ServicesAscend services.now }
    ensures { IfOk result (λ views. views ≡ map (rules.view_of services.now) rows.now) }
{
    made(alloc, rows, |row| view_of(alloc, services, row))
}

impl Agent {
    // The body that lists its checks.
    fn checks_shown(&self, alloc: Global, number: u32) -> Result<Bytes, Memory>
        requires { number < 100 }
        ensures { IfOk result (λ body. body ≡ rules.agent_body number op.Checks self.now) }
    {
        let rows = check_rows(alloc, number, self.checks.as_slice())?;
        let views = views_of(alloc, self.services.as_slice(), rows.as_slice())?;
        checks_body(alloc, views.as_slice())
    }

    /// The body of its answer. That to a change is empty.
    pub fn body(&self, alloc: Global, number: u32, op: &AgentOp) -> Result<Bytes, Memory>
        requires { number < 100 }
        ensures { IfOk result (λ body. body ≡ rules.agent_body number op.now self.now) }
    {
        match op {
            AgentOp::Services => services_body(alloc, self.services.as_slice()),
            AgentOp::Checks => self.checks_shown(alloc, number),
            _ => Bytes::new(alloc, b""),
        }
    }
}
