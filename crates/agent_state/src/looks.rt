//! An agent's rows, looked at where they stand.

ghost use Rattle.std.specs.Prelude.{◌≡◌, ◌∷◌, ◌<◌, ◌++◌, ℕ, IfOk, OnOk, map};
ghost use Rattle.cluster_rules.specs.Agents as rules;
ghost use Rattle.agent_state.specs.Own.{AreOwn};

use crate::agent::Agent;
use crate::checks::SERF_HEALTH;
use crate::names::agent_node;
use crate::watched::Watched;
use cat_model::{CheckRow, Memory, NodeRow, Status, Text};
use node_rows::{OwnRows, all_seen};
use row_table::Seen;
use std::alloc::Global;

/// The rows that an agent has without being asked for them.
#[derive(Debug, Drop)]
pub struct OwnParts {
    /// That of its node.
    pub node: NodeRow,
    /// The check that it has of its node.
    pub serf: CheckRow,
}

// The row of an agent's node.
fn node_row(alloc: Global, number: u32) -> Result<NodeRow, Memory>
    requires { number < 100 }
    ensures { IfOk result (λ row. row ≡ rules.node_row number) }
{
    Ok(NodeRow {
        node: agent_node(alloc, number)?,
        address: Text::new(alloc, "127.0.0.1")?,
        create: 0,
        modify: 0,
    })
}

/// The check that an agent has of its own node.
pub(crate) fn serf_row(alloc: Global, number: u32) -> Result<CheckRow, Memory>
    requires { number < 100 }
    ensures { IfOk result (λ row. row ≡ rules.serf_row number) }
{
    Ok(CheckRow {
        node: agent_node(alloc, number)?,
        id: Text::new(alloc, SERF_HEALTH)?,
        name: Text::new(alloc, "Serf Health Status")?,
        status: Status::Passing,
        notes: Text::new(alloc, "")?,
        output: Text::new(alloc, "")?,
        service: Text::new(alloc, "")?,
        create: 0,
        modify: 0,
    })
}

/// The rows that an agent has without being asked for them.
pub fn own_parts(alloc: Global, number: u32) -> Result<OwnParts, Memory>
    requires { number < 100 }
    ensures { IfOk result (AreOwn number) }
{
    Ok(OwnParts {
        node: node_row(alloc, number)?,
        serf: serf_row(alloc, number)?,
    })
}

// Adds the rows of these checks.
fn add_rows<'a>(found: &mut Vec<Seen<'a, CheckRow>>, checks: &'a [Watched]) -> Result<(), Memory>
    ensures { OnOk result (found.new.items ≡ found.old.items ++ map (λ (w : rules.Watched). w.row) checks.now) }
{
    for w in checks {
        found.push(Seen::new(&w.row))?;
    }
    Ok(())
}

// The rows of all checks, the agent's own first.
fn all_rows<'a>(
    alloc: Global,
    serf: &'a CheckRow,
    checks: &'a [Watched],
) -> Result<Vec<Seen<'a, CheckRow>>, Memory>
    ensures { IfOk result (λ v. v.items ≡ serf.now ∷ map (λ (w : rules.Watched). w.row) checks.now) }
{
    let mut found = Vec::new(alloc);
    found.push(Seen::new(serf))?;
    add_rows(&mut found, checks)?;
    Ok(found)
}

impl Agent {
    /// Its rows, which its syncs make those of the catalog, beside those that it has without being asked.
    pub fn own_rows<'a>(&'a self, alloc: Global, own: &'a OwnParts) -> Result<OwnRows<'a>, Memory>
        ensures { IfOk result (λ rows. (number : ℕ) → AreOwn number own.now → rows ≡ rules.local_of number self.now) }
    {
        Ok(OwnRows {
            node: Some(&own.node),
            services: all_seen(alloc, self.services.as_slice())?,
            checks: all_rows(alloc, &own.serf, self.checks.as_slice())?,
        })
    }
}
