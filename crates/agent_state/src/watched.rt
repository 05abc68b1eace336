//! A check of an agent, with its TTL.

ghost use Rattle.std.specs.Prelude.{◌≡◌, ◌+◌, ◌<◌, IfOk};
ghost use Rattle.cat_model.proofs.Pairs.{exact_pair, pair_cmp_total};
ghost use Rattle.cat_model.specs.Keys.{pair_cmp};
ghost use Rattle.cluster_rules.specs.Agents as rules;

use crate::names::agent_node;
use cat_model::{CheckRow, Memory, Status, Text, TtlDef};
use row_table::Row;
use std::alloc::Global;
use std::cmp::Ordering;
use std::marker::Model;

/// A check with its TTL, in milliseconds, and since when that counts by the agent's clock.
#[derive(Clone, Debug, Drop)]
pub(crate) struct Watched {
    pub(crate) row: CheckRow,
    pub(crate) ttl: u64,
    pub(crate) since: u64,
}

impl Model for Watched {
    ghost use Rattle.cluster_rules.specs.Agents as rules;

    ghost Value = { rules.Watched };

    ghost view = { λ w. record { row = w.row; ttl = w.ttl; since = w.since } };
}

impl Row for Watched {
    type Key = (Text, Text);

    ghost key = { rules.watched_key };

    ghost cmp = { pair_cmp };

    ghost total = { pair_cmp_total };

    ghost exact = { exact_pair };

    fn order(&self, other: &Watched) -> Ordering {
        self.row.order(&other.row)
    }

    fn copy(&self) -> Result<Watched, Memory> {
        Ok(self.clone()?)
    }
}

/// A check as it was asked for, whose TTL counts from now.
pub(crate) fn watched_row(
    alloc: Global,
    number: u32,
    now: u64,
    check: &TtlDef,
) -> Result<Watched, Memory>
    requires { number < 100 }
    ensures { IfOk result (λ w. w ≡ rules.watched number now check.now) }
{
    let row = CheckRow {
        node: agent_node(alloc, number)?,
        id: check.id.clone()?,
        name: check.name.clone()?,
        status: check.status,
        notes: check.notes.clone()?,
        output: Text::new(alloc, "")?,
        service: check.service.clone()?,
        create: 0,
        modify: 0,
    };
    Ok(Watched {
        row,
        ttl: check.ttl_ms,
        since: now,
    })
}
