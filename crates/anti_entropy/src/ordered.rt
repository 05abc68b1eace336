//! The rows of one side of a sync, in the order of their keys.

ghost use Rattle.std.specs.Prelude.{◌≡◌, IfOk};
ghost use Rattle.cat_model.specs.Syncs.{checks_in_order, services_in_order};
ghost use Rattle.anti_entropy.specs.Ordered.{IsOrdered};

use cat_model::{CheckRow, Memory, ServiceRow};
use node_rows::in_order;
use row_table::Seen;
use std::alloc::Global;

/// Services and checks.
#[derive(Drop)]
pub(crate) struct Ordered<'a> {
    pub(crate) services: Vec<Seen<'a, ServiceRow>>,
    pub(crate) checks: Vec<Seen<'a, CheckRow>>,
}

/// The rows in the order of their keys.
pub(crate) fn ordered_rows<'a>(
    alloc: Global,
    services: &[Seen<'a, ServiceRow>],
    checks: &[Seen<'a, CheckRow>],
) -> Result<Ordered<'a>, Memory>
    ensures services { IfOk result (λ rows. rows.services.items ≡ services_in_order services.now) }
    ensures checks { IfOk result (λ rows. rows.checks.items ≡ checks_in_order checks.now) }
    ensures order { IfOk result IsOrdered }
{
    Ok(Ordered {
        services: in_order(alloc, services)?,
        checks: in_order(alloc, checks)?,
    })
}
