//! Services by their keys.

ghost use Rattle.std.specs.Prelude.{◌≡◌, ◌<◌, IfOk, is_some};
ghost use Rattle.std.specs.Option.{option_copied};
ghost use Rattle.cat_model.specs.Keys.{pair_cmp, same_text};
ghost use Rattle.cat_model.specs.Tables.{without};
ghost use Rattle.cat_model.specs.Catalog.{service_at};
ghost use Rattle.cluster_rules.specs.Agents.{agent_node, service_row};
ghost use Rattle.agent_state.specs.Order.{ServicesAscend};

use crate::names::{agent_node, compare_own};
use cat_model::{Memory, ServiceDef, ServiceRow, Text};
use node_rows::is_same;
use std::alloc::Global;

/// An agent's service as it was asked for.
pub(crate) fn service_row(
    alloc: Global,
    number: u32,
    service: &ServiceDef,
) -> Result<ServiceRow, Memory>
    requires { number < 100 }
    ensures { IfOk result (λ row. row ≡ service_row number service.now) }
{
    Ok(ServiceRow {
        node: agent_node(alloc, number)?,
        id: service.id.clone()?,
        name: service.name.clone()?,
        tags: service.tags.clone()?,
        address: service.address.clone()?,
        port: service.port,
        tag_override: service.tag_override,
        create: 0,
        modify: 0,
    })
}

// An agent's service of this ID.
fn own_service<'a>(number: u32, id: &Text, rows: &'a [ServiceRow]) -> Option<&'a ServiceRow>
    requires { number < 100 }
    ensures { option_copied result ≡ service_at (agent_node number, id.now) rows.now }
{
    rows.iter()
        .find(|r| compare_own(number, id, &r.node, &r.id).is_eq())
}

/// Whether an agent has a service of this ID.
pub(crate) fn has_service(number: u32, id: &Text, rows: &[ServiceRow]) -> bool
    requires { number < 100 }
    ensures { result ≡ is_some (service_at (agent_node number, id.now) rows.now) }
{
    own_service(number, id, rows).is_some()
}

/// Drops the services of this ID.
pub(crate) fn drop_services(id: &Text, rows: &mut Vec<ServiceRow>)
    requires { ServicesAscend rows.old.items }
    ensures rows { rows.new.items ≡ without (λ s. same_text s.id id.now) rows.old.items }
    ensures order { ServicesAscend rows.new.items }
{
    rows.retain(|s| !is_same(&s.id, id));
}
