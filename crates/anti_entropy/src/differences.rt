//! How the catalog's rows of a node differ from the agent's.

ghost use Rattle.std.specs.Prelude.{◌≡◌};
ghost use Rattle.std.specs.Option.{option_copied};
ghost use Rattle.cat_model.specs.Syncs.{is_serf, lacks_node};
ghost use Rattle.anti_entropy.specs.Parts.{is_uneven_check, is_uneven_service};

use crate::same::{are_alike_checks, are_alike_nodes, are_alike_services};
use cat_model::{CheckRow, NodeRow, ServiceRow};

/// The ID of the check that each agent has of its own node.
pub(crate) const SERF_HEALTH: &str = "serfHealth";

pub(crate) fn lacks_node(there: Option<&NodeRow>, node: &NodeRow) -> bool
    ensures { result ≡ lacks_node (option_copied there.entry) node.now }
{
    match there {
        None => true,
        Some(there) => !are_alike_nodes(there, node),
    }
}

/// Whether the catalog's service is missing, or differs from the agent's with the tags that it takes over.
#[tactic(auto, using(crate::proofs::TakenTags::alike_is))]
pub(crate) fn is_uneven_service(service: &ServiceRow, there: Option<&ServiceRow>) -> bool
    ensures { result ≡ is_uneven_service (service.now, option_copied there.entry) }
{
    match there {
        None => true,
        Some(there) => !are_alike_services(there, service),
    }
}

/// Whether the catalog's check is missing or different.
pub(crate) fn is_uneven_check(check: &CheckRow, there: Option<&CheckRow>) -> bool
    ensures { result ≡ is_uneven_check (check.now, option_copied there.entry) }
{
    match there {
        None => true,
        Some(there) => !are_alike_checks(there, check),
    }
}

/// Whether it is the check that each agent has of its own node.
pub(crate) fn is_serf(check: &CheckRow) -> bool
    ensures { result ≡ is_serf check.now }
{
    check.id.as_str() == SERF_HEALTH
}
