//! Whether rows and their small values are equal.

ghost use Rattle.std.specs.Prelude.{◌≡◌, Some};
ghost use Rattle.cat_model.specs.Keys.{same_texts};
ghost use Rattle.cat_model.specs.Same.{same_bool, same_status, alike_nodes, alike_checks};
ghost use Rattle.anti_entropy.specs.Parts.{are_alike, retagged};

use cat_model::lists::all_same;
use cat_model::{CheckRow, NodeRow, ServiceRow, Status, Texts};
use node_rows::is_same;

pub(crate) fn are_same(a: &Texts, b: &Texts) -> bool
    ensures { result ≡ same_texts a.now b.now }
{
    all_same(a.as_slice(), b.as_slice(), |x, y| is_same(x, y))
}

fn is_same_flag(a: bool, b: bool) -> bool
    ensures { result ≡ same_bool a b }
{
    a == b
}

fn is_same_status(a: Status, b: Status) -> bool
    ensures { result ≡ same_status a b }
{
    matches!(
        (a, b),
        (Status::Passing, Status::Passing)
            | (Status::Warning, Status::Warning)
            | (Status::Critical, Status::Critical)
    )
}

pub(crate) fn are_alike_nodes(a: &NodeRow, b: &NodeRow) -> bool
    ensures { result ≡ alike_nodes a.now b.now }
{
    is_same(&a.node, &b.node) && is_same(&a.address, &b.address)
}

// Whether the service has the catalog's tags once it took over what it may.
#[tactic(auto, using(crate::proofs::TakenTags::same_already))]
fn has_same_tags(there: &ServiceRow, service: &ServiceRow) -> bool
    ensures { result ≡ same_texts there.now.tags (retagged (Some there.now) service.now).tags }
{
    service.tag_override || are_same(&there.tags, &service.tags)
}

/// Whether the catalog's service and the agent's are equal, with the tags that this one takes over.
pub(crate) fn are_alike_services(there: &ServiceRow, service: &ServiceRow) -> bool
    ensures { result ≡ are_alike there.now service.now }
{
    is_same(&there.node, &service.node)
        && is_same(&there.id, &service.id)
        && is_same(&there.name, &service.name)
        && has_same_tags(there, service)
        && is_same(&there.address, &service.address)
        && there.port == service.port
        && is_same_flag(there.tag_override, service.tag_override)
}

pub(crate) fn are_alike_checks(a: &CheckRow, b: &CheckRow) -> bool
    ensures { result ≡ alike_checks a.now b.now }
{
    is_same(&a.node, &b.node)
        && is_same(&a.id, &b.id)
        && is_same(&a.name, &b.name)
        && is_same_status(a.status, b.status)
        && is_same(&a.notes, &b.notes)
        && is_same(&a.output, &b.output)
        && is_same(&a.service, &b.service)
}
