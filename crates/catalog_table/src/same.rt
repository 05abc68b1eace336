//! Whether texts are empty, and whether texts or rows are equal.

ghost use Rattle.std.specs.Prelude.{◌≡◌};
ghost use Rattle.cat_model.specs.Keys.{is_empty, same_text, same_texts};
ghost use Rattle.cat_model.specs.Same.{same_bool, same_status, alike_nodes, alike_services, alike_checks};

use cat_model::lists::all_same;
use cat_model::{CheckRow, NodeRow, ServiceRow, Status, Text, Texts};

pub(crate) fn is_blank(text: &str) -> bool
    ensures { result ≡ is_empty text.now }
{
    text.len() == 0
}

pub(crate) fn is_same(a: &Text, b: &Text) -> bool
    ensures { result ≡ same_text a.now b.now }
{
    is_text(a, b.as_str())
}

pub(crate) fn is_text(a: &Text, b: &str) -> bool
    ensures { result ≡ same_text a.now b.now }
{
    a.as_str() == b
}

fn are_same(a: &Texts, b: &Texts) -> bool
    ensures { result ≡ same_texts a.now b.now }
{
    all_same(a.as_slice(), b.as_slice(), |x, y| is_same(x, y))
}

fn is_same_flag(a: bool, b: bool) -> bool
    ensures { result ≡ same_bool a b }
{
    a == b
}

pub(crate) fn is_same_status(a: Status, b: Status) -> bool
    ensures { result ≡ same_status a b }
{
    matches!(
        (a, b),
        (Status::Passing, Status::Passing)
            | (Status::Warning, Status::Warning)
            | (Status::Critical, Status::Critical)
    )
}

/// Whether the nodes are equal in all but the positions at which they were made and written.
pub(crate) fn are_alike_nodes(a: &NodeRow, b: &NodeRow) -> bool
    ensures { result ≡ alike_nodes a.now b.now }
{
    is_same(&a.node, &b.node) && is_same(&a.address, &b.address)
}

/// The same of services.
pub(crate) fn are_alike_services(a: &ServiceRow, b: &ServiceRow) -> bool
    ensures { result ≡ alike_services a.now b.now }
{
    is_same(&a.node, &b.node)
        && is_same(&a.id, &b.id)
        && is_same(&a.name, &b.name)
        && are_same(&a.tags, &b.tags)
        && is_same(&a.address, &b.address)
        && a.port == b.port
        && is_same_flag(a.tag_override, b.tag_override)
}

/// The same of checks.
pub(crate) fn are_alike_checks(a: &CheckRow, b: &CheckRow) -> bool
    ensures { result ≡ alike_checks a.now b.now }
{
    is_same(&a.node, &b.node)
        && is_same(&a.id, &b.id)
        && is_same(&a.name, &b.name)
        && is_same_status(a.status, b.status)
        && is_same(&a.notes, &b.notes)
        && is_same(&a.output, &b.output)
        && is_same(&a.service, &b.service)
}
