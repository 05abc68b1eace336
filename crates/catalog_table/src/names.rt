//! The names of services of which a read may take something else.

ghost use Rattle.std.specs.Prelude.{◌≡◌, ◌++◌, IfOk, not};
ghost use Rattle.std.specs.List.{list_any};
ghost use Rattle.cat_model.specs.Keys.{is_empty};
ghost use Rattle.catalog_table.specs.Rows.{Rows};
ghost use Rattle.catalog_table.specs.Touching.{check_services, is_whole, names_read, service_names};

use crate::copies::copy_of;
use crate::services::ServiceTable;
use crate::touched::Touched;
use cat_model::lists::made;
use cat_model::{CheckRow, List, Memory, ServiceRow, Text, Texts};
use std::alloc::Global;

/// The names of these services.
pub(crate) fn names_of(alloc: Global, services: &[ServiceRow]) -> Result<Texts, Memory>
    ensures { IfOk result (λ l. l ≡ service_names services.now) }
{
    made(alloc, services, |s| copy_of(&s.name))
}

/// The services of these checks.
pub(crate) fn services_of(alloc: Global, checks: &[CheckRow]) -> Result<Texts, Memory>
    ensures { IfOk result (λ l. l ≡ check_services checks.now) }
{
    made(alloc, checks, |c| copy_of(&c.service))
}

// Whether one of the texts is empty.
fn has_blank(texts: &[Text]) -> bool
    ensures { result ≡ list_any is_empty texts.now }
{
    texts.iter().any(|t| t.len() == 0)
}

/// Whether there is a text.
pub(crate) fn is_some_of(texts: &[Text]) -> bool
    ensures { result ≡ not (is_empty texts.now) }
{
    !texts.is_empty()
}

// Whether a read of each name of the node takes something else.
fn is_whole(touched: &Touched) -> bool
    ensures { result ≡ is_whole touched.now }
{
    touched.nodes || has_blank(touched.served.as_slice())
}

/// The names of which a read takes something else, some of them more than once. What is left of `touched` are the services
/// of the checks.
pub(crate) fn names_read(
    services: &ServiceTable,
    node: &str,
    touched: Touched,
) -> Result<Texts, Memory>
    ensures { IfOk result (λ l. (r : Rows) → r.services ≡ services.now.now → l ≡ names_read node.now r touched) }
{
    let whole = is_whole(&touched);
    let Touched { names, served, .. } = touched;
    let mut names = names;
    if whole {
        // A read of each of them takes the node's row and the checks of the node alone, so each is told.
        services.add_names_on(&mut names, node)?;
    } else {
        services.add_names_of(&mut names, node, served.as_slice())?;
    }
    Ok(names)
}
