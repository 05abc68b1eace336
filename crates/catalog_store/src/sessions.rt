//! Sessions: when one may be made, and which are broken.

ghost use Rattle.std.specs.Prelude.{◌≡◌, [], IfOk, filter, is_some, None};
ghost use Rattle.std.specs.List.{cons_option};
ghost use Rattle.cat_model.specs.Catalog.{session_at};
ghost use Rattle.cat_model.specs.Machine.{broken, check_refusal as the_check_refusal, checks_refusal as the_checks_refusal};
ghost use Rattle.cat_model.specs.Catalog.{check_at, node_at};
ghost use Rattle.session_table.specs.Nodes.{is_of_node};
ghost use Rattle.catalog_table.specs.Rows.{catalog_of};
ghost use Rattle.catalog_store.specs.States.{now_of, before_of};
ghost use Rattle.catalog_store.specs.Standing.{Ready};
ghost use Rattle.catalog_store.specs.Whole.{ActsWhole};
ghost use Rattle.catalog_store.specs.Lost.{OthersWhole};
ghost use Rattle.catalog_store.specs.Making.{create_refused, made_session, IsCreate};

use crate::tables::Tables;
use cat_model::lists::{copy_if_any, kept, one};
use cat_model::{Applied, Chan, Command, List, Memory, Refuse, SessionRow, Status, Text};
use catalog_table::CatalogTable;
use session_table::SessionTable;
use std::alloc::Global;
use touch_positions::Table;

// Why no session may stand on the check.
fn check_refusal(catalog: &CatalogTable, node: &Text, id: &Text) -> Option<Refuse>
    ensures { result ≡ the_check_refusal (check_at (node.now, id.now) catalog.now.now.checks) None }
{
    match catalog.check(node.as_str(), id.as_str()) {
        None => Some(Refuse::MissingCheck),
        Some(row) => match row.status {
            Status::Critical => Some(Refuse::CriticalCheck),
            _ => None,
        },
    }
}

// Why no session may stand on these checks of the node, by the first of them.
fn checks_refusal(catalog: &CatalogTable, node: &Text, checks: &[Text]) -> Option<Refuse>
    ensures { result ≡ the_checks_refusal node.now checks.now catalog.now.now.checks }
{
    let mut left = checks;
    while let Some((id, rest)) = left.split_first() {
        if let Some(refuse) = check_refusal(catalog, node, id) {
            return Some(refuse);
        }
        left = rest;
    }
    None
}

// Whether the node is there.
fn has_node(catalog: &CatalogTable, node: &Text) -> bool
    ensures { result ≡ is_some (node_at node.now catalog.now.now.nodes) }
{
    catalog.node(node.as_str()).is_some()
}

// Whether the session's node is absent, or one of its checks is absent or critical.
#[tactic(auto, unfolding(cat_model::specs::Machine::broken))]
fn is_broken(catalog: &CatalogTable, session: &SessionRow) -> bool
    ensures { result ≡ broken (catalog_of catalog.now.now) session.now }
{
    !has_node(catalog, &session.node)
        || checks_refusal(catalog, &session.node, session.checks.as_slice()).is_some()
}

/// The broken sessions of the node, where each that stands on none of these checks is whole.
pub(crate) fn broken_among(
    alloc: Global,
    sessions: &SessionTable,
    catalog: &CatalogTable,
    node: &Text,
    lost: &[Text],
) -> Result<List<SessionRow>, Memory>
    requires { OthersWhole node.now lost.now catalog.now.now sessions.now.now }
    ensures { IfOk result (λ l. l ≡ filter (broken (catalog_of catalog.now.now)) (filter (is_of_node node.now) sessions.now.now)) }
{
    let some = sessions.on_some(alloc, node.as_str(), lost)?;
    kept(alloc, some.as_slice(), |s| is_broken(catalog, s))
}

/// The session of the identifier, or none.
pub(crate) fn named(
    alloc: Global,
    sessions: &SessionTable,
    id: u128,
) -> Result<List<SessionRow>, Memory>
    ensures { IfOk result (λ l. l ≡ cons_option (session_at id sessions.now.now) []) }
{
    copy_if_any(alloc, sessions.get(id))
}

/// Whether the session is there.
pub(crate) fn is_known(sessions: &SessionTable, id: u128) -> bool
    ensures { result ≡ is_some (session_at id sessions.now.now) }
{
    sessions.get(id).is_some()
}

// Why the session is not made.
fn create_refusal(
    sessions: &SessionTable,
    catalog: &CatalogTable,
    row: &SessionRow,
) -> Option<Refuse>
    ensures { result ≡ create_refused row.now sessions.now.now catalog.now.now }
{
    if is_known(sessions, row.id) {
        return Some(Refuse::IdTaken);
    }
    if !has_node(catalog, &row.node) {
        return Some(Refuse::MissingNode);
    }
    checks_refusal(catalog, &row.node, row.checks.as_slice())
}

// The session that the command makes.
fn row_of(position: u64, command: &Command) -> Result<SessionRow, Memory>
    requires { IsCreate command.now }
    ensures { IfOk result (λ r. r ≡ made_session position command.now) }
{
    match command {
        Command::SessionCreate {
            id,
            name,
            node,
            checks,
            behavior,
            delay_ms,
            ttl_ms,
        } => Ok(SessionRow {
            id: *id,
            name: name.clone()?,
            node: node.clone()?,
            checks: checks.clone()?,
            behavior: *behavior,
            delay_ms: *delay_ms,
            ttl_ms: *ttl_ms,
            create: position,
            modify: position,
        }),
        _ => unreachable!(),
    }
}

/// Makes the session, unless its identifier is taken, its node is missing, or one of its checks is missing or critical.
pub(crate) fn create(
    alloc: Global,
    tables: &mut Tables,
    position: u64,
    command: &Command,
) -> Result<(Applied, List<Chan>), Memory>
    requires ready { Ready position (now_of tables.old) }
    requires kind { IsCreate command.now }
    ensures acts { IfOk result (λ d. ActsWhole position command.now (now_of tables.old) (now_of tables.new) d.0 d.1) }
    ensures before { before_of tables.new ≡ before_of tables.old }
{
    let row = row_of(position, command)?;
    if let Some(refuse) = create_refusal(&tables.sessions, &tables.catalog, &row) {
        return Ok((Applied::Refused(refuse), List::new(alloc)));
    }
    let chans = one(alloc, Chan::Sessions)?;
    tables.sessions.create(row)?;
    tables.indexes.touch(Table::Sessions, position);
    Ok((Applied::Done, chans))
}
