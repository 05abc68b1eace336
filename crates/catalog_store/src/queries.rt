//! Prepared queries.

ghost use Rattle.std.specs.Prelude.{◌≡◌, IfOk, OnOk, is_some};
ghost use Rattle.std.specs.Ordering.{nat_cmp};
ghost use Rattle.cat_model.specs.Tables.{put};
ghost use Rattle.cat_model.specs.Catalog.{query_at, query_key};
ghost use Rattle.cat_model.specs.Machine.{create_of as the_create_of, other_has_name as the_other_has_name};
ghost use Rattle.cat_model.specs.declared.command.Command.TheVariants.{QueryDelete};
ghost use Rattle.catalog_store.specs.States.{now_of, before_of};
ghost use Rattle.catalog_store.specs.Standing.{Ready, QueriesFit};
ghost use Rattle.catalog_store.specs.Whole.{ActsWhole};
ghost use Rattle.catalog_store.specs.Making.{kept_create, known_in, made_query, makes_anew, set_refused, IsSet};

use crate::channels::{push_if, touch_if};
use crate::sessions::is_known;
use crate::tables::Tables;
use cat_model::lists::one;
use cat_model::{Applied, Chan, Command, List, Memory, QueryRow, Refuse};
use query_table::QueryTable;
use session_table::SessionTable;
use std::alloc::Global;
use touch_positions::Table;

// Whether the query names no session, or one that is there.
fn is_session_known(sessions: &SessionTable, row: &QueryRow) -> bool
    ensures { result ≡ known_in sessions.now.now row.now.session }
{
    match row.session {
        None => true,
        Some(id) => is_known(sessions, id),
    }
}

// Whether another query has the name.
fn other_has_name(queries: &QueryTable, row: &QueryRow, position: u64) -> bool
    requires { QueriesFit position queries.now.now }
    ensures { result ≡ the_other_has_name row.now queries.now.now }
{
    if row.name.len() == 0 {
        return false;
    }
    match queries.by_name(row.name.as_str()) {
        None => false,
        Some(found) => found.id != row.id,
    }
}

fn is_there(queries: &QueryTable, id: u128) -> bool
    ensures { result ≡ is_some (query_at id queries.now.now) }
{
    queries.by_id(id).is_some()
}

// Why the query is not written.
fn set_refusal(
    sessions: &SessionTable,
    queries: &QueryTable,
    row: &QueryRow,
    create: bool,
    position: u64,
) -> Option<Refuse>
    requires { QueriesFit position queries.now.now }
    ensures { result ≡ set_refused create row.now sessions.now.now queries.now.now }
{
    let there = is_there(queries, row.id);
    if create && there {
        return Some(Refuse::IdTaken);
    }
    if !create && !there {
        return Some(Refuse::UnknownQuery);
    }
    if !is_session_known(sessions, row) {
        return Some(Refuse::UnknownSession);
    }
    if other_has_name(queries, row, position) {
        return Some(Refuse::NameTaken);
    }
    None
}

// The query that the command makes.
fn row_of(position: u64, command: &Command) -> Result<QueryRow, Memory>
    requires { IsSet command.now }
    ensures { IfOk result (λ r. r ≡ made_query position command.now) }
{
    match command {
        Command::QuerySet {
            id,
            create: _,
            name,
            session,
            service,
            only_passing,
            tags,
            dns_ttl_ms,
        } => Ok(QueryRow {
            id: *id,
            name: name.clone()?,
            session: *session,
            service: service.clone()?,
            only_passing: *only_passing,
            tags: tags.clone()?,
            dns_ttl_ms: *dns_ttl_ms,
            create: position,
            modify: position,
        }),
        _ => unreachable!(),
    }
}

fn is_new(command: &Command) -> bool
    ensures { result ≡ makes_anew command.now }
{
    match command {
        Command::QuerySet { create, .. } => *create,
        _ => false,
    }
}

// The position at which the query was made.
fn create_of(queries: &QueryTable, row: &QueryRow) -> u64
    ensures { result ≡ the_create_of row.now.create (query_at row.now.id queries.now.now) }
{
    match queries.by_id(row.id) {
        None => row.create,
        Some(old) => old.create,
    }
}

// Writes the query.
fn write(queries: &mut QueryTable, row: QueryRow) -> Result<(), Memory>
    ensures rows { OnOk result (queries.new.now ≡ put nat_cmp query_key (kept_create row queries.old.now) queries.old.now) }
    ensures before { queries.new.before ≡ queries.old.before }
{
    let mut row = row;
    row.create = create_of(queries, &row);
    queries.set(row)
}

/// Makes the query or writes it anew, unless its identifier is taken or unknown, its session is unknown or its name is
/// taken.
pub(crate) fn set(
    alloc: Global,
    tables: &mut Tables,
    position: u64,
    command: &Command,
) -> Result<(Applied, List<Chan>), Memory>
    requires ready { Ready position (now_of tables.old) }
    requires kind { IsSet command.now }
    ensures acts { IfOk result (λ d. ActsWhole position command.now (now_of tables.old) (now_of tables.new) d.0 d.1) }
    ensures before { before_of tables.new ≡ before_of tables.old }
{
    let row = row_of(position, command)?;
    let create = is_new(command);
    let refusal = set_refusal(&tables.sessions, &tables.queries, &row, create, position);
    if let Some(refuse) = refusal {
        return Ok((Applied::Refused(refuse), List::new(alloc)));
    }
    let chans = one(alloc, Chan::Queries)?;
    write(&mut tables.queries, row)?;
    tables.indexes.touch(Table::Queries, position);
    Ok((Applied::Done, chans))
}

/// Removes the query.
pub(crate) fn delete(
    alloc: Global,
    tables: &mut Tables,
    position: u64,
    id: u128,
) -> Result<(Applied, List<Chan>), Memory>
    requires ready { Ready position (now_of tables.old) }
    ensures acts { IfOk result (λ d. ActsWhole position (QueryDelete id) (now_of tables.old) (now_of tables.new) d.0 d.1) }
    ensures before { before_of tables.new ≡ before_of tables.old }
{
    let there = tables.queries.remove(id);
    touch_if(&mut tables.indexes, there, Table::Queries, position);
    let mut chans = List::new(alloc);
    push_if(&mut chans, there, Chan::Queries)?;
    Ok((Applied::Done, chans))
}
