//! The end of sessions.

ghost use Rattle.std.specs.Prelude.{◌≡◌, ◌≤◌, ◌++◌, ◌||◌, IfOk, OnOk, map, nat_eq, not};
ghost use Rattle.std.specs.List.{list_any};
ghost use Rattle.std.specs.Ordering.{nat_cmp};
ghost use Rattle.cat_model.specs.Keys.{is_empty};
ghost use Rattle.cat_model.specs.Tables.{Ascends, without};
ghost use Rattle.cat_model.specs.Catalog.{query_key, session_key};
ghost use Rattle.query_table.specs.States.{is_bound_to};
ghost use Rattle.catalog_store.specs.States.{now_of, before_of};
ghost use Rattle.cat_model.specs.Views.{moved};
ghost use Rattle.catalog_store.specs.Registering.{one_if};
ghost use Rattle.catalog_store.specs.Ending.{is_gone, is_orphan, Ends};

use crate::channels::{freed_chans, push_if, touch_if};
use crate::key_commands;
use crate::tables::Tables;
use cat_model::{Chan, Fired, Freed, List, Memory, SessionRow};
use query_table::QueryTable;
use session_table::SessionTable;
use std::alloc::Global;
use touch_positions::{Table, TableIndex};

fn either(a: bool, b: bool) -> bool
    ensures { result ≡ (a || b) }
{
    a || b
}

// Removes the rows of these sessions, and tells whether there was one.
fn end_rows(sessions: &mut SessionTable, gone: &[SessionRow]) -> bool
    ensures rows { sessions.new.now ≡ without (is_gone gone.now) sessions.old.now }
    ensures told { result ≡ list_any (is_gone gone.now) sessions.old.now }
    ensures before { sessions.new.before ≡ sessions.old.before }
{
    let mut some = false;
    for session in gone {
        let there = sessions.end(session.id);
        some = either(some, there);
    }
    some
}

// Removes the queries of these identifiers.
fn remove_each(queries: &mut QueryTable, ids: &[u128])
    ensures rows { queries.new.now ≡ without (λ q. list_any (λ i. nat_eq q.id i) ids.now) queries.old.now }
    ensures before { queries.new.before ≡ queries.old.before }
{
    let mut left = ids;
    while let Some((id, rest)) = left.split_first() {
        queries.remove(*id);
        left = rest;
    }
}

// Tells a proof that the rows are in the order of their identifiers.
fn in_order(queries: &QueryTable)
    ensures { Ascends nat_cmp query_key queries.now.now }
{
    let _ = queries.by_id(0);
}

fn is_some_of(ids: &[u128]) -> bool
    ensures { result ≡ not (is_empty ids.now) }
{
    !ids.is_empty()
}

// Removes the queries that are bound to the session, and tells whether there was one.
fn unbind(alloc: Global, queries: &mut QueryTable, id: u128) -> Result<bool, Memory>
    ensures rows { OnOk result (queries.new.now ≡ without (is_bound_to id) queries.old.now) }
    ensures told { IfOk result (λ b. b ≡ list_any (is_bound_to id) queries.old.now) }
    ensures before { queries.new.before ≡ queries.old.before }
{
    in_order(queries);
    let ids = queries.of_session(alloc, id)?;
    remove_each(queries, ids.as_slice());
    Ok(is_some_of(ids.as_slice()))
}

// Removes the queries that are bound to these sessions, and tells whether there was one.
fn end_queries(alloc: Global, queries: &mut QueryTable, gone: &[SessionRow]) -> Result<bool, Memory>
    ensures rows { OnOk result (queries.new.now ≡ without (is_orphan gone.now) queries.old.now) }
    ensures told { IfOk result (λ b. b ≡ list_any (is_orphan gone.now) queries.old.now) }
    ensures before { queries.new.before ≡ queries.old.before }
{
    let mut some = false;
    for session in gone {
        let there = unbind(alloc, queries, session.id)?;
        some = either(some, there);
    }
    Ok(some)
}

// The channels of what ended.
fn chans_of(
    alloc: Global,
    freed: &[Freed],
    sessions: bool,
    queries: bool,
) -> Result<List<Chan>, Memory>
    ensures { IfOk result (λ l. l ≡ (map (λ f. Chan.Key f.key) freed.now ++ one_if sessions Chan.Sessions) ++ one_if queries Chan.Queries) }
{
    let mut chans = freed_chans(alloc, freed)?;
    push_if(&mut chans, sessions, Chan::Sessions)?;
    push_if(&mut chans, queries, Chan::Queries)?;
    Ok(chans)
}

// Marks the tables of sessions and queries where they changed.
fn mark(indexes: &mut TableIndex, sessions: bool, queries: bool, position: u64)
    requires sessions { indexes.old.now.sessions ≤ position }
    requires queries { indexes.old.now.queries ≤ position }
    ensures now { indexes.new.now ≡ record indexes.old.now { sessions = moved position sessions indexes.old.now.sessions; queries = moved position queries indexes.old.now.queries } }
    ensures before { indexes.new.before ≡ indexes.old.before }
{
    touch_if(indexes, sessions, Table::Sessions, position);
    touch_if(indexes, queries, Table::Queries, position);
}

/// Ends these sessions: their rows go, their keys are freed, and the prepared queries bound to them go.
pub(crate) fn end(
    alloc: Global,
    tables: &mut Tables,
    position: u64,
    gone: &[SessionRow],
) -> Result<Fired, Memory>
    requires order { Ascends nat_cmp session_key gone.now }
    requires sessions { tables.old.indexes.now.sessions ≤ position }
    requires queries { tables.old.indexes.now.queries ≤ position }
    ensures ends { IfOk result (λ f. Ends position gone.now (now_of tables.old) (now_of tables.new) f) }
    ensures before { before_of tables.new ≡ before_of tables.old }
{
    let freed = key_commands::free(alloc, &mut tables.kv, position, gone)?;
    let queries = end_queries(alloc, &mut tables.queries, gone)?;
    let sessions = end_rows(&mut tables.sessions, gone);
    mark(&mut tables.indexes, sessions, queries, position);
    let chans = chans_of(alloc, freed.as_slice(), sessions, queries)?;
    Ok(Fired { chans, freed })
}
