//! The rows of sessions together with the index of where they stand.

ghost use Rattle.std.specs.Prelude.{◌≡◌, ◌++◌, [], ℕ, None, IfOk, OnErr, OnOk, filter, is_some, map};
ghost use Rattle.std.specs.List.{cons_option, filter_map};
ghost use Rattle.std.specs.Ordering.{is_eq, nat_cmp};
ghost use Rattle.cat_model.specs.Catalog.{session_at, session_key};
ghost use Rattle.cat_model.specs.Keys.{same_text};
ghost use Rattle.cat_model.specs.Tables.{put, without};
ghost use Rattle.session_table.specs.Nodes.{is_of_node, is_on, is_on_some};
ghost use Rattle.session_table.specs.Places.{is_at, stands_at, FilesPlaces, Takes};

use crate::ids::{Id, add_each, listed};
use crate::places::{At, Standing, file, unfile};
use cat_model::{Memory, SessionRow, Text};
use row_table::{ById, Row, RowTable};
use std::alloc::Global;

/// Adds a session whose identifier is new.
pub(crate) fn add(
    alloc: Global,
    rows: &mut RowTable<SessionRow>,
    places: &mut RowTable<Standing>,
    row: SessionRow,
) -> Result<(), Memory>
    requires files { FilesPlaces rows.old.now places.old.now }
    requires fresh { session_at row.id rows.old.now ≡ None }
    ensures files { FilesPlaces rows.new.now places.new.now }
    ensures ok { OnOk result (rows.new.now ≡ put nat_cmp session_key row rows.old.now) }
    ensures before { rows.new.before ≡ rows.old.before }
    ensures places_before { places.new.before ≡ places.old.before }
    ensures err { OnErr result (rows.new.now ≡ rows.old.now) }
{
    if let Err(memory) = file(alloc, places, &row) {
        unfile(places, &row);
        return Err(memory);
    }
    if let Err((row, memory)) = rows.set(row) {
        unfile(places, &row);
        return Err(memory);
    }
    Ok(())
}

// Takes the session of an identifier from where it stands, if it is there.
fn take_places(rows: &RowTable<SessionRow>, places: &mut RowTable<Standing>, id: u128)
    ensures now { Takes (λ p. stands_at p (session_at id rows.now.now)) id places.old.now places.new.now }
    ensures before { places.new.before ≡ places.old.before }
{
    if let Some(row) = rows.get(&ById(id)) {
        unfile(places, row);
    }
}

/// Removes the row of an identifier, and tells whether there was one.
pub(crate) fn remove(
    rows: &mut RowTable<SessionRow>,
    places: &mut RowTable<Standing>,
    id: u128,
) -> bool
    requires files { FilesPlaces rows.old.now places.old.now }
    ensures files { FilesPlaces rows.new.now places.new.now }
    ensures rows { rows.new.now ≡ without (λ r. is_eq (nat_cmp id (session_key r))) rows.old.now }
    ensures before { rows.new.before ≡ rows.old.before }
    ensures places_before { places.new.before ≡ places.old.before }
    ensures there { result ≡ is_some (session_at id rows.old.now) }
{
    take_places(rows, places, id);
    rows.remove(&ById(id))
}

fn is_text(text: &Text, name: &str) -> bool
    ensures { result ≡ same_text text.now name.now }
{
    text.as_str() == name
}

fn is_at(entry: &Standing, node: &str, check: &str) -> bool
    ensures { result ≡ is_at entry.now.0 (node.now, check.now) }
{
    is_text(&entry.node, node) && is_text(&entry.check, check)
}

/// The identifiers of the node's sessions that stand on the check.
fn ids_on(
    alloc: Global,
    rows: &RowTable<SessionRow>,
    places: &RowTable<Standing>,
    node: &str,
    check: &str,
) -> Result<Vec<u128>, Memory>
    requires { FilesPlaces rows.now.now places.now.now }
    ensures { IfOk result (λ v. v.items ≡ map session_key (filter (is_on node.now check.now) rows.now.now)) }
{
    rows.in_order();
    places.in_order();
    let mut found = Vec::new(alloc);
    for entry in places.rows_from(&At { node, check, id: 0 }) {
        if !is_at(entry, node, check) {
            break;
        }
        found.push(entry.id)?;
    }
    Ok(found)
}

// The identifiers of the node's sessions that stand on some of the checks.
fn ids_on_some(
    alloc: Global,
    rows: &RowTable<SessionRow>,
    places: &RowTable<Standing>,
    node: &str,
    checks: &[Text],
) -> Result<Vec<u128>, Memory>
    requires { FilesPlaces rows.now.now places.now.now }
    ensures { IfOk result (λ v. v.items ≡ map session_key (filter (is_on_some node.now checks.now) rows.now.now)) }
{
    rows.in_order();
    let mut ids = RowTable::new(alloc);
    for check in checks {
        let more = ids_on(alloc, rows, places, node, check.as_str())?;
        add_each(&mut ids, more.as_slice())?;
    }
    ids.in_order();
    listed(alloc, &ids)
}

// Adds a copy of the session's row, if it is there.
fn add_row(found: &mut Vec<SessionRow>, rows: &RowTable<SessionRow>, id: u128) -> Result<(), Memory>
    ensures { OnOk result (found.new.items ≡ found.old.items ++ cons_option (session_at id rows.now.now) []) }
{
    if let Some(row) = rows.get(&ById(id)) {
        found.push(row.copy()?)?;
    }
    Ok(())
}

// Copies of the rows of these identifiers.
fn rows_of(
    alloc: Global,
    rows: &RowTable<SessionRow>,
    ids: &[u128],
) -> Result<Vec<SessionRow>, Memory>
    ensures { IfOk result (λ v. v.items ≡ filter_map (λ id. session_at id rows.now.now) ids.now) }
{
    let mut found = Vec::new(alloc);
    for id in ids {
        add_row(&mut found, rows, *id)?;
    }
    Ok(found)
}

/// Copies of the rows of the node's sessions.
pub(crate) fn rows_on(
    alloc: Global,
    rows: &RowTable<SessionRow>,
    places: &RowTable<Standing>,
    node: &str,
) -> Result<Vec<SessionRow>, Memory>
    requires { FilesPlaces rows.now.now places.now.now }
    ensures { IfOk result (λ v. v.items ≡ filter (is_of_node node.now) rows.now.now) }
{
    rows.in_order();
    let ids = ids_on(alloc, rows, places, node, "")?;
    rows_of(alloc, rows, ids.as_slice())
}

/// Copies of the rows of the node's sessions that stand on some of the checks.
pub(crate) fn rows_on_some(
    alloc: Global,
    rows: &RowTable<SessionRow>,
    places: &RowTable<Standing>,
    node: &str,
    checks: &[Text],
) -> Result<Vec<SessionRow>, Memory>
    requires { FilesPlaces rows.now.now places.now.now }
    ensures { IfOk result (λ v. v.items ≡ filter (is_on_some node.now checks.now) rows.now.now) }
{
    rows.in_order();
    let ids = ids_on_some(alloc, rows, places, node, checks)?;
    rows_of(alloc, rows, ids.as_slice())
}
