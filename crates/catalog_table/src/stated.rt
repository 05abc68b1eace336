//! Which checks have each status, by the status and then by the check's node and its ID there.

ghost use Rattle.std.specs.Prelude.{◌≡◌, Some, IfOk, OnErr, OnOk, false, filter};
ghost use Rattle.std.specs.Ordering.{is_eq, nat_cmp};
ghost use Rattle.std.proofs.lemmas.Cmp.{nat_cmp_total};
ghost use Rattle.std.proofs.lemmas.Map.Lookups.{exact_pairs, exact_unsigned};
ghost use Rattle.cat_model.proofs.Pairs.{both_total, exact_pair, pair_cmp_total};
ghost use Rattle.cat_model.specs.Catalog.{check_at, check_key};
ghost use Rattle.cat_model.specs.Keys.{pair_cmp};
ghost use Rattle.cat_model.specs.Same.{same_status};
ghost use Rattle.cat_model.specs.Tables.{put, without};
ghost use Rattle.row_table.specs.Filing.{filed, filed_cmp, filed_key, is_place, place_of, unfiled};
ghost use Rattle.catalog_table.specs.Filings.{rank, rank_of, ranked, FilesStatuses};

use crate::copies::{add_check, copy_of};
use crate::same::is_same_status;
use cat_model::{CheckRow, Memory, Status, Text};
use row_table::{ByPair, Probe, Row, RowTable};
use std::alloc::Global;
use std::cmp::Ordering;
use std::marker::Model;

// The place of the status in the order of all.
fn rank(status: Status) -> u8
    ensures { result ≡ rank status }
{
    match status {
        Status::Passing => 0,
        Status::Warning => 1,
        Status::Critical => 2,
    }
}

/// A check with this status.
#[derive(Drop)]
pub(crate) struct Stated {
    status: Status,
    node: Text,
    id: Text,
}

impl Model for Stated {
    ghost use Rattle.std.specs.Prelude.{ℕ, List};
    ghost use Rattle.catalog_table.specs.Filings.{rank};

    ghost Value = { ℕ × (List ℕ × List ℕ) };

    ghost view = { λ s. (rank s.status, (s.node, s.id)) };
}

impl Row for Stated {
    type Key = (u8, (Text, Text));

    ghost key = { filed_key };

    ghost cmp = { filed_cmp nat_cmp pair_cmp };

    ghost total = { both_total nat_cmp pair_cmp nat_cmp_total pair_cmp_total };

    ghost exact = { exact_pairs nat_cmp pair_cmp exact_unsigned exact_pair };

    fn order(&self, other: &Stated) -> Ordering {
        let pair = self
            .node
            .as_str()
            .cmp(other.node.as_str())
            .then(self.id.as_str().cmp(other.id.as_str()));
        rank(self.status).cmp(&rank(other.status)).then(pair)
    }

    fn copy(&self) -> Result<Stated, Memory> {
        Ok(Stated {
            status: self.status,
            node: copy_of(&self.node)?,
            id: copy_of(&self.id)?,
        })
    }
}

// Looks for the check of this ID on this node among those with this status.
#[derive(Clone, Copy)]
struct ByStatus<'a> {
    status: Status,
    node: &'a str,
    id: &'a str,
}

impl<'a> Probe<Stated> for ByStatus<'a> {
    ghost sought = { λ p. (rank p.status, (p.node.now, p.id.now)) };

    fn place(&self, row: &Stated) -> Ordering {
        let pair = row
            .node
            .as_str()
            .cmp(self.node)
            .then(row.id.as_str().cmp(self.id));
        rank(row.status).cmp(&rank(self.status)).then(pair)
    }
}

fn entry_of(row: &CheckRow) -> Result<Stated, Memory>
    ensures { IfOk result (λ e. e ≡ (rank row.now.status, check_key row.now)) }
{
    Ok(Stated {
        status: row.status,
        node: copy_of(&row.node)?,
        id: copy_of(&row.id)?,
    })
}

// Files the check under its status.
fn file(statuses: &mut RowTable<Stated>, row: &CheckRow) -> Result<(), Memory>
    ensures ok { OnOk result (statuses.new.now ≡ filed nat_cmp pair_cmp (Some (rank row.now.status)) (check_key row.now) statuses.old.now) }
    ensures before { statuses.new.before ≡ statuses.old.before }
    ensures err { OnErr result (statuses.new.now ≡ statuses.old.now) }
{
    let entry = entry_of(row)?;
    if let Err((_, memory)) = statuses.set(entry) {
        return Err(memory);
    }
    Ok(())
}

// Takes the check from under the status.
fn unfile(statuses: &mut RowTable<Stated>, status: Status, node: &str, id: &str)
    ensures now { statuses.new.now ≡ unfiled nat_cmp pair_cmp (Some (rank status)) (node.now, id.now) statuses.old.now }
    ensures before { statuses.new.before ≡ statuses.old.before }
{
    statuses.remove(&ByStatus { status, node, id });
}

// The status that the row of this row's key has.
fn old_status(rows: &RowTable<CheckRow>, row: &CheckRow) -> Option<Status>
    ensures { ranked result ≡ place_of rank_of (check_at (check_key row.now) rows.now.now) }
{
    match rows.get(row) {
        Some(old) => Some(old.status),
        None => None,
    }
}

// Whether the row of this row's key has the same status.
fn keeps_status(rows: &RowTable<CheckRow>, row: &CheckRow) -> bool
    ensures { result ≡ is_place nat_cmp (rank row.now.status) (place_of rank_of (check_at (check_key row.now) rows.now.now)) }
{
    match rows.get(row) {
        Some(old) => is_same_status(old.status, row.status),
        None => false,
    }
}

// Takes the check from under the status, where there is one.
fn unfile_old(statuses: &mut RowTable<Stated>, status: Option<Status>, node: &Text, id: &Text)
    ensures now { statuses.new.now ≡ unfiled nat_cmp pair_cmp (ranked status) (node.now, id.now) statuses.old.now }
    ensures before { statuses.new.before ≡ statuses.old.before }
{
    if let Some(status) = status {
        unfile(statuses, status, node.as_str(), id.as_str());
    }
}

// Puts a row in the place of the one of its key, which has another status, or is not there.
fn restate(
    rows: &mut RowTable<CheckRow>,
    statuses: &mut RowTable<Stated>,
    row: CheckRow,
) -> Result<(), Memory>
    requires files { FilesStatuses rows.old.now statuses.old.now }
    requires other { is_place nat_cmp (rank row.status) (place_of rank_of (check_at (check_key row) rows.old.now)) ≡ false }
    ensures files { FilesStatuses rows.new.now statuses.new.now }
    ensures ok { OnOk result (rows.new.now ≡ put pair_cmp check_key row rows.old.now) }
    ensures before { rows.new.before ≡ rows.old.before }
    ensures err { OnErr result (rows.new.now ≡ rows.old.now) }
    ensures statuses_before { statuses.new.before ≡ statuses.old.before }
{
    let old = old_status(rows, &row);
    let status = row.status;
    let node = copy_of(&row.node)?;
    let id = copy_of(&row.id)?;
    file(statuses, &row)?;
    if let Err((_, memory)) = rows.set(row) {
        unfile(statuses, status, node.as_str(), id.as_str());
        return Err(memory);
    }
    unfile_old(statuses, old, &node, &id);
    Ok(())
}

// Puts a row in the place of the one of its key, which has the same status.
fn replace(rows: &mut RowTable<CheckRow>, row: CheckRow) -> Result<(), Memory>
    ensures ok { OnOk result (rows.new.now ≡ put pair_cmp check_key row rows.old.now) }
    ensures before { rows.new.before ≡ rows.old.before }
    ensures err { OnErr result (rows.new.now ≡ rows.old.now) }
{
    match rows.set(row) {
        Ok(()) => Ok(()),
        Err((_, memory)) => Err(memory),
    }
}

/// Puts the row in the place of the one of its key.
pub(crate) fn set(
    rows: &mut RowTable<CheckRow>,
    statuses: &mut RowTable<Stated>,
    row: CheckRow,
) -> Result<(), Memory>
    requires files { FilesStatuses rows.old.now statuses.old.now }
    ensures files { FilesStatuses rows.new.now statuses.new.now }
    ensures ok { OnOk result (rows.new.now ≡ put pair_cmp check_key row rows.old.now) }
    ensures before { rows.new.before ≡ rows.old.before }
    ensures err { OnErr result (rows.new.now ≡ rows.old.now) }
    ensures statuses_before { statuses.new.before ≡ statuses.old.before }
{
    if keeps_status(rows, &row) {
        replace(rows, row)
    } else {
        restate(rows, statuses, row)
    }
}

// Takes the check of a key from under its status.
fn take_status(rows: &RowTable<CheckRow>, statuses: &mut RowTable<Stated>, node: &str, id: &str)
    ensures now { statuses.new.now ≡ unfiled nat_cmp pair_cmp (place_of rank_of (check_at (node.now, id.now) rows.now.now)) (node.now, id.now) statuses.old.now }
    ensures before { statuses.new.before ≡ statuses.old.before }
{
    if let Some(row) = rows.get(&ByPair { node, id }) {
        unfile(statuses, row.status, node, id);
    }
}

/// Removes the row of a key.
pub(crate) fn remove(
    rows: &mut RowTable<CheckRow>,
    statuses: &mut RowTable<Stated>,
    node: &str,
    id: &str,
)
    requires files { FilesStatuses rows.old.now statuses.old.now }
    ensures files { FilesStatuses rows.new.now statuses.new.now }
    ensures rows { rows.new.now ≡ without (λ r. is_eq (pair_cmp (node.now, id.now) (check_key r))) rows.old.now }
    ensures before { rows.new.before ≡ rows.old.before }
    ensures statuses_before { statuses.new.before ≡ statuses.old.before }
{
    take_status(rows, statuses, node, id);
    rows.remove(&ByPair { node, id });
}

/// Copies of the rows that are filed under the status.
pub(crate) fn filed_under(
    alloc: Global,
    rows: &RowTable<CheckRow>,
    statuses: &RowTable<Stated>,
    status: Status,
) -> Result<Vec<CheckRow>, Memory>
    requires { FilesStatuses rows.now.now statuses.now.now }
    ensures { IfOk result (λ v. v.items ≡ filter (λ r. same_status r.status status) rows.now.now) }
{
    rows.in_order();
    statuses.in_order();
    let mut found = Vec::new(alloc);
    let least = ByStatus {
        status,
        node: "",
        id: "",
    };
    for entry in statuses.rows_from(&least) {
        if !is_same_status(entry.status, status) {
            break;
        }
        add_check(&mut found, rows, &entry.node, &entry.id)?;
    }
    Ok(found)
}
