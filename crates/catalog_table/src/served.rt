//! Which checks each service has, by the service's node and ID there and then by the check's. The rows and the index
//! of those of each status are changed with it.

ghost use Rattle.std.specs.Prelude.{◌≡◌, ◌&&◌, ◌||◌, Some, IfOk, OnErr, OnOk, false, filter};
ghost use Rattle.std.specs.List.Sorted.{IsPermutation, IsSortedBy};
ghost use Rattle.std.specs.Ordering.{is_eq, is_lt};
ghost use Rattle.std.proofs.lemmas.Map.Lookups.{exact_pairs};
ghost use Rattle.cat_model.proofs.Pairs.{both_total, exact_pair, pair_cmp_total};
ghost use Rattle.cat_model.specs.Catalog.{check_at, check_key};
ghost use Rattle.cat_model.specs.Keys.{is_empty, pair_cmp, same_text, text_cmp};
ghost use Rattle.cat_model.specs.Tables.{put, without};
ghost use Rattle.row_table.specs.Filing.{filed, filed_cmp, filed_key, is_place, place_of, unfiled};
ghost use Rattle.catalog_table.specs.Filings.{home, homed, service_of, FilesServices, FilesStatuses};

use crate::copies::{add_check, copy_of};
use crate::same::{is_blank, is_same, is_text};
use crate::stated::{self, Stated};
use cat_model::{CheckRow, Memory, Text};
use row_table::{ByPair, Probe, Row, RowTable};
use std::alloc::Global;
use std::cmp::Ordering;
use std::marker::Model;

/// A check of this service.
#[derive(Drop)]
pub(crate) struct Served {
    node: Text,
    service: Text,
    id: Text,
}

// Looks for the check of this key among those of the service of this key.
#[derive(Clone, Copy)]
struct ByService<'a> {
    service: ByPair<'a>,
    check: ByPair<'a>,
}

impl Model for Served {
    ghost use Rattle.catalog_table.specs.Filings.{Pair};

    ghost Value = { Pair × Pair };

    ghost view = { λ s. ((s.node, s.service), (s.node, s.id)) };
}

impl Served {
    fn service(&self) -> ByPair<'_>
        ensures { (result.node.now, result.id.now) ≡ self.now.0 }
    {
        ByPair {
            node: self.node.as_str(),
            id: self.service.as_str(),
        }
    }

    fn check(&self) -> ByPair<'_>
        ensures { (result.node.now, result.id.now) ≡ self.now.1 }
    {
        ByPair {
            node: self.node.as_str(),
            id: self.id.as_str(),
        }
    }

    // Whether it is a check of this service of the node.
    fn is_of(&self, node: &str, service: &str) -> bool
        ensures { result ≡ (same_text self.now.0.0 node.now && same_text self.now.0.1 service.now) }
    {
        is_text(&self.node, node) && is_text(&self.service, service)
    }
}

// By node and then by ID.
fn pair_order(a: &ByPair<'_>, b: &ByPair<'_>) -> Ordering
    ensures { result ≡ pair_cmp (a.now.node.now, a.now.id.now) (b.now.node.now, b.now.id.now) }
{
    a.node.cmp(b.node).then(a.id.cmp(b.id))
}

impl Row for Served {
    type Key = ((Text, Text), (Text, Text));

    ghost key = { filed_key };

    ghost cmp = { filed_cmp pair_cmp pair_cmp };

    ghost total = { both_total pair_cmp pair_cmp pair_cmp_total pair_cmp_total };

    ghost exact = { exact_pairs pair_cmp pair_cmp exact_pair exact_pair };

    fn order(&self, other: &Served) -> Ordering {
        let check = pair_order(&self.check(), &other.check());
        pair_order(&self.service(), &other.service()).then(check)
    }

    fn copy(&self) -> Result<Served, Memory> {
        Ok(Served {
            node: copy_of(&self.node)?,
            service: copy_of(&self.service)?,
            id: copy_of(&self.id)?,
        })
    }
}

impl<'a> Probe<Served> for ByService<'a> {
    ghost sought = { λ p. ((p.service.node.now, p.service.id.now), (p.check.node.now, p.check.id.now)) };

    fn place(&self, row: &Served) -> Ordering {
        let check = pair_order(&row.check(), &self.check);
        pair_order(&row.service(), &self.service).then(check)
    }
}

fn entry_of(row: &CheckRow) -> Result<Served, Memory>
    ensures { IfOk result (λ e. e ≡ (home row.now, check_key row.now)) }
{
    Ok(Served {
        node: copy_of(&row.node)?,
        service: copy_of(&row.service)?,
        id: copy_of(&row.id)?,
    })
}

// Files the check under its service.
fn file(services: &mut RowTable<Served>, row: &CheckRow) -> Result<(), Memory>
    ensures ok { OnOk result (services.new.now ≡ filed pair_cmp pair_cmp (Some (home row.now)) (check_key row.now) services.old.now) }
    ensures before { services.new.before ≡ services.old.before }
    ensures err { OnErr result (services.new.now ≡ services.old.now) }
{
    let entry = entry_of(row)?;
    if let Err((_, memory)) = services.set(entry) {
        return Err(memory);
    }
    Ok(())
}

// Takes the check from under the service.
fn unfile(services: &mut RowTable<Served>, node: &str, service: &str, id: &str)
    ensures now { services.new.now ≡ unfiled pair_cmp pair_cmp (Some (node.now, service.now)) (node.now, id.now) services.old.now }
    ensures before { services.new.before ≡ services.old.before }
{
    services.remove(&ByService {
        service: ByPair { node, id: service },
        check: ByPair { node, id },
    });
}

// The service of the row of this row's key.
fn old_service(rows: &RowTable<CheckRow>, row: &CheckRow) -> Result<Option<Text>, Memory>
    ensures { IfOk result (λ service. service ≡ place_of service_of (check_at (check_key row.now) rows.now.now)) }
{
    match rows.get(row) {
        Some(old) => Ok(Some(copy_of(&old.service)?)),
        None => Ok(None),
    }
}

// Whether the row of this row's key is of the same service.
fn keeps_service(rows: &RowTable<CheckRow>, row: &CheckRow) -> bool
    ensures { result ≡ is_place text_cmp row.now.service (place_of service_of (check_at (check_key row.now) rows.now.now)) }
{
    match rows.get(row) {
        Some(old) => is_same(&old.service, &row.service),
        None => false,
    }
}

// Takes the check from under the service, where there is one.
fn unfile_old(services: &mut RowTable<Served>, service: &Option<Text>, node: &Text, id: &Text)
    ensures now { services.new.now ≡ unfiled pair_cmp pair_cmp (homed node.now service.now) (node.now, id.now) services.old.now }
    ensures before { services.new.before ≡ services.old.before }
{
    if let Some(service) = service {
        unfile(services, node.as_str(), service.as_str(), id.as_str());
    }
}

// Puts a row in the place of the one of its key, which is of another service, or is not there.
fn refile(
    rows: &mut RowTable<CheckRow>,
    statuses: &mut RowTable<Stated>,
    services: &mut RowTable<Served>,
    row: CheckRow,
) -> Result<(), Memory>
    requires statuses { FilesStatuses rows.old.now statuses.old.now }
    requires services { FilesServices rows.old.now services.old.now }
    requires other { is_place text_cmp row.service (place_of service_of (check_at (check_key row) rows.old.now)) ≡ false }
    ensures statuses { FilesStatuses rows.new.now statuses.new.now }
    ensures services { FilesServices rows.new.now services.new.now }
    ensures ok { OnOk result (rows.new.now ≡ put pair_cmp check_key row rows.old.now) }
    ensures before { rows.new.before ≡ rows.old.before }
    ensures statuses_before { statuses.new.before ≡ statuses.old.before }
    ensures services_before { services.new.before ≡ services.old.before }
{
    let old = old_service(rows, &row)?;
    let node = copy_of(&row.node)?;
    let service = copy_of(&row.service)?;
    let id = copy_of(&row.id)?;
    file(services, &row)?;
    if let Err(memory) = stated::set(rows, statuses, row) {
        unfile(services, node.as_str(), service.as_str(), id.as_str());
        return Err(memory);
    }
    unfile_old(services, &old, &node, &id);
    Ok(())
}

/// Puts the row in the place of the one of its key.
pub(crate) fn set(
    rows: &mut RowTable<CheckRow>,
    statuses: &mut RowTable<Stated>,
    services: &mut RowTable<Served>,
    row: CheckRow,
) -> Result<(), Memory>
    requires statuses { FilesStatuses rows.old.now statuses.old.now }
    requires services { FilesServices rows.old.now services.old.now }
    ensures statuses { FilesStatuses rows.new.now statuses.new.now }
    ensures services { FilesServices rows.new.now services.new.now }
    ensures ok { OnOk result (rows.new.now ≡ put pair_cmp check_key row rows.old.now) }
    ensures before { rows.new.before ≡ rows.old.before }
    ensures statuses_before { statuses.new.before ≡ statuses.old.before }
    ensures services_before { services.new.before ≡ services.old.before }
{
    if keeps_service(rows, &row) {
        stated::set(rows, statuses, row)
    } else {
        refile(rows, statuses, services, row)
    }
}

// Takes the check of a key from under its service.
fn take_service(rows: &RowTable<CheckRow>, services: &mut RowTable<Served>, node: &str, id: &str)
    ensures now { services.new.now ≡ unfiled pair_cmp pair_cmp (homed node.now (place_of service_of (check_at (node.now, id.now) rows.now.now))) (node.now, id.now) services.old.now }
    ensures before { services.new.before ≡ services.old.before }
{
    if let Some(row) = rows.get(&ByPair { node, id }) {
        unfile(services, node, row.service.as_str(), id);
    }
}

/// Removes the row of a key.
pub(crate) fn remove(
    rows: &mut RowTable<CheckRow>,
    statuses: &mut RowTable<Stated>,
    services: &mut RowTable<Served>,
    node: &str,
    id: &str,
)
    requires statuses { FilesStatuses rows.old.now statuses.old.now }
    requires services { FilesServices rows.old.now services.old.now }
    ensures statuses { FilesStatuses rows.new.now statuses.new.now }
    ensures services { FilesServices rows.new.now services.new.now }
    ensures rows { rows.new.now ≡ without (λ r. is_eq (pair_cmp (node.now, id.now) (check_key r))) rows.old.now }
    ensures before { rows.new.before ≡ rows.old.before }
    ensures statuses_before { statuses.new.before ≡ statuses.old.before }
    ensures services_before { services.new.before ≡ services.old.before }
{
    take_service(rows, services, node, id);
    stated::remove(rows, statuses, node, id);
}

/// Copies of the rows that are filed under the service of the node.
pub(crate) fn filed_under(
    alloc: Global,
    rows: &RowTable<CheckRow>,
    services: &RowTable<Served>,
    node: &str,
    service: &str,
) -> Result<Vec<CheckRow>, Memory>
    requires { FilesServices rows.now.now services.now.now }
    ensures { IfOk result (λ v. v.items ≡ filter (λ r. same_text r.node node.now && same_text r.service service.now) rows.now.now) }
{
    rows.in_order();
    services.in_order();
    let mut found = Vec::new(alloc);
    let least = ByService {
        service: ByPair { node, id: service },
        check: ByPair { node: "", id: "" },
    };
    for entry in services.rows_from(&least) {
        if !entry.is_of(node, service) {
            break;
        }
        add_check(&mut found, rows, &entry.node, &entry.id)?;
    }
    Ok(found)
}

// Brings the rows into the order of their keys. Those that come as two lists in order are merged.
fn sort(rows: &mut Vec<CheckRow>) -> Result<(), Memory>
    ensures moved { IsPermutation rows.old.items rows.new.items }
    ensures sorted { OnOk result (IsSortedBy (λ a b. is_lt (pair_cmp (check_key a) (check_key b))) rows.new.items) }
{
    rows.sort_by(|a, b| a.order(b))?;
    Ok(())
}

/// Copies of the rows that count for a service of the node: its own, and those of the node alone.
pub(crate) fn counting_for(
    alloc: Global,
    rows: &RowTable<CheckRow>,
    services: &RowTable<Served>,
    node: &str,
    service: &str,
) -> Result<Vec<CheckRow>, Memory>
    requires { FilesServices rows.now.now services.now.now }
    ensures { IfOk result (λ v. v.items ≡ filter (λ r. same_text r.node node.now && (is_empty r.service || same_text r.service service.now)) rows.now.now) }
{
    rows.in_order();
    let mut found = filed_under(alloc, rows, services, node, "")?;
    if is_blank(service) {
        return Ok(found);
    }
    let mut own = filed_under(alloc, rows, services, node, service)?;
    found.append(&mut own)?;
    sort(&mut found)?;
    Ok(found)
}
