//! The rows of services together with the index of those of each name.

ghost use Rattle.std.specs.Prelude.{◌≡◌, ◌++◌, ◌&&◌, [], Some, IfOk, OnErr, OnOk, false, filter, not};
ghost use Rattle.std.specs.List.{cons_option, filter_map, list_any};
ghost use Rattle.std.specs.Option.{option_copied};
ghost use Rattle.std.specs.Ordering.{is_eq};
ghost use Rattle.cat_model.specs.Catalog.{service_at, service_key};
ghost use Rattle.cat_model.specs.Keys.{pair_cmp, same_text, text_cmp};
ghost use Rattle.cat_model.specs.Tables.{put, without, Ascends};
ghost use Rattle.row_table.specs.Filing.{is_place, place_of, unfiled};
ghost use Rattle.catalog_table.specs.Filings.{name_of, FilesNames};
ghost use Rattle.catalog_table.specs.Touching.{name_in, service_names};

use crate::copies::{all, copy_of, services_on};
use crate::named::{ByName, Named, file, unfile};
use crate::same::{is_same, is_text};
use crate::walks;
use cat_model::{List, Memory, ServiceRow, Text, Texts};
use row_table::{ByPair, Row, RowTable, Seen};
use std::alloc::Global;
use std::marker::Model;

/// The rows of services. Contracts see them as they are now and as they stood at the last `keep`, or at `new` where there
/// was none.
#[derive(Drop)]
pub(crate) struct ServiceTable {
    rows: RowTable<ServiceRow>,
    names: RowTable<Named>,
}

impl Model for ServiceTable {
    ghost use Rattle.catalog_table.specs.Filings.{FilesNames, ServiceVersions};

    ghost Value = { ServiceVersions };

    ghost view = { λ t. record { now = t.rows.now; before = t.rows.before } };

    ghost invariant = { λ t. FilesNames t.rows.now t.names.now × FilesNames t.rows.before t.names.before };
}

// Whether the row of this row's key has the same name.
fn keeps_name(rows: &RowTable<ServiceRow>, row: &ServiceRow) -> bool
    ensures { result ≡ is_place text_cmp row.now.name (place_of name_of (service_at (service_key row.now) rows.now.now)) }
{
    match rows.get(row) {
        Some(old) => is_same(&old.name, &row.name),
        None => false,
    }
}

// The name that the row of this row's key has.
fn old_name(rows: &RowTable<ServiceRow>, row: &ServiceRow) -> Result<Option<Text>, Memory>
    ensures { IfOk result (λ name. name ≡ place_of name_of (service_at (service_key row.now) rows.now.now)) }
{
    match rows.get(row) {
        Some(old) => Ok(Some(copy_of(&old.name)?)),
        None => Ok(None),
    }
}

// Takes the service from under the name, where there is one.
fn unfile_old(names: &mut RowTable<Named>, name: &Option<Text>, node: &Text, id: &Text)
    ensures now { names.new.now ≡ unfiled text_cmp pair_cmp name.now (node.now, id.now) names.old.now }
    ensures before { names.new.before ≡ names.old.before }
{
    if let Some(name) = name {
        unfile(names, name.as_str(), node.as_str(), id.as_str());
    }
}

// Puts a row in the place of the one of its key, which has another name, or is not there.
fn rename(
    rows: &mut RowTable<ServiceRow>,
    names: &mut RowTable<Named>,
    row: ServiceRow,
) -> Result<(), Memory>
    requires files { FilesNames rows.old.now names.old.now }
    requires other { is_place text_cmp row.name (place_of name_of (service_at (service_key row) rows.old.now)) ≡ false }
    ensures files { FilesNames rows.new.now names.new.now }
    ensures ok { OnOk result (rows.new.now ≡ put pair_cmp service_key row rows.old.now) }
    ensures before { rows.new.before ≡ rows.old.before }
    ensures names_before { names.new.before ≡ names.old.before }
{
    let name = old_name(rows, &row)?;
    let node = copy_of(&row.node)?;
    let id = copy_of(&row.id)?;
    file(names, &row)?;
    if let Err((row, memory)) = rows.set(row) {
        unfile(names, row.name.as_str(), node.as_str(), id.as_str());
        return Err(memory);
    }
    unfile_old(names, &name, &node, &id);
    Ok(())
}

// Puts a row in the place of the one of its key, which has the same name.
fn replace(rows: &mut RowTable<ServiceRow>, row: ServiceRow) -> Result<(), Memory>
    ensures ok { OnOk result (rows.new.now ≡ put pair_cmp service_key row rows.old.now) }
    ensures before { rows.new.before ≡ rows.old.before }
    ensures err { OnErr result (rows.new.now ≡ rows.old.now) }
{
    match rows.set(row) {
        Ok(()) => Ok(()),
        Err((_, memory)) => Err(memory),
    }
}

// Puts the row in the place of the one of its key.
fn set(
    rows: &mut RowTable<ServiceRow>,
    names: &mut RowTable<Named>,
    row: ServiceRow,
) -> Result<(), Memory>
    requires files { FilesNames rows.old.now names.old.now }
    ensures files { FilesNames rows.new.now names.new.now }
    ensures ok { OnOk result (rows.new.now ≡ put pair_cmp service_key row rows.old.now) }
    ensures before { rows.new.before ≡ rows.old.before }
    ensures names_before { names.new.before ≡ names.old.before }
{
    if keeps_name(rows, &row) {
        replace(rows, row)
    } else {
        rename(rows, names, row)
    }
}

// Takes the service of a key from under its name.
fn take_name(rows: &RowTable<ServiceRow>, names: &mut RowTable<Named>, node: &str, id: &str)
    ensures now { names.new.now ≡ unfiled text_cmp pair_cmp (place_of name_of (service_at (node.now, id.now) rows.now.now)) (node.now, id.now) names.old.now }
    ensures before { names.new.before ≡ names.old.before }
{
    if let Some(row) = rows.get(&ByPair { node, id }) {
        unfile(names, row.name.as_str(), node, id);
    }
}

// Removes the row of a key.
fn remove(rows: &mut RowTable<ServiceRow>, names: &mut RowTable<Named>, node: &str, id: &str)
    requires files { FilesNames rows.old.now names.old.now }
    ensures files { FilesNames rows.new.now names.new.now }
    ensures rows { rows.new.now ≡ without (λ r. is_eq (pair_cmp (node.now, id.now) (service_key r))) rows.old.now }
    ensures before { rows.new.before ≡ rows.old.before }
    ensures names_before { names.new.before ≡ names.old.before }
{
    take_name(rows, names, node, id);
    rows.remove(&ByPair { node, id });
}

// Whether a service is filed under the name.
fn is_filed(rows: &RowTable<ServiceRow>, names: &RowTable<Named>, name: &str) -> bool
    requires { FilesNames rows.now.now names.now.now }
    ensures { result ≡ list_any (λ r. same_text r.name name.now) rows.now.now }
{
    rows.in_order();
    names.in_order();
    let least = ByName {
        name,
        node: "",
        id: "",
    };
    let mut entries = names.rows_from(&least);
    match entries.next() {
        Some(entry) => is_text(&entry.name, name),
        None => false,
    }
}

// Whether a service of another node is filed under the name.
fn is_filed_elsewhere(
    rows: &RowTable<ServiceRow>,
    names: &RowTable<Named>,
    name: &str,
    node: &str,
) -> bool
    requires { FilesNames rows.now.now names.now.now }
    ensures { result ≡ list_any (λ r. same_text r.name name.now && not (same_text r.node node.now)) rows.now.now }
{
    rows.in_order();
    names.in_order();
    let least = ByName {
        name,
        node: "",
        id: "",
    };
    for entry in names.rows_from(&least) {
        if !is_text(&entry.name, name) {
            return false;
        }
        if !is_text(&entry.node, node) {
            return true;
        }
    }
    false
}

// Adds a copy of the row of a key, if it is there.
fn add_row(
    found: &mut Vec<ServiceRow>,
    rows: &RowTable<ServiceRow>,
    entry: &Named,
) -> Result<(), Memory>
    ensures { OnOk result (found.new.items ≡ found.old.items ++ cons_option (service_at entry.now.1 rows.now.now) []) }
{
    let key = ByPair {
        node: entry.node.as_str(),
        id: entry.id.as_str(),
    };
    if let Some(row) = rows.get(&key) {
        found.push(row.copy()?)?;
    }
    Ok(())
}

// Copies of the rows that are filed under the name.
fn filed_under(
    alloc: Global,
    rows: &RowTable<ServiceRow>,
    names: &RowTable<Named>,
    name: &str,
) -> Result<Vec<ServiceRow>, Memory>
    requires { FilesNames rows.now.now names.now.now }
    ensures { IfOk result (λ v. v.items ≡ filter (λ r. same_text r.name name.now) rows.now.now) }
{
    rows.in_order();
    names.in_order();
    let mut found = Vec::new(alloc);
    let least = ByName {
        name,
        node: "",
        id: "",
    };
    for entry in names.rows_from(&least) {
        if !is_text(&entry.name, name) {
            break;
        }
        add_row(&mut found, rows, entry)?;
    }
    Ok(found)
}

// The names of all services.
fn each_name(alloc: Global, rows: &RowTable<ServiceRow>) -> Result<Texts, Memory>
    ensures { IfOk result (λ l. l ≡ service_names rows.now.now) }
{
    let mut names = List::new(alloc);
    for row in rows.rows() {
        names.push(copy_of(&row.name)?)?;
    }
    Ok(names)
}

// Adds the names of the node's services.
fn add_names_on(names: &mut Texts, rows: &RowTable<ServiceRow>, node: &str) -> Result<(), Memory>
    ensures { OnOk result (names.new ≡ names.old ++ service_names (filter (λ r. same_text r.node node.now) rows.now.now)) }
{
    rows.in_order();
    for row in rows.rows_from(&ByPair { node, id: "" }) {
        if !is_text(&row.node, node) {
            break;
        }
        names.push(copy_of(&row.name)?)?;
    }
    Ok(())
}

// Adds the name of the service of a key, if it is there.
fn add_name(
    names: &mut Texts,
    rows: &RowTable<ServiceRow>,
    node: &str,
    id: &str,
) -> Result<(), Memory>
    ensures { OnOk result (names.new ≡ names.old ++ cons_option (name_in (service_at (node.now, id.now) rows.now.now)) []) }
{
    if let Some(row) = rows.get(&ByPair { node, id }) {
        names.push(copy_of(&row.name)?)?;
    }
    Ok(())
}

// Adds the names of these services of the node.
fn add_names_of(
    names: &mut Texts,
    rows: &RowTable<ServiceRow>,
    node: &str,
    ids: &[Text],
) -> Result<(), Memory>
    ensures { OnOk result (names.new ≡ names.old ++ filter_map (λ id. name_in (service_at (node.now, id) rows.now.now)) ids.now) }
{
    let mut left = ids;
    while let Some((id, rest)) = left.split_first() {
        add_name(names, rows, node, id.as_str())?;
        left = rest;
    }
    Ok(())
}

impl ServiceTable {
    pub(crate) fn new(alloc: Global) -> ServiceTable
        ensures { result ≡ record { now = []; before = [] } }
    {
        ServiceTable {
            rows: RowTable::new(alloc),
            names: RowTable::new(alloc),
        }
    }

    pub(crate) fn get(&self, node: &str, id: &str) -> Option<&ServiceRow>
        ensures { option_copied result ≡ service_at (node.now, id.now) self.now.now }
    {
        self.rows.get(&ByPair { node, id })
    }

    /// Puts the row in the place of the one of its key.
    pub(crate) fn set(&mut self, row: ServiceRow) -> Result<(), Memory>
        ensures ok { OnOk result (self.new.now ≡ put pair_cmp service_key row self.old.now) }
        ensures before { self.new.before ≡ self.old.before }
    {
        set(&mut self.rows, &mut self.names, row)
    }

    pub(crate) fn remove(&mut self, node: &str, id: &str)
        ensures now { self.new.now ≡ without (λ r. is_eq (pair_cmp (node.now, id.now) (service_key r))) self.old.now }
        ensures before { self.new.before ≡ self.old.before }
    {
        remove(&mut self.rows, &mut self.names, node, id);
    }

    /// Whether a service has this name.
    pub(crate) fn has_name(&self, name: &str) -> bool
        ensures { result ≡ list_any (λ r. same_text r.name name.now) self.now.now }
    {
        is_filed(&self.rows, &self.names, name)
    }

    /// Whether a service of another node has this name.
    pub(crate) fn is_elsewhere(&self, name: &str, node: &str) -> bool
        ensures { result ≡ list_any (λ r. same_text r.name name.now && not (same_text r.node node.now)) self.now.now }
    {
        is_filed_elsewhere(&self.rows, &self.names, name, node)
    }

    /// The names of all services, by node and then by ID.
    pub(crate) fn each_name(&self, alloc: Global) -> Result<Texts, Memory>
        ensures { IfOk result (λ l. l ≡ service_names self.now.now) }
    {
        each_name(alloc, &self.rows)
    }

    /// Copies of the services with this name.
    pub(crate) fn named(&self, alloc: Global, name: &str) -> Result<List<ServiceRow>, Memory>
        ensures { IfOk result (λ l. l ≡ filter (λ r. same_text r.name name.now) self.now.now) }
    {
        let found = filed_under(alloc, &self.rows, &self.names, name)?;
        Ok(List::from(found))
    }

    /// Copies of the node's services.
    pub(crate) fn of_node(&self, alloc: Global, node: &str) -> Result<List<ServiceRow>, Memory>
        ensures { IfOk result (λ l. l ≡ filter (λ r. same_text r.node node.now) self.now.now) }
    {
        let found = services_on(alloc, &self.rows, node)?;
        Ok(List::from(found))
    }

    /// The node's services where they stand.
    pub(crate) fn on_node(
        &self,
        alloc: Global,
        node: &str,
    ) -> Result<Vec<Seen<'_, ServiceRow>>, Memory>
        ensures { IfOk result (λ v. v.items ≡ filter (λ r. same_text r.node node.now) self.now.now) }
    {
        walks::services_on(alloc, &self.rows, node)
    }

    /// Adds the names of the node's services.
    pub(crate) fn add_names_on(&self, names: &mut Texts, node: &str) -> Result<(), Memory>
        ensures { OnOk result (names.new ≡ names.old ++ service_names (filter (λ r. same_text r.node node.now) self.now.now)) }
    {
        add_names_on(names, &self.rows, node)
    }

    /// Adds the names of these services of the node, each that is there.
    pub(crate) fn add_names_of(
        &self,
        names: &mut Texts,
        node: &str,
        ids: &[Text],
    ) -> Result<(), Memory>
        ensures { OnOk result (names.new ≡ names.old ++ filter_map (λ id. name_in (service_at (node.now, id) self.now.now)) ids.now) }
    {
        add_names_of(names, &self.rows, node, ids)
    }

    pub(crate) fn all(&self, alloc: Global) -> Result<List<ServiceRow>, Memory>
        ensures { IfOk result (λ l. l ≡ self.now.now) }
    {
        all(alloc, &self.rows)
    }

    /// Tells a proof that the rows are in the order of their keys.
    pub(crate) fn in_order(&self)
        ensures { Ascends pair_cmp service_key self.now.now }
    {
        self.rows.in_order();
    }

    pub(crate) fn keep(&mut self)
        ensures now { self.new.now ≡ self.old.now }
        ensures before { self.new.before ≡ self.old.now }
    {
        self.rows.keep();
        self.names.keep();
    }

    pub(crate) fn undo(&mut self)
        ensures now { self.new.now ≡ self.old.before }
        ensures before { self.new.before ≡ self.old.before }
    {
        self.rows.undo();
        self.names.undo();
    }
}
