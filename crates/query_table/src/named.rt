//! The names of queries with their identifiers, by name and then by identifier.

ghost use Rattle.std.specs.Prelude.{◌≡◌, [], Some, false, IfOk, OnErr, OnOk, find, is_some};
ghost use Rattle.std.specs.Option.{option_copied};
ghost use Rattle.std.specs.Ordering.{is_eq, nat_cmp};
ghost use Rattle.std.proofs.lemmas.Cmp.{nat_cmp_total, nat_list_cmp_total};
ghost use Rattle.std.proofs.lemmas.Map.Lookups.{exact_bytes, exact_pairs, exact_unsigned};
ghost use Rattle.cat_model.proofs.Pairs.{both_total};
ghost use Rattle.cat_model.specs.Keys.{same_text, text_cmp};
ghost use Rattle.cat_model.specs.Catalog.{query_at, query_key};
ghost use Rattle.cat_model.specs.Tables.{put, without, Ascends};
ghost use Rattle.row_table.specs.Filing.{filed_cmp, filed_key, filed, unfiled, keys_under, is_place, place_of};
ghost use Rattle.row_table.specs.Walks.{first_row};
ghost use Rattle.query_table.specs.States.{is_named};
ghost use Rattle.query_table.specs.Places.{name_of, session_of, FilesNames};

use cat_model::{List, Memory, QueryRow, Text};
use row_table::{ById, Probe, Row, RowTable};
use std::alloc::Global;
use std::cmp::Ordering;
use std::marker::Model;

/// The name of a query.
#[derive(Drop)]
pub(crate) struct Named {
    pub(crate) name: Text,
    pub(crate) id: u128,
}

impl Model for Named {
    ghost use Rattle.std.specs.Prelude.{ℕ, List};

    ghost Value = { List ℕ × ℕ };

    ghost view = { λ n. (n.name, n.id) };
}

impl Row for Named {
    type Key = (Text, u128);

    ghost key = { filed_key };

    ghost cmp = { filed_cmp text_cmp nat_cmp };

    ghost total = { both_total text_cmp nat_cmp nat_list_cmp_total nat_cmp_total };

    ghost exact = { exact_pairs text_cmp nat_cmp exact_bytes exact_unsigned };

    fn order(&self, other: &Named) -> Ordering {
        self.name
            .as_str()
            .cmp(other.name.as_str())
            .then(self.id.cmp(&other.id))
    }

    fn copy(&self) -> Result<Named, Memory> {
        Ok(Named {
            name: self.name.clone()?,
            id: self.id,
        })
    }
}

/// Looks for the query of this name and identifier.
#[derive(Clone, Copy)]
pub(crate) struct ByName<'a> {
    pub(crate) name: &'a str,
    pub(crate) id: u128,
}

impl<'a> Probe<Named> for ByName<'a> {
    ghost sought = { λ p. (p.name.now, p.id) };

    fn place(&self, row: &Named) -> Ordering {
        row.name.as_str().cmp(self.name).then(row.id.cmp(&self.id))
    }
}

/// The rows of the queries, with the index of their names.
#[derive(Drop)]
pub(crate) struct NamedRows {
    rows: RowTable<QueryRow>,
    names: RowTable<Named>,
}

impl Model for NamedRows {
    ghost use Rattle.query_table.specs.States.{QueryVersions};
    ghost use Rattle.query_table.specs.Places.{FilesNames};

    ghost Value = { QueryVersions };

    ghost view = { λ t. record { now = t.rows.now; before = t.rows.before } };

    ghost invariant = { λ t. FilesNames t.rows.now t.names.now × FilesNames t.rows.before t.names.before };
}

// The name of the query of this identifier.
fn name_at(rows: &RowTable<QueryRow>, id: u128) -> Result<Option<Text>, Memory>
    ensures { IfOk result (λ name. name ≡ place_of name_of (query_at id rows.now.now)) }
{
    match rows.get(&ById(id)) {
        Some(row) => Ok(Some(row.name.clone()?)),
        None => Ok(None),
    }
}

fn is_text(text: &Text, name: &str) -> bool
    ensures { result ≡ same_text text.now name.now }
{
    text.as_str() == name
}

// Whether this is the name that there was.
#[tactic(auto, using(row_table::proofs::Places::text_place))]
fn is_same(old: &Option<Text>, name: &str) -> bool
    ensures { result ≡ is_place text_cmp name.now old.now }
{
    match old {
        Some(old) => is_text(old, name),
        None => false,
    }
}

// Files the query under the name.
fn file(names: &mut RowTable<Named>, name: Text, id: u128) -> Result<(), Memory>
    ensures ok { OnOk result (names.new.now ≡ filed text_cmp nat_cmp (Some name) id names.old.now) }
    ensures before { names.new.before ≡ names.old.before }
    ensures err { OnErr result (names.new.now ≡ names.old.now) }
{
    if let Err((_, memory)) = names.set(Named { name, id }) {
        return Err(memory);
    }
    Ok(())
}

// Takes the query from under the name, where there is one.
fn unfile(names: &mut RowTable<Named>, name: &Option<Text>, id: u128)
    ensures now { names.new.now ≡ unfiled text_cmp nat_cmp name.now id names.old.now }
    ensures before { names.new.before ≡ names.old.before }
{
    if let Some(name) = name {
        names.remove(&ByName {
            name: name.as_str(),
            id,
        });
    }
}

// Puts the row in the place of the one of its identifier, whose name is this.
fn replace(rows: &mut RowTable<QueryRow>, row: QueryRow) -> Result<(), Memory>
    ensures ok { OnOk result (rows.new.now ≡ put nat_cmp query_key row rows.old.now) }
    ensures before { rows.new.before ≡ rows.old.before }
    ensures err { OnErr result (rows.new.now ≡ rows.old.now) }
{
    if let Err((_, memory)) = rows.set(row) {
        return Err(memory);
    }
    Ok(())
}

// Puts a row with a new name in the place of the one of its identifier, whose name was the old one.
fn rename(
    rows: &mut RowTable<QueryRow>,
    names: &mut RowTable<Named>,
    old: &Option<Text>,
    row: QueryRow,
) -> Result<(), Memory>
    requires files { FilesNames rows.old.now names.old.now }
    requires old { old.now ≡ place_of name_of (query_at row.id rows.old.now) }
    requires new { is_place text_cmp row.name old.now ≡ false }
    ensures files { FilesNames rows.new.now names.new.now }
    ensures ok { OnOk result (rows.new.now ≡ put nat_cmp query_key row rows.old.now) }
    ensures before { rows.new.before ≡ rows.old.before }
    ensures names_before { names.new.before ≡ names.old.before }
    ensures err { OnErr result (rows.new.now ≡ rows.old.now) }
{
    let id = row.id;
    let new = Some(row.name.clone()?);
    file(names, row.name.clone()?, id)?;
    if let Err(memory) = replace(rows, row) {
        unfile(names, &new, id);
        return Err(memory);
    }
    unfile(names, old, id);
    Ok(())
}

// Puts the row in the place of the one of its identifier.
fn set(
    rows: &mut RowTable<QueryRow>,
    names: &mut RowTable<Named>,
    row: QueryRow,
) -> Result<(), Memory>
    requires files { FilesNames rows.old.now names.old.now }
    ensures files { FilesNames rows.new.now names.new.now }
    ensures ok { OnOk result (rows.new.now ≡ put nat_cmp query_key row rows.old.now) }
    ensures before { rows.new.before ≡ rows.old.before }
    ensures names_before { names.new.before ≡ names.old.before }
    ensures err { OnErr result (rows.new.now ≡ rows.old.now) }
{
    let old = name_at(rows, row.id)?;
    if is_same(&old, row.name.as_str()) {
        replace(rows, row)
    } else {
        rename(rows, names, &old, row)
    }
}

// Takes the query of an identifier from under its name, and tells whether it was there.
fn take_name(rows: &RowTable<QueryRow>, names: &mut RowTable<Named>, id: u128) -> bool
    ensures now { names.new.now ≡ unfiled text_cmp nat_cmp (place_of name_of (query_at id rows.now.now)) id names.old.now }
    ensures before { names.new.before ≡ names.old.before }
{
    match rows.get(&ById(id)) {
        Some(row) => names.remove(&ByName {
            name: row.name.as_str(),
            id,
        }),
        None => false,
    }
}

// Removes the row of an identifier, and tells whether there was one.
fn remove(rows: &mut RowTable<QueryRow>, names: &mut RowTable<Named>, id: u128) -> bool
    requires files { FilesNames rows.old.now names.old.now }
    ensures files { FilesNames rows.new.now names.new.now }
    ensures rows { rows.new.now ≡ without (λ r. is_eq (nat_cmp id r.id)) rows.old.now }
    ensures before { rows.new.before ≡ rows.old.before }
    ensures names_before { names.new.before ≡ names.old.before }
    ensures there { result ≡ is_some (query_at id rows.old.now) }
{
    take_name(rows, names, id);
    rows.remove(&ById(id))
}

// The least identifier of the queries of the name.
fn first_id(names: &RowTable<Named>, name: &str) -> Option<u128>
    ensures id { result ≡ first_row (keys_under text_cmp nat_cmp name.now names.now.now) }
    ensures order { Ascends (filed_cmp text_cmp nat_cmp) filed_key names.now.now }
{
    names.in_order();
    match names.rows_from(&ByName { name, id: 0 }).next() {
        Some(first) => {
            if is_text(&first.name, name) {
                Some(first.id)
            } else {
                None
            }
        }
        None => None,
    }
}

// The first query of the name.
fn first_named<'a>(
    rows: &'a RowTable<QueryRow>,
    names: &RowTable<Named>,
    name: &str,
) -> Option<&'a QueryRow>
    requires { FilesNames rows.now.now names.now.now }
    ensures { option_copied result ≡ find (is_named name.now) rows.now.now }
{
    rows.in_order();
    match first_id(names, name) {
        Some(id) => rows.get(&ById(id)),
        None => None,
    }
}

impl NamedRows {
    pub(crate) fn new(alloc: Global) -> NamedRows
        ensures { result ≡ record { now = []; before = [] } }
    {
        NamedRows {
            rows: RowTable::new(alloc),
            names: RowTable::new(alloc),
        }
    }

    pub(crate) fn set(&mut self, row: QueryRow) -> Result<(), Memory>
        ensures ok { OnOk result (self.new.now ≡ put nat_cmp query_key row self.old.now) }
        ensures before { self.new.before ≡ self.old.before }
        ensures err { OnErr result (self.new.now ≡ self.old.now) }
    {
        set(&mut self.rows, &mut self.names, row)
    }

    pub(crate) fn remove(&mut self, id: u128) -> bool
        ensures rows { self.new.now ≡ without (λ r. is_eq (nat_cmp id r.id)) self.old.now }
        ensures before { self.new.before ≡ self.old.before }
        ensures there { result ≡ is_some (query_at id self.old.now) }
    {
        remove(&mut self.rows, &mut self.names, id)
    }

    pub(crate) fn get(&self, id: u128) -> Option<&QueryRow>
        ensures { option_copied result ≡ query_at id self.now.now }
    {
        self.rows.get(&ById(id))
    }

    /// The session that the query of this identifier is bound to.
    pub(crate) fn session_of(&self, id: u128) -> Option<u128>
        ensures { result ≡ place_of session_of (query_at id self.now.now) }
    {
        match self.rows.get(&ById(id)) {
            Some(row) => row.session,
            None => None,
        }
    }

    /// The first query of the name.
    pub(crate) fn named(&self, name: &str) -> Option<&QueryRow>
        ensures { option_copied result ≡ find (is_named name.now) self.now.now }
    {
        first_named(&self.rows, &self.names, name)
    }

    /// Copies of all rows.
    pub(crate) fn all(&self, alloc: Global) -> Result<List<QueryRow>, Memory>
        ensures rows { IfOk result (λ rows. rows ≡ self.now.now) }
        ensures order { IfOk result (Ascends nat_cmp query_key) }
    {
        let rows = self.rows.copied(alloc, |_| true)?;
        Ok(List::from(rows))
    }

    /// Tells a proof that the rows are in the order of their identifiers.
    pub(crate) fn in_order(&self)
        ensures { Ascends nat_cmp query_key self.now.now }
    {
        self.rows.in_order();
    }

    pub(crate) fn keep(&mut self)
        ensures now { self.new.now ≡ self.old.now }
        ensures before { self.new.before ≡ self.old.now }
    {
        self.rows.keep();
        self.names.keep();
    }

    pub(crate) fn undo(&mut self)
        ensures now { self.new.now ≡ self.old.before }
        ensures before { self.new.before ≡ self.old.before }
    {
        self.rows.undo();
        self.names.undo();
    }
}
