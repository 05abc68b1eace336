ghost use Rattle.std.specs.Prelude.{◌≡◌, [], Some, IfOk, OnErr, OnOk, filter, find, is_some, map};
ghost use Rattle.std.specs.Option.{option_copied};
ghost use Rattle.std.specs.Ordering.{is_eq, nat_cmp};
ghost use Rattle.cat_model.specs.Catalog.{query_at, query_key};
ghost use Rattle.cat_model.specs.Tables.{put, without, Ascends};
ghost use Rattle.query_table.specs.States.{is_named, is_bound_to};

use crate::bound::{Bound, bind, ids_of, unbind};
use crate::named::NamedRows;
use cat_model::{List, Memory, QueryRow};
use row_table::RowTable;
use std::alloc::Global;
use std::marker::Model;

/// The rows of prepared queries. Contracts see them as they are now and as they stood at the last `keep`, or at `new`
/// where there was none.
#[derive(Drop)]
pub struct QueryTable {
    rows: NamedRows,
    bound: RowTable<Bound>,
}

impl Model for QueryTable {
    ghost use Rattle.query_table.specs.States.{QueryVersions};
    ghost use Rattle.query_table.specs.Places.{FilesSessions};

    ghost Value = { QueryVersions };

    ghost view = { λ t. record { now = t.rows.now; before = t.rows.before } };

    ghost invariant = { λ t. FilesSessions t.rows.now t.bound.now × FilesSessions t.rows.before t.bound.before };
}

impl QueryTable {
    /// The empty table, which takes no memory.
    pub fn new(alloc: Global) -> QueryTable
        ensures { result ≡ record { now = []; before = [] } }
    {
        QueryTable {
            rows: NamedRows::new(alloc),
            bound: RowTable::new(alloc),
        }
    }

    /// Puts the row in the place of the one of its identifier.
    pub fn set(&mut self, row: QueryRow) -> Result<(), Memory>
        ensures ok { OnOk result (self.new.now ≡ put nat_cmp query_key row self.old.now) }
        ensures before { self.new.before ≡ self.old.before }
        ensures err { OnErr result (self.new ≡ self.old) }
    {
        let id = row.id;
        let old = self.rows.session_of(id);
        let new = row.session;
        if old == new {
            return self.rows.set(row);
        }
        bind(&mut self.bound, new, id)?;
        if let Err(memory) = self.rows.set(row) {
            unbind(&mut self.bound, new, id);
            return Err(memory);
        }
        unbind(&mut self.bound, old, id);
        Ok(())
    }

    /// Removes the row of an identifier, and tells whether there was one.
    pub fn remove(&mut self, id: u128) -> bool
        ensures rows { self.new.now ≡ without (λ r. is_eq (nat_cmp id r.id)) self.old.now }
        ensures before { self.new.before ≡ self.old.before }
        ensures there { result ≡ is_some (query_at id self.old.now) }
    {
        let old = self.rows.session_of(id);
        unbind(&mut self.bound, old, id);
        self.rows.remove(id)
    }

    /// The query of an identifier. The rows are in the order of their identifiers, one for each.
    pub fn by_id(&self, id: u128) -> Option<&QueryRow>
        ensures row { option_copied result ≡ query_at id self.now.now }
        ensures order { Ascends nat_cmp query_key self.now.now }
    {
        self.rows.in_order();
        self.rows.get(id)
    }

    /// The query of a name: where several have it, the one of the least identifier.
    pub fn by_name(&self, name: &str) -> Option<&QueryRow>
        ensures row { option_copied result ≡ find (is_named name.now) self.now.now }
        ensures order { Ascends nat_cmp query_key self.now.now }
    {
        self.rows.in_order();
        self.rows.named(name)
    }

    /// The identifiers of the queries that are bound to the session, from the least on.
    pub fn of_session(&self, alloc: Global, id: u128) -> Result<Vec<u128>, Memory>
        ensures ids { IfOk result (λ v. v.items ≡ map query_key (filter (is_bound_to id) self.now.now)) }
        ensures order { IfOk result (λ v. Ascends nat_cmp (λ i. i) v.items) }
    {
        ids_of(alloc, &self.rows, &self.bound, id)
    }

    /// Copies of all rows.
    pub fn all(&self, alloc: Global) -> Result<List<QueryRow>, Memory>
        ensures rows { IfOk result (λ rows. rows ≡ self.now.now) }
        ensures order { IfOk result (Ascends nat_cmp query_key) }
    {
        self.rows.all(alloc)
    }

    /// Makes the table as it is now that to which `undo` goes back.
    pub fn keep(&mut self)
        ensures now { self.new.now ≡ self.old.now }
        ensures before { self.new.before ≡ self.old.now }
    {
        self.rows.keep();
        self.bound.keep();
    }

    /// Makes the table again what it was at the last `keep`, or at `new` where there was none.
    pub fn undo(&mut self)
        ensures now { self.new.now ≡ self.old.before }
        ensures before { self.new.before ≡ self.old.before }
    {
        self.rows.undo();
        self.bound.undo();
    }
}
