ghost use Rattle.std.specs.Prelude.{◌≡◌, [], None, IfOk, OnErr, OnOk, filter, is_some};
ghost use Rattle.std.specs.Option.{option_copied};
ghost use Rattle.std.specs.Ordering.{is_eq, nat_cmp};
ghost use Rattle.cat_model.specs.Catalog.{session_at, session_key};
ghost use Rattle.cat_model.specs.Tables.{put, without, Ascends};
ghost use Rattle.session_table.specs.Nodes.{is_of_node, is_on_some};

use crate::places::Standing;
use crate::rows::{add, remove, rows_on, rows_on_some};
use cat_model::{List, Memory, SessionRow, Text};
use row_table::{ById, RowTable, Rows};
use std::alloc::Global;
use std::marker::Model;

/// The rows of sessions. Contracts see them as they are now and as they stood at the last `keep`, or at `new` where there
/// was none.
#[derive(Drop)]
pub struct SessionTable {
    alloc: Global,
    rows: RowTable<SessionRow>,
    places: RowTable<Standing>,
}

impl Model for SessionTable {
    ghost use Rattle.session_table.specs.Places.{FilesPlaces};
    ghost use Rattle.session_table.specs.States.{SessionVersions};

    ghost Value = { SessionVersions };

    ghost view = { λ t. record { now = t.rows.now; before = t.rows.before } };

    ghost invariant = { λ t. FilesPlaces t.rows.now t.places.now × FilesPlaces t.rows.before t.places.before };
}

impl SessionTable {
    /// The empty table, which takes no memory.
    pub fn new(alloc: Global) -> SessionTable
        ensures { result ≡ record { now = []; before = [] } }
    {
        SessionTable {
            alloc,
            rows: RowTable::new(alloc),
            places: RowTable::new(alloc),
        }
    }

    /// Adds a session whose identifier is new.
    pub fn create(&mut self, row: SessionRow) -> Result<(), Memory>
        requires { session_at row.id self.old.now ≡ None }
        ensures rows { OnOk result (self.new.now ≡ put nat_cmp session_key row self.old.now) }
        ensures before { self.new.before ≡ self.old.before }
        ensures err { OnErr result (self.new ≡ self.old) }
    {
        add(self.alloc, &mut self.rows, &mut self.places, row)
    }

    /// Removes the session's row, and tells whether there was one. What becomes of the keys that it holds is a matter of
    /// the table of keys.
    pub fn end(&mut self, id: u128) -> bool
        ensures rows { self.new.now ≡ without (λ r. is_eq (nat_cmp id r.id)) self.old.now }
        ensures before { self.new.before ≡ self.old.before }
        ensures there { result ≡ is_some (session_at id self.old.now) }
    {
        remove(&mut self.rows, &mut self.places, id)
    }

    /// The session's row. The rows are in the order of their identifiers, one for each.
    pub fn get(&self, id: u128) -> Option<&SessionRow>
        ensures row { option_copied result ≡ session_at id self.now.now }
        ensures order { Ascends nat_cmp session_key self.now.now }
    {
        self.rows.in_order();
        self.rows.get(&ById(id))
    }

    /// The rows one after another, in the order of their identifiers.
    pub fn rows(&self) -> Rows<'_, SessionRow>
        ensures { result ≡ self.now.now }
    {
        self.rows.rows()
    }

    /// Copies of all rows.
    pub fn all(&self, alloc: Global) -> Result<List<SessionRow>, Memory>
        ensures { IfOk result (λ rows. rows ≡ self.now.now) }
    {
        let rows = self.rows.copied(alloc, |_| true)?;
        Ok(List::from(rows))
    }

    /// Copies of the rows of the node's sessions.
    pub fn of_node(&self, alloc: Global, node: &str) -> Result<List<SessionRow>, Memory>
        ensures { IfOk result (λ rows. rows ≡ filter (is_of_node node.now) self.now.now) }
    {
        let rows = rows_on(alloc, &self.rows, &self.places, node)?;
        Ok(List::from(rows))
    }

    /// Copies of the rows of the node's sessions that stand on some of the checks, in the order of their identifiers
    /// and each once. On an empty check stands each session of the node.
    pub fn on_some(
        &self,
        alloc: Global,
        node: &str,
        checks: &[Text],
    ) -> Result<List<SessionRow>, Memory>
        ensures { IfOk result (λ rows. rows ≡ filter (is_on_some node.now checks.now) self.now.now) }
    {
        let rows = rows_on_some(alloc, &self.rows, &self.places, node, checks)?;
        Ok(List::from(rows))
    }

    /// Makes the table as it is now that to which `undo` goes back.
    pub fn keep(&mut self)
        ensures now { self.new.now ≡ self.old.now }
        ensures before { self.new.before ≡ self.old.now }
    {
        self.rows.keep();
        self.places.keep();
    }

    /// Makes the table again what it was at the last `keep`, or at `new` where there was none.
    pub fn undo(&mut self)
        ensures now { self.new.now ≡ self.old.before }
        ensures before { self.new.before ≡ self.old.before }
    {
        self.rows.undo();
        self.places.undo();
    }
}
