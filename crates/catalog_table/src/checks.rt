//! The rows of checks together with the indexes of those of each status and of each service.

ghost use Rattle.std.specs.Prelude.{◌≡◌, ◌&&◌, ◌||◌, [], IfOk, OnOk, filter};
ghost use Rattle.std.specs.Option.{option_copied};
ghost use Rattle.std.specs.Ordering.{is_eq};
ghost use Rattle.cat_model.specs.Catalog.{check_at, check_key};
ghost use Rattle.cat_model.specs.Keys.{is_empty, pair_cmp, same_text};
ghost use Rattle.cat_model.specs.Same.{same_status};
ghost use Rattle.cat_model.specs.Tables.{put, without, Ascends};

use crate::copies::{all, checks_on};
use crate::served::{self, Served};
use crate::stated::{self, Stated};
use crate::walks;
use cat_model::{CheckRow, List, Memory, Status};
use row_table::{ByPair, RowTable, Seen};
use std::alloc::Global;
use std::marker::Model;

/// The rows of checks. Contracts see them as they are now and as they stood at the last `keep`, or at `new` where there
/// was none.
#[derive(Drop)]
pub(crate) struct CheckTable {
    rows: RowTable<CheckRow>,
    statuses: RowTable<Stated>,
    services: RowTable<Served>,
}

impl Model for CheckTable {
    ghost use Rattle.catalog_table.specs.Filings.{CheckVersions, FilesChecks};

    ghost Value = { CheckVersions };

    ghost view = { λ t. record { now = t.rows.now; before = t.rows.before } };

    ghost invariant = { λ t. FilesChecks t.rows.now t.statuses.now t.services.now × FilesChecks t.rows.before t.statuses.before t.services.before };
}

impl CheckTable {
    pub(crate) fn new(alloc: Global) -> CheckTable
        ensures { result ≡ record { now = []; before = [] } }
    {
        CheckTable {
            rows: RowTable::new(alloc),
            statuses: RowTable::new(alloc),
            services: RowTable::new(alloc),
        }
    }

    pub(crate) fn get(&self, node: &str, id: &str) -> Option<&CheckRow>
        ensures { option_copied result ≡ check_at (node.now, id.now) self.now.now }
    {
        self.rows.get(&ByPair { node, id })
    }

    /// Puts the row in the place of the one of its key.
    pub(crate) fn set(&mut self, row: CheckRow) -> Result<(), Memory>
        ensures ok { OnOk result (self.new.now ≡ put pair_cmp check_key row self.old.now) }
        ensures before { self.new.before ≡ self.old.before }
    {
        served::set(&mut self.rows, &mut self.statuses, &mut self.services, row)
    }

    pub(crate) fn remove(&mut self, node: &str, id: &str)
        ensures now { self.new.now ≡ without (λ r. is_eq (pair_cmp (node.now, id.now) (check_key r))) self.old.now }
        ensures before { self.new.before ≡ self.old.before }
    {
        served::remove(
            &mut self.rows,
            &mut self.statuses,
            &mut self.services,
            node,
            id,
        );
    }

    /// Copies of the checks in this state.
    pub(crate) fn with_status(
        &self,
        alloc: Global,
        status: Status,
    ) -> Result<List<CheckRow>, Memory>
        ensures { IfOk result (λ l. l ≡ filter (λ r. same_status r.status status) self.now.now) }
    {
        let found = stated::filed_under(alloc, &self.rows, &self.statuses, status)?;
        Ok(List::from(found))
    }

    /// Copies of the node's checks.
    pub(crate) fn of_node(&self, alloc: Global, node: &str) -> Result<List<CheckRow>, Memory>
        ensures { IfOk result (λ l. l ≡ filter (λ r. same_text r.node node.now) self.now.now) }
    {
        let found = checks_on(alloc, &self.rows, node)?;
        Ok(List::from(found))
    }

    /// The node's checks where they stand.
    pub(crate) fn on_node(
        &self,
        alloc: Global,
        node: &str,
    ) -> Result<Vec<Seen<'_, CheckRow>>, Memory>
        ensures { IfOk result (λ v. v.items ≡ filter (λ r. same_text r.node node.now) self.now.now) }
    {
        walks::checks_on(alloc, &self.rows, node)
    }

    /// Copies of the checks of a service of the node.
    pub(crate) fn of_service(
        &self,
        alloc: Global,
        node: &str,
        service: &str,
    ) -> Result<List<CheckRow>, Memory>
        ensures { IfOk result (λ l. l ≡ filter (λ r. same_text r.node node.now && same_text r.service service.now) self.now.now) }
    {
        let found = served::filed_under(alloc, &self.rows, &self.services, node, service)?;
        Ok(List::from(found))
    }

    /// Copies of the checks that count for a service of the node: its own and the node's own.
    pub(crate) fn counting_for(
        &self,
        alloc: Global,
        node: &str,
        service: &str,
    ) -> Result<List<CheckRow>, Memory>
        ensures { IfOk result (λ l. l ≡ filter (λ r. same_text r.node node.now && (is_empty r.service || same_text r.service service.now)) self.now.now) }
    {
        let found = served::counting_for(alloc, &self.rows, &self.services, node, service)?;
        Ok(List::from(found))
    }

    pub(crate) fn all(&self, alloc: Global) -> Result<List<CheckRow>, Memory>
        ensures { IfOk result (λ l. l ≡ self.now.now) }
    {
        all(alloc, &self.rows)
    }

    /// Tells a proof that the rows are in the order of their keys.
    pub(crate) fn in_order(&self)
        ensures { Ascends pair_cmp check_key self.now.now }
    {
        self.rows.in_order();
    }

    pub(crate) fn keep(&mut self)
        ensures now { self.new.now ≡ self.old.now }
        ensures before { self.new.before ≡ self.old.now }
    {
        self.rows.keep();
        self.statuses.keep();
        self.services.keep();
    }

    pub(crate) fn undo(&mut self)
        ensures now { self.new.now ≡ self.old.before }
        ensures before { self.new.before ≡ self.old.before }
    {
        self.rows.undo();
        self.statuses.undo();
        self.services.undo();
    }
}
