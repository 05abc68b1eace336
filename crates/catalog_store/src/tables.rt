//! The tables of a store, which go on together or go back together.

ghost use Rattle.std.specs.Prelude.{◌≡◌, IfOk};
ghost use Rattle.catalog_store.specs.States.{first, now_of, before_of};

use cat_model::Memory;
use catalog_table::CatalogTable;
use kv_table::KvTable;
use query_table::QueryTable;
use session_table::SessionTable;
use std::alloc::Global;
use touch_positions::TableIndex;

/// The rows of the catalog and the positions of their last changes, with the version of the machine.
#[derive(Drop)]
pub(crate) struct Tables {
    pub(crate) version: u32,
    pub(crate) kept_version: u32,
    pub(crate) kv: KvTable,
    pub(crate) catalog: CatalogTable,
    pub(crate) sessions: SessionTable,
    pub(crate) queries: QueryTable,
    pub(crate) indexes: TableIndex,
}

impl Tables {
    /// Those before the first command.
    pub(crate) fn new(alloc: Global) -> Result<Tables, Memory>
        ensures now { IfOk result (λ t. now_of t ≡ first) }
        ensures before { IfOk result (λ t. before_of t ≡ first) }
    {
        let kv = KvTable::new(alloc)?;
        let indexes = TableIndex::new(alloc)?;
        Ok(Tables {
            version: 1,
            kept_version: 1,
            kv,
            catalog: CatalogTable::new(alloc),
            sessions: SessionTable::new(alloc),
            queries: QueryTable::new(alloc),
            indexes,
        })
    }

    /// Makes the tables as they are now those to which `undo` goes back.
    pub(crate) fn keep(&mut self)
        ensures now { now_of self.new ≡ now_of self.old }
        ensures before { before_of self.new ≡ now_of self.old }
    {
        self.kept_version = self.version;
        self.kv.keep();
        self.catalog.keep();
        self.sessions.keep();
        self.queries.keep();
        self.indexes.keep();
    }

    /// Makes the tables again what they were at the last `keep`, or at `new` where there was none.
    pub(crate) fn undo(&mut self)
        ensures now { now_of self.new ≡ before_of self.old }
        ensures before { before_of self.new ≡ before_of self.old }
    {
        self.version = self.kept_version;
        self.kv.undo();
        self.catalog.undo();
        self.sessions.undo();
        self.queries.undo();
        self.indexes.undo();
    }
}
