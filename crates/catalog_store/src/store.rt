ghost use Rattle.std.specs.Prelude.{◌≡◌, ◌≤◌, ◌+◌, [], ◌∷◌, ◌++◌, IfOk, OnOk, OnErr, length, map, true};
ghost use Rattle.cat_model.specs.Machine.{catalog_at, reply_to, freed};
ghost use Rattle.cat_model.specs.Channels.{fires};
ghost use Rattle.catalog_store.specs.Firing.{FiresJust};
ghost use Rattle.catalog_store.specs.States.{now_of, before_of};
ghost use Rattle.catalog_store.specs.Standing.{KeysStand, RowsStand, PositionsStand, Ready};
ghost use Rattle.catalog_store.specs.Taken.{is_taken};
ghost use Rattle.catalog_store.specs.Whole.{TablesStep};

use crate::steps::step;
use crate::tables::Tables;
use cat_model::{Applied, Command, Fired, Memory, Shared};
use catalog_table::CatalogTable;
use kv_table::KvTable;
use query_table::QueryTable;
use session_table::SessionTable;
use std::alloc::Global;
use std::marker::Model;
use touch_positions::TableIndex;

/// The tables with the commands that were applied to them. Contracts see it as the list of these, the first one first.
#[derive(Drop)]
pub struct Store {
    tables: Tables,
    applied: Vec<Shared<Command>>,
}

impl Model for Store {
    ghost use Rattle.std.specs.Prelude.{List};
    ghost use Rattle.cat_model.specs.declared.command.Command.{Command};
    ghost use Rattle.catalog_store.specs.Standing.{Holds};

    ghost Value = { List Command };

    ghost view = { λ s. s.applied.items };

    ghost invariant = { λ s. Holds s.tables s.applied.items };
}

// Applies the command to the tables, and puts it last. Lack of memory leaves the list as it was.
fn advance(
    alloc: Global,
    tables: &mut Tables,
    applied: &mut Vec<Shared<Command>>,
    position: u64,
    command: &Shared<Command>,
) -> Result<(Applied, Fired), Memory>
    requires ready { Ready position (now_of tables.old) }
    requires kind { is_taken command.now ≡ true }
    ensures step { IfOk result (λ d. TablesStep position command.now (now_of tables.old) (now_of tables.new) d.0 d.1) }
    ensures ok { OnOk result (applied.new.items ≡ applied.old.items ++ command.now ∷ []) }
    ensures err { OnErr result (applied.new.items ≡ applied.old.items) }
    ensures before { before_of tables.new ≡ before_of tables.old }
{
    let owner = command.share()?;
    let done = step(alloc, tables, position, command)?;
    applied.push(owner)?;
    Ok(done)
}

impl Store {
    /// The store before the first command.
    pub fn new(alloc: Global) -> Result<Store, Memory>
        ensures { IfOk result (λ s. s ≡ []) }
    {
        Ok(Store {
            tables: Tables::new(alloc)?,
            applied: Vec::new(alloc),
        })
    }

    /// Applies the command at the next position. It gives the answer, the channels that the step fires and the keys that
    /// it frees. After lack of memory the store is as before.
    pub fn apply(
        &mut self,
        alloc: Global,
        position: u64,
        command: &Shared<Command>,
    ) -> Result<(Applied, Fired), Memory>
        requires place { position ≡ length self.old + 1 }
        requires limit { position ≤ 262144 }
        requires kind { is_taken command.now ≡ true }
        ensures ok { OnOk result (self.new ≡ self.old ++ command.now ∷ []) }
        ensures reply { IfOk result (λ d. d.0 ≡ reply_to self.old command.now) }
        ensures fired { IfOk result (λ d. FiresJust (fires (catalog_at self.old) command.now (catalog_at (self.old ++ command.now ∷ []))) d.1.chans) }
        ensures freed { IfOk result (λ d. map (λ f. (f.key, f.delay_ms)) d.1.freed ≡ freed position command.now (catalog_at self.old)) }
        ensures err { OnErr result (self.new ≡ self.old) }
    {
        match advance(
            alloc,
            &mut self.tables,
            &mut self.applied,
            position,
            command,
        ) {
            Ok(done) => {
                self.tables.keep();
                Ok(done)
            }
            Err(memory) => {
                self.tables.undo();
                Err(memory)
            }
        }
    }

    /// The version of the catalog machine.
    pub fn version(&self) -> u32
        ensures { result ≡ (catalog_at self.now).version }
    {
        self.tables.version
    }

    /// The table of the keys.
    pub fn kv(&self) -> &KvTable
        ensures now { KeysStand result.now.now self.now }
        ensures kept { result.now.before ≡ result.now.now }
    {
        &self.tables.kv
    }

    /// The table of nodes, services and checks.
    pub fn catalog(&self) -> &CatalogTable
        ensures now { RowsStand result.now.now self.now }
        ensures kept { result.now.before ≡ result.now.now }
    {
        &self.tables.catalog
    }

    /// The table of sessions.
    pub fn sessions(&self) -> &SessionTable
        ensures now { result.now.now ≡ (catalog_at self.now).sessions }
        ensures kept { result.now.before ≡ result.now.now }
    {
        &self.tables.sessions
    }

    /// The table of prepared queries.
    pub fn queries(&self) -> &QueryTable
        ensures now { result.now.now ≡ (catalog_at self.now).queries }
        ensures kept { result.now.before ≡ result.now.now }
    {
        &self.tables.queries
    }

    /// The indexes of the tables, of the service names and of the nodes.
    pub fn indexes(&self) -> &TableIndex
        ensures now { PositionsStand result.now.now self.now }
        ensures kept { result.now.before ≡ result.now.now }
    {
        &self.tables.indexes
    }

    /// How many commands were applied.
    pub fn length(&self) -> u64
        ensures { result ≡ length self.now }
    {
        self.applied.len() as u64
    }
}
