ghost use Rattle.std.specs.Prelude.{◌≡◌, ◌+◌, IfOk, List};
ghost use Rattle.cat_model.specs.declared.command.Command.{Command};
ghost use Rattle.cat_model.specs.Machine.{catalog_at};
ghost use Rattle.cat_model.specs.Queries.{answer};
ghost use Rattle.cat_model.specs.Indexes.{index_of};
ghost use Rattle.cat_model.specs.Channels.{chans};
ghost use Rattle.cat_model.specs.Executions.{execution};
ghost use Rattle.cat_model.specs.Views.{kept_index};
ghost use Rattle.catalog_query.specs.Executing.{Executes};
ghost use Rattle.catalog_query.specs.Standing.{view_index, NamesFit, Stands};

use crate::{ExecuteFault, answers, channels, executions, indexes};
use cat_model::{Answer, Chan, List, Memory, Query, Ran, Steps};
use catalog_table::CatalogTable;
use kv_table::KvTable;
use query_table::QueryTable;
use session_table::SessionTable;
use std::alloc::Global;
use std::marker::Model;
use std::sync::ledger::Ledger;
use touch_positions::TableIndex;

/// The tables of a store, read together. Contracts see them as what they keep in place of a log.
#[derive(Drop)]
pub struct View<'a> {
    pub kv: &'a KvTable,
    pub catalog: &'a CatalogTable,
    pub sessions: &'a SessionTable,
    pub queries: &'a QueryTable,
    pub indexes: &'a TableIndex,
}

impl<'a> Model for View<'a> {
    ghost use Rattle.cat_model.specs.Views.{Kept};
    ghost use Rattle.catalog_query.specs.Standing.{kept_of};

    ghost Value = { Kept };

    ghost view = { λ v. kept_of v.kv.now.now v.catalog.now.now v.sessions.now.now v.queries.now.now v.indexes.now.now };
}

/// The index of the query. It takes no memory, and no answer is made.
pub fn index(view: &View, query: &Query) -> u64
    ensures index { result ≡ view_index query.now view.now }
    ensures stands { (log : List Command) → Stands view.now log → result ≡ index_of query.now log }
{
    indexes::of_query(view.kv, view.catalog, view.indexes, query)
}

/// The answer to the query with its index. It is one step, also where memory fails.
pub fn evaluate<L: Ledger>(
    alloc: Global,
    view: &View,
    query: &Query,
    steps: &mut Steps<L>,
) -> Result<(Answer, u64), Memory>
    ensures answer { IfOk result (λ r. r.0 ≡ answer query.now view.now.rows) }
    ensures index { IfOk result (λ r. r.1 ≡ view_index query.now view.now) }
    ensures kept { NamesFit view.now → IfOk result (λ r. r.1 ≡ kept_index query.now view.now) }
    ensures stands { (log : List Command) → Stands view.now log → IfOk result (λ r. r ≡ (answer query.now (catalog_at log), index_of query.now log)) }
    ensures cost { steps.new ≡ steps.old + 1 }
{
    steps.tick();
    let answer = answers::of_query(
        alloc,
        view.kv,
        view.catalog,
        view.sessions,
        view.queries,
        query,
    )?;
    Ok((answer, index(view, query)))
}

/// The channels on which the query hangs.
pub fn chans(alloc: Global, view: &View, query: &Query) -> Result<List<Chan>, Memory>
    ensures chans { IfOk result (λ l. l ≡ chans query.now view.now.rows) }
    ensures stands { (log : List Command) → Stands view.now log → IfOk result (λ l. l ≡ chans query.now (catalog_at log)) }
{
    channels::of_query(alloc, view.kv, view.catalog, query)
}

/// Executes the prepared query that the name names: the one of the identifier that it spells, if it spells one and there
/// is such a query, and else the one of this name. A limit of 0 is none.
///
/// Consul, Prepared Queries HTTP endpoint: "Execute Prepared Query".
pub fn execute(
    alloc: Global,
    view: &View,
    id: Option<u128>,
    name: &str,
    limit: u64,
) -> Result<Ran, ExecuteFault>
    ensures rows { Executes (execution view.now.rows id name.now limit) result }
    ensures stands { (log : List Command) → Stands view.now log → Executes (execution (catalog_at log) id name.now limit) result }
{
    let Some(row) = executions::find(view.queries, id, name) else {
        return Err(ExecuteFault::Unknown);
    };
    Ok(executions::run(alloc, view.catalog, row, limit)?)
}
