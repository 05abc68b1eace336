//! Transactions: operations on the rows of the keys, which all go through or change nothing.

ghost use Rattle.std.specs.Prelude.{◌≡◌, ◌≤◌, [], IfOk, length};
ghost use Rattle.cat_model.specs.Kv.{run_ops};
ghost use Rattle.cat_model.specs.declared.command.Command.TheVariants.{Txn};
ghost use Rattle.txn_engine.specs.Changes.{Ends};
ghost use Rattle.catalog_store.specs.Steps.{Earlier, KeyStep};

use crate::key_commands::freed_keys::in_order;
use crate::key_commands::transaction::write_changes;
use cat_model::{Applied, Chan, KvRow, KvRows, List, Memory, TxnOp};
use kv_table::KvTable;
use session_table::SessionTable;
use std::alloc::Global;
use txn_engine::{TxnEnd, run};

/// What the operations of a transaction read.
#[derive(Clone, Copy)]
struct Read<'a> {
    version: u32,
    table: &'a KvTable,
    sessions: &'a SessionTable,
}

impl<'a> KvRows for Read<'a> {
    ghost version = { λ r. r.version };

    ghost rows = { λ r. r.table.now.now.rows };

    ghost sessions = { λ r. r.sessions.now.now };

    fn version(&self) -> u32 {
        self.version
    }

    fn row(&self, key: &str) -> Option<&KvRow> {
        self.table.get(key)
    }

    fn rows_under(&self, alloc: Global, prefix: &str) -> Result<List<KvRow>, Memory> {
        self.table.prefix(alloc, prefix)
    }

    fn session_known(&self, id: u128) -> bool {
        self.sessions.get(id).is_some()
    }
}

// How the transaction ends. The table stays as it is.
fn run_on(
    alloc: Global,
    table: &KvTable,
    sessions: &SessionTable,
    version: u32,
    position: u64,
    ops: &List<TxnOp>,
) -> Result<TxnEnd, Memory>
    requires { length ops.now ≤ 64 }
    ensures { IfOk result (λ end. Ends position table.now.now.rows (run_ops version position sessions.now.now 0 ops.now table.now.now.rows []) end) }
{
    in_order(table);
    let rows = Read {
        version,
        table,
        sessions,
    };
    run(alloc, &rows, ops, position)
}

/// Applies a transaction of at most 64 operations by the machine of this version. Its changes are one step.
pub fn apply_txn(
    alloc: Global,
    table: &mut KvTable,
    sessions: &SessionTable,
    version: u32,
    position: u64,
    ops: &List<TxnOp>,
) -> Result<(Applied, List<Chan>), Memory>
    requires earlier { Earlier position table.old.now.rows }
    requires few { length ops.now ≤ 64 }
    ensures step { IfOk result (λ d. KeyStep version sessions.now.now position (Txn ops.now) table.old table.new d.0 d.1) }
    ensures before { table.new.before ≡ table.old.before }
{
    match run_on(alloc, table, sessions, version, position, ops)? {
        TxnEnd::RolledBack { op, verb } => Ok((Applied::RolledBack { op, verb }, List::new(alloc))),
        TxnEnd::Done { results, changes } => {
            let chans = write_changes(alloc, table, position, changes.as_slice())?;
            Ok((Applied::Results(results), chans))
        }
    }
}
