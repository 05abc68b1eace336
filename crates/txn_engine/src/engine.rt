//! The operations of a transaction, one after the other.

ghost use Rattle.std.specs.Prelude.{◌≡◌, ◌≤◌, [], ◌++◌, IfOk, length};
ghost use Rattle.cat_model.specs.Keys.{text_cmp};
ghost use Rattle.cat_model.specs.Tables.{Ascends};
ghost use Rattle.cat_model.specs.Catalog.{kv_key};
ghost use Rattle.cat_model.specs.Kv.{run_ops};
ghost use Rattle.txn_engine.specs.Changes.{Ends};

use crate::operate::operate;
use crate::overlay::changes_made;
use crate::{Change, TxnEnd};
use cat_model::{KvRows, List, Memory, TxnOp, TxnResult};
use row_table::RowTable;
use std::alloc::Global;

// Puts the later results behind the earlier ones.
fn joined(earlier: List<TxnResult>, later: List<TxnResult>) -> Result<List<TxnResult>, Memory>
    ensures { IfOk result (λ l. l ≡ earlier ++ later) }
{
    let mut all = earlier.into_vec();
    all.append(&mut later.into_vec())?;
    Ok(List::from(all))
}

/// Does the operations in order at the position, each on what the ones before left, until one fails. The rows stay as they
/// are: what becomes of them is told by the changes. It takes no longer for more rows, but for those whose key has the
/// prefix of an operation on a tree.
#[tactic(auto, unfolding(cat_model::specs::Kv::run_ops))]
pub fn run<R: KvRows>(
    alloc: Global,
    rows: &R,
    ops: &List<TxnOp>,
    position: u64,
) -> Result<TxnEnd, Memory>
    requires order { Ascends text_cmp kv_key (R.rows rows.now) }
    requires few { length ops.now ≤ 64 }
    ensures { IfOk result (λ end. Ends position (R.rows rows.now) (run_ops (R.version rows.now) position (R.sessions rows.now) 0 ops.now (R.rows rows.now) []) end) }
{
    let mut changes = RowTable::new(alloc);
    let mut results = List::new(alloc);
    let mut place: u32 = 0;
    let mut left = ops.as_slice();
    while let Some((op, rest)) = left.split_first() {
        let Some(more) = operate(alloc, rows, &mut changes, op, position)? else {
            return Ok(TxnEnd::RolledBack {
                op: place,
                verb: op.verb,
            });
        };
        results = joined(results, more)?;
        place += 1;
        left = rest;
    }
    let changes = changes_made(alloc, rows, &changes)?;
    Ok(TxnEnd::Done { results, changes })
}
