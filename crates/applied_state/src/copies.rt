//! Copies of the catalog's answers.

ghost use Rattle.std.specs.Prelude.{◌≡◌, IfOk};

use cat_model::{Applied, KvRow, List, Memory, TxnResult};
use std::alloc::Global;

fn copy_of_row(row: &KvRow) -> Result<KvRow, Memory>
    ensures { IfOk result (λ copy. copy ≡ row.now) }
{
    Ok(row.clone()?)
}

fn copy_of_result(item: &TxnResult) -> Result<TxnResult, Memory>
    ensures { IfOk result (λ copy. copy ≡ item.now) }
{
    Ok(TxnResult {
        row: copy_of_row(&item.row)?,
        with_value: item.with_value,
    })
}

fn copy_of_results(alloc: Global, items: &[TxnResult]) -> Result<List<TxnResult>, Memory>
    ensures { IfOk result (λ copy. copy ≡ items.now) }
{
    let mut all = List::new(alloc);
    for item in items {
        all.push(copy_of_result(item)?)?;
    }
    Ok(all)
}

pub(crate) fn copy_of(alloc: Global, applied: &Applied) -> Result<Applied, Memory>
    ensures { IfOk result (λ copy. copy ≡ applied.now) }
{
    match applied {
        Applied::Done => Ok(Applied::Done),
        Applied::Yes => Ok(Applied::Yes),
        Applied::No => Ok(Applied::No),
        Applied::Results(results) => {
            let copy = copy_of_results(alloc, results.as_slice())?;
            Ok(Applied::Results(copy))
        }
        Applied::RolledBack { op, verb } => Ok(Applied::RolledBack {
            op: *op,
            verb: *verb,
        }),
        Applied::Refused(why) => Ok(Applied::Refused(*why)),
    }
}
