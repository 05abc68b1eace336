//! Prepared queries.

ghost use Rattle.std.specs.Prelude.{◌≡◌, IfOk, filter, nat_eq};
ghost use Rattle.cat_model.specs.Queries.{queries_or_absent};

use cat_model::lists::{copy_of, one};
use cat_model::{Answer, Memory};
use query_table::QueryTable;
use std::alloc::Global;

/// The prepared query of this identifier, if there is one.
pub(crate) fn of_id(alloc: Global, queries: &QueryTable, id: u128) -> Result<Answer, Memory>
    ensures { IfOk result (λ x. x ≡ queries_or_absent (filter (λ r. nat_eq r.id id) queries.now.now)) }
{
    match queries.by_id(id) {
        None => Ok(Answer::Absent),
        Some(row) => Ok(Answer::Queries(one(alloc, copy_of(row)?)?)),
    }
}
