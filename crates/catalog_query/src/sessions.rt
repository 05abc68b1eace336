//! Sessions.

ghost use Rattle.std.specs.Prelude.{◌≡◌, IfOk, filter, nat_eq};

use cat_model::lists::copy_if_any;
use cat_model::{Answer, Memory};
use session_table::SessionTable;
use std::alloc::Global;

/// The session of this identifier, if there is one.
pub(crate) fn of_id(alloc: Global, sessions: &SessionTable, id: u128) -> Result<Answer, Memory>
    ensures { IfOk result (λ x. x ≡ Answer.Sessions (filter (λ s. nat_eq s.id id) sessions.now.now)) }
{
    Ok(Answer::Sessions(copy_if_any(alloc, sessions.get(id))?))
}
