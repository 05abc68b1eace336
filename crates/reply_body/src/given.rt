//! Replies as they are written.

ghost use Rattle.std.specs.Prelude.{◌≡◌, ◌≤◌, ◌<◌, IfOk, option_map};
ghost use Rattle.std.specs.Option.{option_copied};
ghost use Rattle.filter_expr.specs.Expressions.{expression_of};
ghost use Rattle.reply_body.specs.Filtered.{shown};
ghost use Rattle.reply_body.specs.Written.{written as written_reply};

use crate::content::body;
use crate::shown::Shown;
use cat_model::{Memory, Reply};
use filter_expr::Filter;
use std::alloc::Global;

/// The reply with the status, body and form of its content, of whose list a filter leaves what it keeps: that alone
/// differs from the reply without one. Its status is one of HTTP's, a number of three digits.
#[tactic(auto, using(crate::proofs::Statuses::is_code))]
pub fn written_through(
    alloc: Global,
    reply: &cluster_requests::Reply,
    filter: Option<&Filter>,
) -> Result<Reply, Memory>
    ensures reply { IfOk result (λ r. r ≡ written_reply (shown (option_map expression_of (option_copied filter.entry)) reply.now)) }
    ensures status { IfOk result (λ r. (100 ≤ r.status) × (r.status < 1000)) }
{
    let Shown { status, body, form } = body(alloc, reply.content(), filter)?;
    Ok(Reply {
        number: reply.number(),
        status,
        index: reply.index(),
        body,
        form,
        known_leader: reply.known(),
        last_contact: reply.contact(),
        kind: reply.kind().clone()?,
    })
}

/// The reply with all that its content shows.
#[tactic(auto, using(crate::proofs::Whole::shown_whole))]
pub fn written(alloc: Global, reply: &cluster_requests::Reply) -> Result<Reply, Memory>
    ensures reply { IfOk result (λ r. r ≡ written_reply reply.now) }
    ensures status { IfOk result (λ r. (100 ≤ r.status) × (r.status < 1000)) }
{
    written_through(alloc, reply, None)
}
