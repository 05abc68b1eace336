ghost use Rattle.std.specs.Prelude.{◌≡◌, IfOk, option_map};
ghost use Rattle.std.specs.Option.{option_copied};
ghost use Rattle.filter_expr.specs.Expressions.{expression_of};
ghost use Rattle.script_lang.specs.Text.{out_text, reason_text, end_text as end_text_of};
ghost use Rattle.cluster_requests.specs.Contents.{out_of};
ghost use Rattle.script_player.specs.Text as spec;

use crate::refused::Refused;
use cat_model::{Bytes, Memory, Out};
use cluster_requests::Given;
use filter_expr::Filter;
use reply_body::written_through;
use script_lang::{print_end, print_out, print_refused};
use std::alloc::Global;

// What the out gives, as it is given to the outside through a filter.
fn outward(alloc: Global, given: &Given, filter: Option<&Filter>) -> Result<Out, Memory>
    ensures { IfOk result (λ o. o ≡ spec.given (option_map expression_of (option_copied filter.entry)) (out_of given.now)) }
{
    match given {
        Given::Replied(reply) => Ok(Out::Reply(written_through(alloc, reply, filter)?)),
        Given::Closed { number, event } => Ok(Out::Closed {
            number: *number,
            event: *event,
        }),
        Given::Synced { agent, count } => Ok(Out::Synced {
            agent: *agent,
            count: *count,
        }),
    }
}

// The line of what an out gives.
fn printed(alloc: Global, given: &Out) -> Result<Bytes, Memory>
    ensures { IfOk result (λ text. text ≡ out_text given.now) }
{
    let mut text = Bytes::new(alloc, b"")?;
    print_out(alloc, given, &mut text)?;
    Ok(text)
}

/// The line of an out of the cluster, through the filter of its request.
pub fn line_of_out(
    alloc: Global,
    out: &cluster_requests::Out,
    filter: Option<&Filter>,
) -> Result<Bytes, Memory>
    ensures { IfOk result (λ text. text ≡ spec.line_of_out (option_map expression_of (option_copied filter.entry)) out.now) }
{
    let given = outward(alloc, out.given(), filter)?;
    printed(alloc, &given)
}

/// The line that says which line is refused, and why.
pub fn refused_text(alloc: Global, refused: Refused) -> Result<Bytes, Memory>
    ensures { IfOk result (λ text. text ≡ spec.refused_text refused.line (reason_text refused.reason)) }
{
    let mut text = Bytes::new(alloc, b"")?;
    print_refused(alloc, refused.line, refused.reason, &mut text)?;
    Ok(text)
}

/// The last line of a whole run: the length of the agreed log, and the requests without a reply.
pub fn end_text(alloc: Global, log: u64, unanswered: &[u64]) -> Result<Bytes, Memory>
    ensures { IfOk result (λ text. text ≡ end_text_of log unanswered.now) }
{
    let mut text = Bytes::new(alloc, b"")?;
    print_end(alloc, log, unanswered, &mut text)?;
    Ok(text)
}
