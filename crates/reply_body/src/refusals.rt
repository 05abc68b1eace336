//! What refusals show.

ghost use Rattle.std.specs.Prelude.{◌≡◌, ◌++◌, IfOk, codes};
ghost use Rattle.reply_body.specs.Bodies.{plain as plain_text};
ghost use Rattle.reply_body.specs.Refusals.{shown_refusal};

use crate::json::plain;
use crate::shown::Shown;
use cat_model::{Memory, Refusal};
use std::alloc::Global;

fn invalid(alloc: Global, field: &str) -> Result<Shown, Memory>
    ensures { IfOk result (λ shown. shown ≡ plain_text 400 (codes "Invalid " ++ field.now)) }
{
    let text = format!(in alloc; "Invalid {field}")?;
    plain(alloc, 400, text.as_str())
}

/// A refusal in plain text.
pub(crate) fn refusal_body(alloc: Global, why: &Refusal) -> Result<Shown, Memory>
    ensures { IfOk result (λ shown. shown ≡ shown_refusal why.now) }
{
    match why {
        Refusal::Invalid { field } => invalid(alloc, field.as_str()),
        Refusal::NotFound { what } => plain(alloc, 404, what.as_str()),
        Refusal::Method { .. } => plain(alloc, 405, "Method not allowed"),
        Refusal::TooLarge => plain(alloc, 413, "Too large"),
        Refusal::NoLeader { .. } => plain(alloc, 500, "No cluster leader"),
        Refusal::NotReady { .. } => plain(alloc, 500, "Not ready"),
        Refusal::Lost { .. } => plain(alloc, 500, "Leadership lost"),
        Refusal::TooMany { .. } => plain(alloc, 503, "Too many waiting"),
        Refusal::LogFull { .. } => plain(alloc, 503, "Log full"),
        Refusal::Unsupported => plain(alloc, 501, "Not implemented"),
        Refusal::Memory => plain(alloc, 503, "Out of memory"),
        Refusal::Halted { .. } => plain(alloc, 500, "Server halted"),
        Refusal::HeadTooLarge => plain(alloc, 431, "Head too large"),
        Refusal::NoWorker => plain(alloc, 503, "No worker"),
    }
}
