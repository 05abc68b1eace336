ghost use Rattle.std.specs.Prelude.{◌≡◌, IfOk, option_map};
ghost use Rattle.std.specs.Option.{option_copied};
ghost use Rattle.filter_expr.specs.Expressions.{expression_of};
ghost use Rattle.cluster_requests.specs.Contents.{content_of};
ghost use Rattle.reply_body.specs.Contents.{shown_content};
ghost use Rattle.reply_body.specs.Filtered.{kept_content};

use crate::json::plain;
use crate::others::{agent_body, delay_body, ran_body, renewal_body};
use crate::reads::read_body;
use crate::refusals::refusal_body;
use crate::shown::Shown;
use crate::writes::write_body;
use cat_model::Memory;
use cluster_requests::Content;
use filter_expr::Filter;
use std::alloc::Global;

/// The status, body and form of what a reply shows, of whose list the filter leaves what it keeps.
pub fn body(alloc: Global, content: &Content, filter: Option<&Filter>) -> Result<Shown, Memory>
    ensures { IfOk result (λ shown. shown ≡ shown_content (kept_content (option_map expression_of (option_copied filter.entry)) (content_of content.now))) }
{
    match content {
        Content::Shows { query, raw, answer } => read_body(alloc, query, *raw, answer, filter),
        Content::Tells { command, applied } => write_body(alloc, command, applied),
        Content::Runs(ran) => ran_body(alloc, ran),
        Content::Renews(row) => renewal_body(alloc, row),
        Content::Holds(body) => agent_body(alloc, body),
        Content::Defers { command, key } => delay_body(alloc, command, key),
        Content::Says(why) => refusal_body(alloc, why),
        Content::Blank => plain(alloc, 500, ""),
    }
}
