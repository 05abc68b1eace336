//! Replies as bytes, and refusals that are made without the cluster.

ghost use Rattle.std.specs.Prelude.{◌≡◌, IfOk, option_map};
ghost use Rattle.std.specs.Option.{option_copied};
ghost use Rattle.filter_expr.specs.Expressions.{expression_of};
ghost use Rattle.http_routes.specs.Filters.{filter_at};
ghost use Rattle.http_wire.specs.Reader.{raw};
ghost use Rattle.reply_body.specs.Filtered.{shown};
ghost use Rattle.http_exchanges.specs.Replies as spec;
ghost use Rattle.http_exchanges.specs.Serving.{answer_bytes as answer_to};

use cat_model::{Bytes, Kind, Memory, Refusal};
use cluster_requests::{Content, Reply};
use filter_expr::Filter;
use http_wire::{RawRequest, write_head, write_reply};
use reply_body::{written, written_through};
use std::alloc::Global;

/// The reply to a request, with the filter of the request's target.
#[derive(Drop)]
pub(crate) struct Response {
    pub reply: Reply,
    pub filter: Option<Filter>,
}

/// The reply with this refusal, to what is no request of the cluster's.
pub(crate) fn refusing(why: Refusal) -> Result<Reply, Memory>
    ensures { IfOk result (λ reply. reply ≡ spec.refusing why) }
{
    let kind = Kind::Refused(why.clone()?);
    Ok(Reply::new(0, kind, false, 0, Content::Says(why)))
}

/// The bytes of a reply, which says that the connection ends behind it where `close` says so.
pub(crate) fn text_of(alloc: Global, reply: &Reply, close: bool) -> Result<Bytes, Memory>
    ensures { IfOk result (λ text. text ≡ spec.text_of reply.now close) }
{
    let reply = written(alloc, reply)?;
    let mut text = Bytes::new(alloc, b"")?;
    write_reply(alloc, &reply, close, &mut text)?;
    Ok(text)
}

// The bytes of a reply through a filter.
fn text_through(alloc: Global, response: &Response, close: bool) -> Result<Bytes, Memory>
    ensures { IfOk result (λ text. text ≡ spec.text_of (shown (option_map expression_of response.now.filter) response.now.reply) close) }
{
    let reply = written_through(alloc, &response.reply, response.filter.as_ref())?;
    let mut text = Bytes::new(alloc, b"")?;
    write_reply(alloc, &reply, close, &mut text)?;
    Ok(text)
}

// The same without its content.
fn head_through(alloc: Global, response: &Response, close: bool) -> Result<Bytes, Memory>
    ensures { IfOk result (λ text. text ≡ spec.head_of (shown (option_map expression_of response.now.filter) response.now.reply) close) }
{
    let reply = written_through(alloc, &response.reply, response.filter.as_ref())?;
    let mut text = Bytes::new(alloc, b"")?;
    write_head(alloc, &reply, close, &mut text)?;
    Ok(text)
}

/// The bytes of a reply to this request: without its content where the request is a HEAD.
pub(crate) fn answer_bytes(
    alloc: Global,
    message: &RawRequest,
    response: &Response,
) -> Result<Bytes, Memory>
    requires { option_map expression_of response.now.filter ≡ filter_at (raw message.now).target }
    ensures { IfOk result (λ text. text ≡ answer_to (raw message.now) response.now.reply) }
{
    if message.method.as_str() == "HEAD" {
        head_through(alloc, response, message.close)
    } else {
        text_through(alloc, response, message.close)
    }
}
