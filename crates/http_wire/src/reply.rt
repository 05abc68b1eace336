//! Replies as bytes.

ghost use Rattle.std.specs.Prelude.{◌≡◌, ◌++◌, OnErr, OnOk};
ghost use Rattle.http.specs.StatusCode.{IsStatusCode};
ghost use Rattle.http_wire.specs.Replies.{last_lines, head_bytes, reply_bytes, continue_bytes};

use crate::lines::{end_line, put_allow, put_close, put_consul, put_length, put_status, put_type};
use cat_model::{Bytes, Memory, Reply};
use std::alloc::Global;

// The last lines of the head, and the empty line that ends it.
#[tactic(auto, unfolding(crate::specs::Replies::last_lines))]
fn put_last(alloc: Global, out: &mut Vec<u8>, body: &Bytes, close: bool) -> Result<(), Memory>
    ensures { OnOk result (out.new.items ≡ out.old.items ++ last_lines body.now close) }
{
    put_close(out, close)?;
    put_length(alloc, out, body)?;
    end_line(out)
}

#[tactic(auto, unfolding(crate::specs::Replies::head_bytes))]
fn put_head(alloc: Global, out: &mut Vec<u8>, reply: &Reply, close: bool) -> Result<(), Memory>
    requires { IsStatusCode reply.now.status }
    ensures { OnOk result (out.new.items ≡ out.old.items ++ head_bytes reply.now close) }
{
    put_status(alloc, out, reply.status)?;
    put_type(out, &reply.body, reply.form)?;
    put_consul(alloc, out, reply)?;
    put_allow(out, &reply.kind)?;
    put_last(alloc, out, &reply.body, close)
}

fn put_reply(alloc: Global, out: &mut Vec<u8>, reply: &Reply, close: bool) -> Result<(), Memory>
    requires { IsStatusCode reply.now.status }
    ensures { OnOk result (out.new.items ≡ out.old.items ++ reply_bytes reply.now close) }
{
    put_head(alloc, out, reply, close)?;
    out.extend_from_slice(reply.body.as_slice())?;
    Ok(())
}

/// Puts the reply last (RFC 9112, sections 2 to 6). With `close` it says that the connection ends behind it
/// (section 9.6). After lack of memory `out` is as before.
pub fn write_reply(alloc: Global, reply: &Reply, close: bool, out: &mut Bytes) -> Result<(), Memory>
    requires { IsStatusCode reply.now.status }
    ensures ok { OnOk result (out.new ≡ out.old ++ reply_bytes reply.now close) }
    ensures err { OnErr result (out.new ≡ out.old) }
{
    let mut written = Vec::new(alloc);
    put_reply(alloc, &mut written, reply, close)?;
    out.extend(written.as_slice())
}

/// Puts the head of the reply last, with the length of the content that it would have (RFC 9110, section 9.3.2). After want
/// of memory `out` is as before.
pub fn write_head(alloc: Global, reply: &Reply, close: bool, out: &mut Bytes) -> Result<(), Memory>
    requires { IsStatusCode reply.now.status }
    ensures ok { OnOk result (out.new ≡ out.old ++ head_bytes reply.now close) }
    ensures err { OnErr result (out.new ≡ out.old) }
{
    let mut written = Vec::new(alloc);
    put_head(alloc, &mut written, reply, close)?;
    out.extend(written.as_slice())
}

/// Puts `100 Continue` last (RFC 9110, section 15.2.1). After lack of memory `out` is as before.
pub fn write_continue(out: &mut Bytes) -> Result<(), Memory>
    ensures ok { OnOk result (out.new ≡ out.old ++ continue_bytes) }
    ensures err { OnErr result (out.new ≡ out.old) }
{
    out.extend(b"HTTP/1.1 100 Continue\r\n\r\n")
}
