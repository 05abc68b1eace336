//! Replies in bytes.

ghost use Rattle.std.specs.Prelude.{◌≡◌, ◌≤◌, ◌<◌, IfOk};

use cat_model::{Bytes, Form, Kind, List, Memory, Mode, Refusal, Reply, Text, Texts};
use http_wire::{Rejection, write_continue, write_reply};
use std::alloc::Global;
use std::test::Fail;

// What is written of a reply behind a Continue.
fn written(alloc: Global, reply: &Reply, close: bool) -> Result<Vec<u8>, Memory>
    requires least { 100 ≤ reply.now.status }
    requires most { reply.now.status < 1000 }
{
    let mut out = Bytes::new(alloc, b"")?;
    write_continue(&mut out)?;
    write_reply(alloc, reply, close, &mut out)?;
    Ok(out.into_vec())
}

fn read_reply(alloc: Global) -> Result<Reply, Memory>
    ensures { IfOk result (λ reply. reply.status ≡ 200) }
{
    Ok(Reply {
        number: 1,
        status: 200,
        index: Some(2),
        body: Bytes::new(alloc, b"[]")?,
        form: Form::Json,
        known_leader: true,
        last_contact: 0,
        kind: Kind::At {
            mode: Mode::Default,
            prefix: 2,
            index: 2,
            clock: 0,
            deadline: 0,
        },
    })
}

#[test]
fn a_read_tells_its_index(rt: HostRuntime) -> Result<(), Fail> {
    let alloc = rt.alloc();
    let bytes = written(alloc, &read_reply(alloc)?, false)?;
    let want =
        b"HTTP/1.1 100 Continue\r\n\r\nHTTP/1.1 200 OK\r\nContent-Type: application/json\r\nX-Consul-Index: 2\r\nX-Consul-KnownLeader: true\r\nX-Consul-LastContact: 0\r\nContent-Length: 2\r\n\r\n[]";
    assert!(rt; bytes.as_slice() == want.as_slice());
    Ok(())
}

fn methods(alloc: Global) -> Result<Texts, Memory> {
    let mut methods = List::new(alloc);
    methods.push(Text::new(alloc, "GET")?)?;
    methods.push(Text::new(alloc, "PUT")?)?;
    Ok(methods)
}

fn refused_reply(alloc: Global) -> Result<Reply, Memory>
    ensures { IfOk result (λ reply. reply.status ≡ 405) }
{
    Ok(Reply {
        number: 2,
        status: 405,
        index: None,
        body: Bytes::new(alloc, b"Method not allowed")?,
        form: Form::Plain,
        known_leader: false,
        last_contact: 0,
        kind: Kind::Refused(Refusal::Method {
            allow: methods(alloc)?,
        }),
    })
}

#[test]
fn a_refused_method_names_the_others(rt: HostRuntime) -> Result<(), Fail> {
    let alloc = rt.alloc();
    let bytes = written(alloc, &refused_reply(alloc)?, true)?;
    let want =
        b"HTTP/1.1 100 Continue\r\n\r\nHTTP/1.1 405 Method Not Allowed\r\nContent-Type: text/plain; charset=utf-8\r\nAllow: GET, PUT\r\nConnection: close\r\nContent-Length: 18\r\n\r\nMethod not allowed";
    assert!(rt; bytes.as_slice() == want.as_slice());
    Ok(())
}

#[test]
fn a_rejection_is_answered_by_its_field(rt: HostRuntime) -> Result<(), Fail> {
    let refusal = Rejection::ContentLength.refusal(rt.alloc())?;
    match refusal {
        Refusal::Invalid { field } => assert_eq!(rt; field.as_str(), "Content-Length"),
        _ => assert!(rt; false),
    }
    Ok(())
}
