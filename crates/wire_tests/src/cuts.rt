//! Two requests, cut at every place.

use cat_model::Memory;
use http_wire::{Item, decode};
use std::alloc::Global;
use std::test::Fail;

const STREAM: &[u8] =
    b"PUT /v1/kv/a HTTP/1.1\r\nHost: x\r\nContent-Length: 5\r\nExpect: 100-continue\r\n\r\nhelloGET /v1/kv/a HTTP/1.1\r\nHost: x\r\n\r\n";

fn is_request(item: &Item, method: &str, body: &[u8]) -> bool {
    match item {
        Item::Continue => false,
        Item::Message(request) => {
            request.method.as_str() == method
                && request.target.as_str() == "/v1/kv/a"
                && request.body.as_slice() == body
                && !request.close
        }
    }
}

// Whether the two parts give the write, which asks for a Continue, and the read.
fn gives_both(alloc: Global, front: &[u8], back: &[u8]) -> Result<bool, Memory> {
    let front = Vec::from_slice(alloc, front)?;
    let back = Vec::from_slice(alloc, back)?;
    let decoded = decode(alloc, [front, back].as_slice())?;
    Ok(match decoded.items.as_slice() {
        [go_on, write, read] => {
            matches!(go_on, Item::Continue)
                && is_request(write, "PUT", b"hello")
                && is_request(read, "GET", b"")
                && decoded.refused.is_none()
        }
        _ => false,
    })
}

#[test]
fn two_requests_cut_at_every_place(rt: HostRuntime) -> Result<(), Fail> {
    for cut in 0..=STREAM.len() {
        let (front, back) = STREAM.split_at(cut);
        assert!(rt; gives_both(rt.alloc(), front, back)?, "cut at {cut}");
    }
    Ok(())
}
