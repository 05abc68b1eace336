//! Streams that are refused, and why.

use cat_model::Memory;
use http_wire::{Rejection, decode};
use std::alloc::Global;
use std::test::Fail;

fn rejection(alloc: Global, stream: Vec<u8>) -> Result<Option<Rejection>, Memory> {
    let decoded = decode(alloc, [stream].as_slice())?;
    Ok(decoded.refused)
}

// Why a request with these headers is refused.
fn rejection_of(alloc: Global, headers: &str) -> Result<Option<Rejection>, Memory> {
    let head = format!(in alloc; "PUT / HTTP/1.1\r\n{headers}\r\n")?;
    rejection(alloc, head.into_bytes())
}

#[test]
fn wrong_headers_are_refused(rt: HostRuntime) -> Result<(), Fail> {
    for (headers, want) in [
        (
            "Host: x\r\nTransfer-Encoding: chunked\r\n",
            Some(Rejection::Unsupported),
        ),
        (
            "Host: x\r\nContent-Length: 5\r\nContent-Length: 6\r\n",
            Some(Rejection::ContentLength),
        ),
        (
            "Host: x\r\nContent-Length: 5\r\nContent-Length: 05\r\n",
            None,
        ),
        ("", Some(Rejection::Host)),
        ("Host: x\r\nHost: x\r\n", Some(Rejection::Host)),
        (
            "Host: x\r\nContent-Length: 1048577\r\n",
            Some(Rejection::TooLarge),
        ),
        ("Host: x\r\nContent-Length: 1048576\r\n", None),
        (
            "Host: x\r\nContent-Length: 000000000000000000001\r\n",
            Some(Rejection::ContentLength),
        ),
    ] {
        assert_eq!(rt; rejection_of(rt.alloc(), headers)?, want, "{headers}");
    }
    Ok(())
}

// A head with so many headers, each a Host, and what stands behind them.
fn hosts(alloc: Global, count: usize, behind: &str) -> Result<Vec<u8>, Memory> {
    let mut stream = Vec::from_slice(alloc, b"GET / HTTP/1.1\r\n")?;
    for _ in 0..count {
        stream.extend_from_slice(b"Host: x\r\n")?;
    }
    stream.extend_from_slice(behind.as_bytes())?;
    Ok(stream)
}

#[test]
fn many_headers_are_refused_before_two_hosts(rt: HostRuntime) -> Result<(), Fail> {
    let alloc = rt.alloc();
    for (count, behind, want) in [
        (64, "\r\n", Some(Rejection::Host)),
        (65, "\r\n", Some(Rejection::HeadTooLarge)),
        (1800, "\r\n", Some(Rejection::HeadTooLarge)),
        (65, "", None),
        (1800, "", None),
        (1800, "\0", Some(Rejection::Head)),
    ] {
        let stream = hosts(alloc, count, behind)?;
        assert_eq!(rt; rejection(alloc, stream)?, want, "{count} headers");
    }
    Ok(())
}

// A header without an end, in so many bytes.
fn endless(alloc: Global, size: usize) -> Result<Vec<u8>, Memory> {
    let mut stream = Vec::from_slice(alloc, b"GET / HTTP/1.1\r\nHost: x")?;
    for _ in stream.len()..size {
        stream.push(b'x')?;
    }
    Ok(stream)
}

#[test]
fn a_head_has_at_most_16384_bytes(rt: HostRuntime) -> Result<(), Fail> {
    let alloc = rt.alloc();
    assert_eq!(rt; rejection(alloc, endless(alloc, 16383)?)?, None);
    assert_eq!(rt;
        rejection(alloc, endless(alloc, 16384)?)?,
        Some(Rejection::HeadTooLarge)
    );
    Ok(())
}

#[test]
fn a_zero_byte_begins_no_head(rt: HostRuntime) -> Result<(), Fail> {
    let alloc = rt.alloc();
    let zero = Vec::from_slice(alloc, b"\0")?;
    assert_eq!(rt; rejection(alloc, zero)?, Some(Rejection::Head));
    Ok(())
}
