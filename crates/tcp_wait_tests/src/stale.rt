//! Stale reads over TCP and threads: on each connection they never go back, and show what it wrote itself.

use program_runs::{FOUND, ask, between, connect, free_port, hears, serve};
use std::alloc::Global;
use std::io::Read;
use std::net::{Net, TcpListener, TcpStream};
use std::test::Fail;
use std::thread::Threads;
use std::{str, thread, time};

// The values that are written to the key, one after another.
const WRITES: u32 = 400;

// The most pieces in which a reply comes.
const MOST_PIECES: u32 = 512;

// The most reads until the last value is seen.
const MOST_READS: u32 = 1_000_000;

// The body of a reply, if all of it is there.
fn whole_body(text: &str) -> Option<&str> {
    let length: usize = between(text, "Content-Length: ", "\r\n")?.parse().ok()?;
    let body = text.split("\r\n\r\n").nth(1)?;
    if body.len() == length {
        Some(body)
    } else {
        None
    }
}

// The number that a stale read of the key shows, or 0 where the key is not there.
fn read_stale(alloc: Global, stream: &mut TcpStream) -> Option<u32> {
    ask(alloc, stream, "GET /v1/kv/n?raw&stale", "")?;
    let mut got: Vec<u8> = Vec::new(alloc);
    let mut room = [0u8; 512];
    for _ in 0..MOST_PIECES {
        let count = stream.read(&mut room).ok()?;
        if count == 0 {
            return None;
        }
        got.extend_from_slice(&room[..count]).ok()?;
        if let Some(body) = whole_body(str::from_utf8(got.as_slice()).ok()?) {
            return if body.is_empty() {
                Some(0)
            } else {
                body.parse().ok()
            };
        }
    }
    None
}

// Whether each write of the key shows in a stale read behind it.
fn write_and_read(alloc: Global, mut stream: TcpStream) -> Option<bool> {
    for value in 1..=WRITES {
        let text = format!(in alloc; "{value}").ok()?;
        ask(alloc, &mut stream, "PUT /v1/kv/n", text.as_str())?;
        if !hears(alloc, &mut stream, 512, FOUND, b"\r\n\r\ntrue")?
            || read_stale(alloc, &mut stream)? != value
        {
            return Some(false);
        }
    }
    Some(true)
}

// Whether what another connection writes never goes back, up to the last value.
fn read_on(alloc: Global, mut stream: TcpStream) -> Option<bool> {
    let mut last = 0;
    for _ in 0..MOST_READS {
        let value = read_stale(alloc, &mut stream)?;
        if value < last {
            return Some(false);
        }
        last = value;
        if last == WRITES {
            return Some(true);
        }
    }
    Some(false)
}

// What a writer and two readers of its key find.
fn share<R: Threads + time::Clock + Net<Listener = TcpListener, Stream = TcpStream> + Copy + Sync>(
    rt: R,
    alloc: Global,
    port: u16,
) -> Option<bool> {
    let writer = connect(&rt, port)?;
    let readers = [connect(&rt, port)?, connect(&rt, port)?];
    let [one, other] = readers;
    let (wrote, (read, also)) = thread::join(
        &rt,
        || write_and_read(alloc, writer),
        || thread::join(&rt, || read_on(alloc, one), || read_on(alloc, other)),
    );
    Some(wrote? && read? && also?)
}

#[test]
fn a_stale_read_never_goes_back(rt: HostRuntime) -> Result<(), Fail> {
    let alloc = rt.alloc();
    let Some(port) = free_port(&rt) else {
        assert!(rt; false, "there is a free port");
        return Ok(());
    };
    let (served, found) = thread::join(
        &rt,
        || serve(rt, alloc, port, 3),
        || share(rt, alloc, port),
    );
    assert!(rt; served == Some(true) && found == Some(true));
    Ok(())
}
