//! Servers over TCP and threads, and clients of theirs.

use cat_model::{Bytes, List};
use catalog_top::{Machine, run};
use datagram_outside::MemPorts;
use outside::{MemSink, MemSource};
use serve_outside::{Bells, MachineClock, SeededWords, SureKeepers, TcpLinks, ThreadSpawner};
use std::alloc::Global;
use std::io::{Read, Write};
use std::net::{Ipv4Addr, Net, SocketAddr, TcpListener, TcpStream};
use std::sync::Wait;
use std::thread::Threads;
use std::time::Duration;
use std::{str, thread, time};

// The address of a port of 127.0.0.1.
fn local(port: u16) -> SocketAddr {
    SocketAddr::from((Ipv4Addr::LOCALHOST, port))
}

/// A connection to the server, which is waited for ten seconds.
pub fn connect<R: time::Clock + Net<Listener = TcpListener, Stream = TcpStream>>(
    rt: &R,
    port: u16,
) -> Option<TcpStream> {
    for _ in 0..1000 {
        if let Ok(stream) = TcpStream::connect(rt, local(port)) {
            return Some(stream);
        }
        thread::sleep(rt, Duration::from_millis(10));
    }
    None
}

// The most pieces in which a reply comes, were each a byte.
const MOST_PIECES: u32 = 512;

/// The reply that comes, up to this end or to the end of the connection. At most so many bytes are read at once, so that
/// one byte reads nothing of the next reply.
pub fn hear(alloc: Global, stream: &mut TcpStream, most: usize, end: &[u8]) -> Option<Vec<u8>> {
    let mut got: Vec<u8> = Vec::new(alloc);
    let mut room = [0u8; 512];
    for _ in 0..MOST_PIECES {
        if got.as_slice().ends_with(end) {
            return Some(got);
        }
        let count = stream.read(&mut room[..most.min(512)]).ok()?;
        if count == 0 {
            return Some(got);
        }
        got.extend_from_slice(&room[..count]).ok()?;
    }
    Some(got)
}

/// Whether a reply comes with this front and this end.
pub fn hears(
    alloc: Global,
    stream: &mut TcpStream,
    most: usize,
    front: &[u8],
    end: &[u8],
) -> Option<bool> {
    let got = hear(alloc, stream, most, end)?;
    Some(got.as_slice().starts_with(front) && got.as_slice().ends_with(end))
}

/// What stands in a text between these marks.
pub fn between<'a>(text: &'a str, before: &str, behind: &str) -> Option<&'a str> {
    text.split(before).nth(1)?.split(behind).next()
}

/// How a reply with status 200 begins.
pub const FOUND: &[u8] = b"HTTP/1.1 200 OK\r\n";

/// How a reply with status 404 begins.
pub const NOT_FOUND: &[u8] = b"HTTP/1.1 404 Not Found\r\n";

/// Sends a request with this body.
pub fn ask(alloc: Global, stream: &mut TcpStream, line: &str, body: &str) -> Option<()> {
    let len = body.len();
    let text = format!(in alloc;
        "{line} HTTP/1.1\r\nHost: here\r\nContent-Length: {len}\r\n\r\n{body}"
    ).ok()?;
    stream.write_all(text.as_str().as_bytes()).ok()
}

/// Whether a server of three servers and two agents serves so many connections to their end, and no request is left.
pub fn serve<
    R: Threads
        + Wait
        + time::Clock
        + Net<Listener = TcpListener, Stream = TcpStream>
        + Copy
        + Send
        + Sync
        + Drop
        + 'static,
>(rt: R, alloc: Global, port: u16, connections: u32) -> Option<bool> {
    let text = format!(in alloc;
        "serve --servers 3 --agents 2 --port {port} --connections {connections}"
    ).ok()?;
    serve_words(rt, alloc, text.as_str(), " open 0\n")
}

// Whether the text has this part.
fn has(text: &[u8], part: &str) -> bool {
    match str::from_utf8(text) {
        Ok(text) => text.contains(part),
        Err(_) => false,
    }
}

/// Whether a server of these words, which end with how many connections it serves, serves them to their end, and its text
/// has this part.
pub fn serve_words<
    R: Threads
        + Wait
        + time::Clock
        + Net<Listener = TcpListener, Stream = TcpStream>
        + Copy
        + Send
        + Sync
        + Drop
        + 'static,
>(rt: R, alloc: Global, text: &str, part: &str) -> Option<bool> {
    let words: Vec<&str> = text.split(' ').collect(alloc).ok()?;
    let mut source = MemSource::new(Bytes::new(alloc, b"").ok()?, List::new(alloc));
    let mut sink = MemSink::new(alloc, List::new(alloc));
    let machine = Machine {
        rt,
        alloc,
        clock: MachineClock::new(rt),
        gate: Bells::new(rt, alloc).ok()?,
    };
    let mut ports = MemPorts::new(alloc, Vec::new(alloc), List::new(alloc)).ok()?;
    let outcome = run(
        machine,
        &words,
        &mut source,
        &mut sink,
        &mut TcpLinks::new(rt),
        &mut SeededWords::new(&rt),
        &mut ThreadSpawner::new(),
        &mut SureKeepers::new(),
        &mut ports,
    );
    let is_well = outcome.is_ok();
    drop(outcome);
    Some(is_well && has(sink.bytes(), part))
}

/// A port on which nothing listens.
pub fn free_port<R: Net<Listener = TcpListener, Stream = TcpStream>>(rt: &R) -> Option<u16> {
    let listener = rt.bind(local(0)).ok()?;
    Some(listener.local_addr().ok()?.port())
}
