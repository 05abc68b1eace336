//! Requests that wait, over TCP and threads: one that the write of another connection answers, and one that the end of a
//! session answers while nobody asks.

use program_runs::{FOUND, NOT_FOUND, ask, between, connect, free_port, hear, hears, serve};
use std::alloc::Global;
use std::net::{Net, TcpListener, TcpStream};
use std::process::Abort;
use std::sync::Wait;
use std::test::Fail;
use std::thread::Threads;
use std::time::Duration;
use std::{str, thread, time};

// How long the writer lets the waiter wait.
const PAUSE_MS: u64 = 500;

// The most milliseconds from a write to the answer of whoever waits for it. The wait is ten minutes.
const MOST_MS: u64 = 1_000;

// What goes on at once: the server, one that waits for a key, and one that writes it.
#[derive(Clone, Copy, Drop)]
enum Part {
    Serves,
    Waits,
    Writes,
}

// The machine's time in milliseconds.
fn now_ms(rt: &impl time::Clock) -> Option<u64> {
    u64::try_from(rt.monotonic().ok()?.as_millis()).ok()
}

// Waits for a key that is not there, and tells when the reply came.
fn wait_for_key(rt: &impl time::Clock, alloc: Global, mut stream: TcpStream) -> Option<u64> {
    ask(
        alloc,
        &mut stream,
        "GET /v1/kv/awaited?raw&index=1&wait=10m",
        "",
    )?;
    if hears(alloc, &mut stream, 512, FOUND, b"\r\n\r\nhere")? {
        now_ms(rt)
    } else {
        None
    }
}

// Writes the key after a while, and tells when that was.
fn write_key(rt: &impl time::Clock, alloc: Global, mut stream: TcpStream) -> Option<u64> {
    thread::sleep(rt, Duration::from_millis(PAUSE_MS));
    let before = now_ms(rt)?;
    ask(alloc, &mut stream, "PUT /v1/kv/awaited", "here")?;
    if hears(alloc, &mut stream, 512, FOUND, b"\r\n\r\ntrue")? {
        Some(before)
    } else {
        None
    }
}

impl Part {
    // When it ended. It is none where a connection fails, or a reply is another than it should be.
    fn play<
        R: Threads
            + Wait
            + time::Clock
            + Net<Listener = TcpListener, Stream = TcpStream>
            + Copy
            + Send
            + Sync
            + Drop
            + 'static,
    >(self, rt: R, alloc: Global, port: u16) -> Option<u64> {
        match self {
            Part::Serves => if serve(rt, alloc, port, 2)? {
                now_ms(&rt)
            } else {
                None
            },
            Part::Waits => wait_for_key(&rt, alloc, connect(&rt, port)?),
            Part::Writes => write_key(&rt, alloc, connect(&rt, port)?),
        }
    }
}

#[test]
fn a_write_wakes_who_waits(rt: HostRuntime) -> Result<(), Fail> {
    let alloc = rt.alloc();
    let Some(port) = free_port(&rt) else {
        assert!(rt; false, "there is a free port");
        return Ok(());
    };
    let mut parts = Vec::new(alloc);
    for part in [Part::Serves, Part::Waits, Part::Writes] {
        parts.push(part)?;
    }
    let ended = thread::map_vec(&rt, parts, &|part: Part| part.play(rt, alloc, port))?;
    let [Some(_), Some(answered), Some(written)] = *ended.as_slice() else {
        assert!(rt; false, "each part ends as it should");
        return Ok(());
    };
    let passed = answered.saturating_sub(written);
    assert!(rt; passed < MOST_MS, "the answer came after {passed} ms");
    Ok(())
}

// A session of ten seconds that nobody renews, with whose end its keys go.
fn session(alloc: Global, stream: &mut TcpStream) -> Option<String> {
    let node = "{\"Node\":\"n\",\"Address\":\"127.0.0.1\"}";
    ask(alloc, stream, "PUT /v1/catalog/register", node)?;
    if !hears(alloc, stream, 512, FOUND, b"\r\n\r\ntrue")? {
        return None;
    }
    let short = "{\"Node\":\"n\",\"TTL\":\"10s\",\"Checks\":[],\"Behavior\":\"delete\"}";
    ask(alloc, stream, "PUT /v1/session/create", short)?;
    let reply = hear(alloc, stream, 512, b"}")?;
    let id = between(str::from_utf8(reply.as_slice()).ok()?, "\"ID\":\"", "\"")?;
    id.to_string(alloc).ok()
}

// The index of a key that is there.
fn index_of(alloc: Global, stream: &mut TcpStream) -> Option<String> {
    ask(alloc, stream, "GET /v1/kv/held?raw", "")?;
    let reply = hear(alloc, stream, 512, b"\r\n\r\nmine")?;
    let index = between(
        str::from_utf8(reply.as_slice()).ok()?,
        "X-Consul-Index: ",
        "\r\n",
    )?;
    index.to_string(alloc).ok()
}

// Whether a key is gone with the session that holds it, for which a read waits while nobody else asks.
fn see_session_end(alloc: Global, mut stream: TcpStream) -> Option<bool> {
    let id = session(alloc, &mut stream)?;
    let line = format!(in alloc; "PUT /v1/kv/held?acquire={id}").ok()?;
    ask(alloc, &mut stream, line.as_str(), "mine")?;
    if !hears(alloc, &mut stream, 512, FOUND, b"\r\n\r\ntrue")? {
        return Some(false);
    }
    let index = index_of(alloc, &mut stream)?;
    let line = format!(in alloc; "GET /v1/kv/held?raw&index={index}&wait=10m").ok()?;
    ask(alloc, &mut stream, line.as_str(), "")?;
    hears(alloc, &mut stream, 512, NOT_FOUND, b"\r\n\r\n")
}

#[test]
fn a_session_ends_while_nobody_asks(rt: HostRuntime) -> Result<(), Fail> {
    let alloc = rt.alloc();
    let Some(port) = free_port(&rt) else {
        assert!(rt; false, "there is a free port");
        return Ok(());
    };
    let (served, seen) = thread::join(
        &rt,
        || serve(rt, alloc, port, 1),
        || see_session_end(alloc, connect(&rt, port)?),
    );
    assert!(rt; served == Some(true) && seen == Some(true));
    Ok(())
}
