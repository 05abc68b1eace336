//! The clocks of agents of a server over TCP and threads.

use program_runs::{FOUND, connect, free_port, hear, hears, serve};
use std::alloc::Global;
use std::io::Write;
use std::net::{Net, TcpListener, TcpStream};
use std::process::Abort;
use std::sync::Wait;
use std::test::Fail;
use std::thread::Threads;
use std::time::Duration;
use std::{str, thread, time};

// What goes on at once: the server, and its client.
#[derive(Clone, Copy, Drop)]
enum Part {
    // Serves one connection.
    Serves,
    // Registers a check that has to be told within a second that all is well, and tells it nothing.
    WatchesCheck,
}

// The most looks at the checks, and the milliseconds between two.
const MOST_LOOKS: u32 = 500;

const PAUSE_MS: u64 = 20;

// Whether the time of a check of the agent was over when it was looked at.
fn has_expired(alloc: Global, stream: &mut TcpStream) -> Option<bool> {
    stream
        .write_all(b"GET /v1/agent/checks HTTP/1.1\r\nHost: here\r\n\r\n")
        .ok()?;
    let reply = hear(alloc, stream, 512, b"}}")?;
    Some(
        str::from_utf8(reply.as_slice())
            .ok()?
            .contains("\"Output\":\"TTL expired\""),
    )
}

// Whether the check's time is not over at first, and over later.
fn watch_check<R: time::Clock>(rt: &R, alloc: Global, mut stream: TcpStream) -> Option<bool> {
    stream
        .write_all(
            b"PUT /v1/agent/check/register HTTP/1.1\r\nHost: here\r\nContent-Length: 46\r\n\r\n{\"Name\":\"alive\",\"TTL\":\"1s\",\"Status\":\"passing\"}",
        )
        .ok()?;
    if !hears(alloc, &mut stream, 512, FOUND, b"\r\n\r\n")? || has_expired(alloc, &mut stream)? {
        return Some(false);
    }
    for _ in 0..MOST_LOOKS {
        thread::sleep(rt, Duration::from_millis(PAUSE_MS));
        if has_expired(alloc, &mut stream)? {
            return Some(true);
        }
    }
    Some(false)
}

impl Part {
    // Whether all went as it should. It is none where the connection fails, or memory is not there.
    fn play<
        R: Threads
            + Wait
            + time::Clock
            + Net<Listener = TcpListener, Stream = TcpStream>
            + Copy
            + Send
            + Sync
            + Drop
            + 'static,
    >(self, rt: R, alloc: Global, port: u16) -> Option<bool> {
        match self {
            Part::Serves => serve(rt, alloc, port, 1),
            Part::WatchesCheck => watch_check(&rt, alloc, connect(&rt, port)?),
        }
    }
}

#[test]
fn checks_expire_over_tcp(rt: HostRuntime) -> Result<(), Fail> {
    let alloc = rt.alloc();
    let Some(port) = free_port(&rt) else {
        assert!(rt; false, "there is a free port");
        return Ok(());
    };
    let mut parts = Vec::new(alloc);
    parts.push(Part::Serves)?;
    parts.push(Part::WatchesCheck)?;
    let went = thread::map_vec(&rt, parts, &|part: Part| part.play(rt, alloc, port))?;
    for (number, went) in went.iter().enumerate() {
        assert_eq!(rt; *went, Some(true), "part {number}");
    }
    Ok(())
}
