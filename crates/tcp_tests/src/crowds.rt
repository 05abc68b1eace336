//! Many clients over TCP: at once, one after another, and such as go away while they wait.

use program_runs::{NOT_FOUND, ask, connect, free_port, hears, serve, serve_words};
use std::alloc::{Alloc, Global};
use std::fs::Files;
use std::net::{Net, TcpListener, TcpStream};
use std::process::Abort;
use std::test::Fail;
use std::{fs, thread, time};

// How many clients are there at once.
const AT_ONCE: u32 = 500;

// How many clients come one after another.
const IN_TURN: u32 = 2_000;

// How many clients go away.
const LEAVING: u32 = 300;

// By how many MiB the memory that a process has mapped may grow. The stacks of the threads of `IN_TURN` connections
// would be 16,000.
const MOST_MIB: u64 = 4_000;

// Asks for a key that is not there.
fn ask_one(alloc: Global, stream: &mut TcpStream) -> Option<()> {
    ask(alloc, stream, "GET /v1/kv/none", "")
}

// Whether it is told so.
fn hears_none(alloc: Global, stream: &mut TcpStream) -> Option<bool> {
    hears(alloc, stream, 512, NOT_FOUND, b"\r\n\r\n")
}

// Whether each of many clients that ask before one of them listens is answered.
fn ask_at_once<R: time::Clock + Net<Listener = TcpListener, Stream = TcpStream>>(
    rt: &R,
    alloc: Global,
    port: u16,
) -> Option<bool> {
    let mut streams = Vec::new(alloc);
    for _ in 0..AT_ONCE {
        let mut stream = connect(rt, port)?;
        ask_one(alloc, &mut stream)?;
        streams.push(stream).ok()?;
    }
    let mut all = true;
    for stream in streams.iter_mut() {
        all = hears_none(alloc, stream)? && all;
    }
    drop(streams);
    Some(all)
}

#[test]
fn many_clients_at_once(rt: HostRuntime) -> Result<(), Fail> {
    let alloc = rt.alloc();
    let Some(port) = free_port(&rt) else {
        assert!(rt; false, "there is a free port");
        return Ok(());
    };
    let (served, asked) = thread::join(
        &rt,
        || serve(rt, alloc, port, AT_ONCE),
        || ask_at_once(&rt, alloc, port),
    );
    assert!(rt; served == Some(true) && asked == Some(true));
    Ok(())
}

// How many MiB the process has mapped.
fn mapped<R: Files + Alloc>(rt: &R) -> Option<u64> {
    let text = fs::read_to_string(rt, "/proc/self/statm").ok()?;
    let pages: u64 = text.as_str().split(' ').next()?.parse().ok()?;
    Some(pages / 256)
}

// By how many MiB more is mapped when many clients came and went, or none where one of them is not answered.
fn grown<R: Files + Alloc + time::Clock + Net<Listener = TcpListener, Stream = TcpStream>>(
    rt: &R,
    alloc: Global,
    port: u16,
) -> Option<u64> {
    let before = mapped(rt)?;
    for _ in 0..IN_TURN {
        let mut stream = connect(rt, port)?;
        ask_one(alloc, &mut stream)?;
        if !hears_none(alloc, &mut stream)? {
            return None;
        }
    }
    Some(mapped(rt)?.saturating_sub(before))
}

#[test]
fn clients_in_turn_leave_no_stacks(rt: HostRuntime) -> Result<(), Fail> {
    let alloc = rt.alloc();
    let Some(port) = free_port(&rt) else {
        assert!(rt; false, "there is a free port");
        return Ok(());
    };
    let (served, grown) = thread::join(
        &rt,
        || serve(rt, alloc, port, IN_TURN),
        || grown(&rt, alloc, port),
    );
    let Some(grown) = grown else {
        assert!(rt; false, "each client is answered");
        return Ok(());
    };
    assert!(rt;
        served == Some(true) && grown < MOST_MIB,
        "{grown} MiB more"
    );
    Ok(())
}

// Whether a client is answered beside many that went away while they waited.
fn leave<R: time::Clock + Net<Listener = TcpListener, Stream = TcpStream>>(
    rt: &R,
    alloc: Global,
    port: u16,
) -> Option<bool> {
    for _ in 0..LEAVING {
        let mut stream = connect(rt, port)?;
        ask(alloc, &mut stream, "GET /v1/kv/none?index=1&wait=10m", "")?;
    }
    let mut stream = connect(rt, port)?;
    ask_one(alloc, &mut stream)?;
    hears_none(alloc, &mut stream)
}

// The server ends with its last connection, long before the ten minutes of the reads that nobody waits for any more.
#[test]
fn clients_that_go_are_not_served_on(rt: HostRuntime) -> Result<(), Fail> {
    let alloc = rt.alloc();
    let Some(port) = free_port(&rt) else {
        assert!(rt; false, "there is a free port");
        return Ok(());
    };
    let connections = LEAVING + 1;
    let text = format!(in alloc;
        "serve --servers 1 --agents 1 --port {port} --connections {connections}"
    )?;
    let (served, asked) = thread::join(
        &rt,
        || serve_words(rt, alloc, text.as_str(), " open 300 "),
        || leave(&rt, alloc, port),
    );
    assert!(rt; served == Some(true) && asked == Some(true));
    Ok(())
}
