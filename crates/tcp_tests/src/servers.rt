//! A server over TCP and threads, and its clients, all at once.

use program_runs::{FOUND, NOT_FOUND, connect, free_port, hears, serve};
use std::alloc::Global;
use std::io::{Read, Write};
use std::net::{Net, Shutdown, TcpListener, TcpStream};
use std::process::Abort;
use std::sync::Wait;
use std::test::Fail;
use std::thread::Threads;
use std::{thread, time};

// How many clients put and get keys, and how many keys each.
const CLIENTS: u32 = 8;

const KEYS: u32 = 1000;

// How many connections all clients make.
const CONNECTIONS: u32 = 12;

// What goes on at once: the server, and its clients.
#[derive(Clone, Copy, Drop)]
enum Part {
    // Serves as many connections as the clients make.
    Serves,
    // Puts its own keys and gets each of them.
    PutsAndGets { number: u32 },
    // Sends a request byte by byte.
    SendsBytes,
    // Sends two requests in one piece.
    SendsTwo,
    // Ends in the midst of a body, which nobody finds later.
    EndsEarly,
}

// Puts a key with its name as its value.
fn put(alloc: Global, stream: &mut TcpStream, key: &str) -> Option<bool> {
    let len = key.len();
    let put = format!(in alloc;
        "PUT /v1/kv/{key} HTTP/1.1\r\nHost: here\r\nContent-Length: {len}\r\n\r\n{key}"
    ).ok()?;
    stream.write_all(put.as_str().as_bytes()).ok()?;
    hears(alloc, stream, 512, FOUND, b"\r\n\r\ntrue")
}

// Gets a key whose value is its name.
fn get(alloc: Global, stream: &mut TcpStream, key: &str) -> Option<bool> {
    let get = format!(in alloc; "GET /v1/kv/{key}?raw HTTP/1.1\r\nHost: here\r\n\r\n").ok()?;
    stream.write_all(get.as_str().as_bytes()).ok()?;
    let end = format!(in alloc; "\r\n\r\n{key}").ok()?;
    hears(alloc, stream, 512, FOUND, end.as_str().as_bytes())
}

fn put_and_get_all(alloc: Global, mut stream: TcpStream, number: u32) -> Option<bool> {
    stream.set_nodelay(true).ok()?;
    for key in 0..KEYS {
        let key = format!(in alloc; "{number}/{key}").ok()?;
        if !put(alloc, &mut stream, key.as_str())? || !get(alloc, &mut stream, key.as_str())? {
            return Some(false);
        }
    }
    Some(true)
}

fn send_bytes(alloc: Global, mut stream: TcpStream) -> Option<bool> {
    stream.set_nodelay(true).ok()?;
    for byte in b"PUT /v1/kv/bytes HTTP/1.1\r\nHost: here\r\nContent-Length: 5\r\n\r\nhello" {
        stream.write_all(&[*byte]).ok()?;
    }
    hears(alloc, &mut stream, 512, FOUND, b"\r\n\r\ntrue")
}

fn send_two(alloc: Global, mut stream: TcpStream) -> Option<bool> {
    stream
        .write_all(
            b"PUT /v1/kv/two HTTP/1.1\r\nHost: here\r\nContent-Length: 1\r\n\r\n2GET /v1/kv/two?raw HTTP/1.1\r\nHost: here\r\n\r\n",
        )
        .ok()?;
    Some(
        hears(alloc, &mut stream, 1, FOUND, b"\r\n\r\ntrue")?
            && hears(alloc, &mut stream, 1, FOUND, b"\r\n\r\n2")?,
    )
}

// Whether a request that ends in the midst of its body gets nothing.
fn end_early(mut stream: TcpStream) -> Option<bool> {
    stream
        .write_all(b"PUT /v1/kv/early HTTP/1.1\r\nHost: here\r\nContent-Length: 10\r\n\r\nhel")
        .ok()?;
    stream.shutdown(Shutdown::Write).ok()?;
    let mut room = [0u8; 1];
    Some(stream.read(&mut room).ok()? == 0)
}

fn find_nothing(alloc: Global, mut stream: TcpStream) -> Option<bool> {
    stream
        .write_all(b"GET /v1/kv/early?raw HTTP/1.1\r\nHost: here\r\n\r\n")
        .ok()?;
    hears(alloc, &mut stream, 512, NOT_FOUND, b"\r\n\r\n")
}

impl Part {
    // Whether all went as it should. It is none where a connection fails, or memory is not there.
    fn play<
        R: Threads
            + Wait
            + time::Clock
            + Net<Listener = TcpListener, Stream = TcpStream>
            + Copy
            + Send
            + Sync
            + Drop
            + 'static,
    >(self, rt: R, alloc: Global, port: u16) -> Option<bool> {
        match self {
            Part::Serves => serve(rt, alloc, port, CONNECTIONS),
            Part::PutsAndGets { number } => { put_and_get_all(alloc, connect(&rt, port)?, number) }
            Part::SendsBytes => send_bytes(alloc, connect(&rt, port)?),
            Part::SendsTwo => send_two(alloc, connect(&rt, port)?),
            Part::EndsEarly => Some(
                end_early(connect(&rt, port)?)? && find_nothing(alloc, connect(&rt, port)?)?,
            ),
        }
    }
}

#[test]
fn serves_clients_over_tcp(rt: HostRuntime) -> Result<(), Fail> {
    let alloc = rt.alloc();
    let Some(port) = free_port(&rt) else {
        assert!(rt; false, "there is a free port");
        return Ok(());
    };
    let mut parts = Vec::new(alloc);
    for part in [
        Part::Serves,
        Part::SendsBytes,
        Part::SendsTwo,
        Part::EndsEarly,
    ] {
        parts.push(part)?;
    }
    for number in 0..CLIENTS {
        parts.push(Part::PutsAndGets { number })?;
    }
    let went = thread::map_vec(&rt, parts, &|part: Part| part.play(rt, alloc, port))?;
    for (number, went) in went.iter().enumerate() {
        assert_eq!(rt; *went, Some(true), "part {number}");
    }
    Ok(())
}
