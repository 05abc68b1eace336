//! A server that answers questions of names: over what an earlier one left in a folder, by packets in memory.

use crate::served::{over, served};
use cat_model::{Bytes, List};
use datagram_outside::{MemPort, MemPorts, Packet, PortScript};
use host_keeper::HostFiles;
use std::alloc::Global;
use std::fs;
use std::process::Abort;
use std::test::Fail;

const FOLDER: &str = "restart_tests_names";

const SERVE: &str =
    "serve --servers 1 --agents 1 --port 8500 --connections 1 --keep restart_tests_names";

const ANSWER: &str =
    "serve --servers 1 --agents 1 --port 8500 --connections 1 --keep restart_tests_names --dns 8600 --packets 2";

// Service web of node n1, at 10.0.0.1.
const REGISTER: &[u8] =
    b"PUT /v1/catalog/register HTTP/1.1\r\nHost: x\r\nContent-Length: 62\r\n\r\n{\"Node\":\"n1\",\"Address\":\"10.0.0.1\",\"Service\":{\"Service\":\"web\"}}";

// The addresses of web.service.consul: ID 1234, RD, one question of type A and class IN.
const WEB: &[u8] =
    b"\x12\x34\x01\x00\x00\x01\x00\x00\x00\x00\x00\x00\x03web\x07service\x06consul\x00\x00\x01\x00\x01";

// QR, AA and RD; the question again, and one record: the name at byte 12, type A, class IN, TTL 0 and 10.0.0.1.
const WEB_REPLY: &[u8] =
    b"\x12\x34\x85\x00\x00\x01\x00\x01\x00\x00\x00\x00\x03web\x07service\x06consul\x00\x00\x01\x00\x01\xc0\x0c\x00\x01\x00\x01\x00\x00\x00\x00\x00\x04\x0a\x00\x00\x01";

// The same of nope.service.consul, with ID 5678.
const NOPE: &[u8] =
    b"\x56\x78\x01\x00\x00\x01\x00\x00\x00\x00\x00\x00\x04nope\x07service\x06consul\x00\x00\x01\x00\x01";

// RCODE 3, and no record.
const NOPE_REPLY: &[u8] =
    b"\x56\x78\x85\x03\x00\x01\x00\x00\x00\x00\x00\x00\x04nope\x07service\x06consul\x00\x00\x01\x00\x01";

fn packet(alloc: Global, peer: u64, bytes: &[u8]) -> Result<Packet, Fail> {
    let bytes = Bytes::new(alloc, bytes)?;
    Ok(Packet { peer, bytes })
}

// What gives one port, which gives both packets, and refuses the call of `bind` with this number.
fn ports(alloc: Global, failing: u64) -> Result<MemPorts, Fail> {
    let packets = Vec::from_array(alloc, [packet(alloc, 7, WEB)?, packet(alloc, 8, NOPE)?])?;
    let script = PortScript {
        packets,
        failing: List::new(alloc),
    };
    let mut calls = List::new(alloc);
    calls.push(failing)?;
    let ports = MemPorts::new(alloc, Vec::from_array(alloc, [script])?, calls)?;
    Ok(ports)
}

// Whether one port came back, by which both replies went to whom their packets came from.
fn has_both(ports: &[MemPort]) -> bool {
    match ports {
        [port] => match port.went() {
            [web, nope] => web.peer == 7
                && web.bytes.as_slice() == WEB_REPLY
                && nope.peer == 8
                && nope.bytes.as_slice() == NOPE_REPLY,
            _ => false,
        },
        _ => false,
    }
}

#[test]
fn packets_are_answered_beside_connections(rt: HostRuntime) -> Result<(), Fail> {
    let alloc = rt.alloc();
    let _ = fs::remove_dir_all(&rt, FOLDER);
    let files = over(alloc, HostFiles::new(rt), 1, ports(alloc, 0)?)?;
    let first = served(rt, alloc, SERVE, REGISTER, files)?;
    assert_eq!(rt; first.status, 0);
    assert!(rt; first.ports.kept().is_empty());
    drop(first);
    let files = over(alloc, HostFiles::new(rt), 1, ports(alloc, 0)?)?;
    let second = served(rt, alloc, ANSWER, b"", files)?;
    assert_eq!(rt; second.status, 0);
    assert!(rt; has_both(second.ports.kept()));
    drop(second);
    fs::remove_dir_all(&rt, FOLDER)?;
    Ok(())
}

#[test]
fn a_port_that_cannot_be_bound_ends_the_run(rt: HostRuntime) -> Result<(), Fail> {
    let alloc = rt.alloc();
    let words = "serve --servers 1 --agents 1 --port 8500 --connections 1 --dns 8600 --packets 2";
    let files = over(alloc, HostFiles::new(rt), 1, ports(alloc, 1)?)?;
    let ended = served(rt, alloc, words, b"", files)?;
    assert_eq!(rt; ended.status, 10);
    assert!(rt; ended.sink.bytes().is_empty());
    assert!(rt; ended.ports.kept().is_empty());
    drop(ended);
    Ok(())
}
