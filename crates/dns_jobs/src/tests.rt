//! Packets that are answered beside the caller, and by it.

ghost use Rattle.std.specs.Prelude.{◌≡◌};

use crate::{DnsDone, DnsJob, answer_names, finish_names, start_names};
use cat_model::{Bytes, Command, Entry, List, Memory, NewService, Shared, Text};
use datagram_outside::{DatagramPort, MemPort, Packet};
use dns_server::DnsCause;
use outside::{Failed, KeepFail};
use serve_outside::{MemSpawner, Spawner, ThreadSpawner};
use stale_view::{Opened, PairName, Publisher, stale_pair};
use std::alloc::Global;
use std::marker::Brand;
use std::sync::Wait;
use std::test::Fail;
use std::thread::Threads;

// The addresses of web.service.consul: ID 1234, RD, one question of type A and class IN.
const WEB: &[u8] =
    b"\x12\x34\x01\x00\x00\x01\x00\x00\x00\x00\x00\x00\x03web\x07service\x06consul\x00\x00\x01\x00\x01";

// QR, AA and RD; the question again, and one record: the name at byte 12, type A, class IN, TTL 0 and 10.0.0.1.
const WEB_REPLY: &[u8] =
    b"\x12\x34\x85\x00\x00\x01\x00\x01\x00\x00\x00\x00\x03web\x07service\x06consul\x00\x00\x01\x00\x01\xc0\x0c\x00\x01\x00\x01\x00\x00\x00\x00\x00\x04\x0a\x00\x00\x01";

// The same of nope.service.consul, with ID 5678.
const NOPE: &[u8] =
    b"\x56\x78\x01\x00\x00\x01\x00\x00\x00\x00\x00\x00\x04nope\x07service\x06consul\x00\x00\x01\x00\x01";

// RCODE 3, and no record.
const NOPE_REPLY: &[u8] =
    b"\x56\x78\x85\x03\x00\x01\x00\x00\x00\x00\x00\x00\x04nope\x07service\x06consul\x00\x00\x01\x00\x01";

// The same of web.service.consul, where there is no such service yet.
const NO_WEB_REPLY: &[u8] =
    b"\x12\x34\x85\x03\x00\x01\x00\x00\x00\x00\x00\x00\x03web\x07service\x06consul\x00\x00\x01\x00\x01";

// The addresses of web.service.consul, asked with ID abcd, and the reply.
const OTHER_WEB: &[u8] =
    b"\xab\xcd\x01\x00\x00\x01\x00\x00\x00\x00\x00\x00\x03web\x07service\x06consul\x00\x00\x01\x00\x01";

const OTHER_WEB_REPLY: &[u8] =
    b"\xab\xcd\x85\x00\x00\x01\x00\x01\x00\x00\x00\x00\x03web\x07service\x06consul\x00\x00\x01\x00\x01\xc0\x0c\x00\x01\x00\x01\x00\x00\x00\x00\x00\x04\x0a\x00\x00\x01";

// A header has a byte more.
const SHORT: &[u8] = b"\x12\x34\x01\x00\x00\x01\x00\x00\x00\x00\x00";

// Service web of node n1, at 10.0.0.1.
fn web(alloc: Global) -> Result<Command, Memory> {
    Ok(Command::Register {
        node: Text::new(alloc, "n1")?,
        address: Text::new(alloc, "10.0.0.1")?,
        service: Some(NewService {
            id: Text::new(alloc, "web")?,
            name: Text::new(alloc, "web")?,
            tags: List::new(alloc),
            address: Text::new(alloc, "")?,
            port: 80,
            tag_override: false,
        }),
        checks: List::new(alloc),
    })
}

fn log(alloc: Global) -> Result<Vec<Entry>, Memory> {
    let entry = Entry {
        term: 1,
        number: 1,
        command: Shared::new(alloc, web(alloc)?)?,
    };
    Ok(Vec::from_array(alloc, [entry])?)
}

fn packet(alloc: Global, peer: u64, bytes: &[u8]) -> Result<Packet, Memory> {
    let bytes = Bytes::new(alloc, bytes)?;
    Ok(Packet { peer, bytes })
}

// A port that gives three packets, and whose call of this number fails.
fn port(alloc: Global, failing: u64) -> Result<MemPort, Fail> {
    let packets = Vec::from_array(
        alloc,
        [
            packet(alloc, 7, WEB)?,
            packet(alloc, 8, NOPE)?,
            packet(alloc, 9, SHORT)?,
        ],
    )?;
    let mut calls = List::new(alloc);
    calls.push(failing)?;
    Ok(MemPort::new(alloc, packets, calls))
}

// What a job left: its port, how many packets it took, and why it ended.
type Left = (MemPort, u64, DnsCause);

// Answers the packets of a port by a catalog with one service, which is published.
fn answered<J: PairName + Send + Sync + 'static, R, S: Spawner>(
    rt: R,
    alloc: Global,
    opened: Opened,
    spawner: &mut S,
    port: MemPort,
) -> Result<Left, Fail>
where
    R: Threads + Wait + Copy + Send + Drop + 'static,
    requires named { opened.front.book ≡ J.book }
{
    let (mut publisher, viewer) = stale_pair::<J, R>(alloc, rt, opened, 1)?;
    publisher.publish(log(alloc)?.as_slice())?;
    let job = DnsJob {
        rt,
        alloc,
        port,
        viewer,
        packets: 3,
    };
    match start_names(spawner, &rt, alloc, job) {
        Ok(task) => {
            let DnsDone { port, ended } = finish_names(&rt, task);
            Ok((port, ended.taken, ended.cause))
        }
        Err(_) => Err(Fail::new("refused")),
    }
}

// The same of a port whose call of this number fails.
fn left<R, S: Spawner>(rt: R, alloc: Global, spawner: &mut S, failing: u64) -> Result<Left, Fail>
where
    R: Threads + Wait + Copy + Send + Drop + 'static,
{
    let port = port(alloc, failing)?;
    answered::<Brand, R, S>(rt, alloc, Opened::new(), spawner, port)
}

// Whether both replies went, to whom their packets came from, and the third packet had none.
fn has_all(left: &Left) -> bool {
    let (port, taken, cause) = left;
    let are_replies = match port.went() {
        [web, nope] => web.peer == 7
            && web.bytes.as_slice() == WEB_REPLY
            && nope.peer == 8
            && nope.bytes.as_slice() == NOPE_REPLY,
        _ => false,
    };
    are_replies && *taken == 3 && *cause == DnsCause::Done
}

// A port that publishes its log before each packet but the first.
#[derive(Drop)]
struct PublishingPort<J: PairName, R: Wait + Drop> {
    port: MemPort,
    publisher: Publisher<J, R>,
    log: Vec<Entry>,
    has_begun: bool,
}

impl<J: PairName, R: Wait + Drop> DatagramPort for PublishingPort<J, R> {
    type Peer = u64;

    ghost state = { λ p. ⟦<MemPort as DatagramPort>⟧.state p.port };

    ghost number = { λ peer. peer };

    fn receive(&mut self, into: &mut [u8]) -> Result<(usize, u64), Failed> {
        if self.has_begun {
            // Where memory is wanting, the replies show that nothing was published.
            let _ = self.publisher.publish(self.log.as_slice());
        }
        self.has_begun = true;
        self.port.receive(into)
    }

    fn send(&mut self, to: &u64, packet: &[u8]) -> Result<(), KeepFail> {
        self.port.send(to, packet)
    }
}

// Answers the same question thrice, before a service is published and then behind it.
fn answered_thrice<J: PairName, R: Wait + Copy + Drop>(
    rt: R,
    alloc: Global,
    opened: Opened,
) -> Result<MemPort, Fail>
    requires named { opened.front.book ≡ J.book }
{
    let (publisher, viewer) = stale_pair::<J, R>(alloc, rt, opened, 1)?;
    let packets = Vec::from_array(
        alloc,
        [
            packet(alloc, 7, WEB)?,
            packet(alloc, 8, WEB)?,
            packet(alloc, 9, OTHER_WEB)?,
        ],
    )?;
    let port = PublishingPort {
        port: MemPort::new(alloc, packets, List::new(alloc)),
        publisher,
        log: log(alloc)?,
        has_begun: false,
    };
    let job = DnsJob {
        rt,
        alloc,
        port,
        viewer,
        packets: 3,
    };
    let DnsDone { port, ended: _ } = answer_names(job);
    let PublishingPort { port, .. } = port;
    Ok(port)
}

// The same with a history of its own.
fn port_of_three<R: Wait + Copy + Drop>(rt: R, alloc: Global) -> Result<MemPort, Fail> {
    answered_thrice::<Brand, R>(rt, alloc, Opened::new())
}

// Whether these replies went, in this order.
fn went(port: &MemPort, replies: &[&[u8]; 3]) -> bool {
    match port.went() {
        [one, two, three] => one.bytes.as_slice() == replies[0]
            && two.bytes.as_slice() == replies[1]
            && three.bytes.as_slice() == replies[2],
        _ => false,
    }
}

#[test]
fn each_reply_is_of_the_catalog_as_it_is_then(rt: HostRuntime) -> Result<(), Fail> {
    let port = port_of_three(rt, rt.alloc())?;
    let are_replies = went(&port, &[NO_WEB_REPLY, WEB_REPLY, OTHER_WEB_REPLY]);
    drop(port);
    assert!(rt; are_replies);
    Ok(())
}

#[test]
fn the_caller_answers_where_there_are_no_threads(rt: HostRuntime) -> Result<(), Fail> {
    let mut spawner = MemSpawner::new(List::new(rt.alloc()));
    let left = left(rt, rt.alloc(), &mut spawner, 0)?;
    let all = has_all(&left);
    drop(left);
    assert!(rt; all);
    Ok(())
}

#[test]
fn a_thread_answers_beside_the_caller(rt: HostRuntime) -> Result<(), Fail> {
    let mut spawner = ThreadSpawner::new();
    let left = left(rt, rt.alloc(), &mut spawner, 0)?;
    let all = has_all(&left);
    drop(left);
    assert!(rt; all);
    Ok(())
}

#[test]
fn a_send_that_fails_ends_the_job(rt: HostRuntime) -> Result<(), Fail> {
    let mut spawner = ThreadSpawner::new();
    let (port, taken, cause) = left(rt, rt.alloc(), &mut spawner, 2)?;
    let none_went = port.went().is_empty();
    drop(port);
    assert!(rt; none_went && taken == 1 && cause == DnsCause::Fault);
    Ok(())
}
