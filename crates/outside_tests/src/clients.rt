//! Clients over TCP that say nothing, say too much, or go away.

ghost use Rattle.std.specs.Prelude.{◌≡◌, false};

use crate::echo::Echo;
use outside::Failed;
use serve_outside::{Awaited, Limits, Link, Listener, TcpLinks, ThreadSpawner, finish, start};
use std::alloc::Global;
use std::io::{Read, Write};
use std::net::{Net, Shutdown, SocketAddr, TcpListener, TcpStream};
use std::os::fd::AsRawFd;
use std::test::Fail;
use std::thread::Threads;
use std::time::{Clock, Duration};
use std::{io, thread};

// How many links are shut and kept.
const MANY: usize = 300;

// How many bytes a client says that a server does not want.
const TOO_MANY: usize = 2_000_000;

// Connects to what a listener listens on, at a port that the system chooses.
fn listening<R>(rt: R) -> Result<(TcpLinks<R>, SocketAddr), Fail>
where
    R: Net<Listener = TcpListener, Stream = TcpStream> + Clock + Copy + Drop,
{
    let limits = Limits {
        message: Duration::from_millis(50),
        rest: Duration::from_millis(50),
        write: Duration::from_secs(5),
    };
    let mut listener = TcpLinks::with_limits(rt, limits);
    listener.listen(0)?;
    match listener.address() {
        Some(address) => Ok((listener, address)),
        None => Err(Failed.into()),
    }
}

// The number of the descriptor that a new connection gets: the least that is free.
fn next_descriptor<R>(rt: &R, address: SocketAddr) -> io::Result<i32>
where
    R: Net<Listener = TcpListener, Stream = TcpStream>,
{
    let client = TcpStream::connect(rt, address)?;
    Ok(client.as_raw_fd())
}

// Shuts a link of a client that goes at once, and keeps it.
fn keep_shut<R, Li: Listener>(
    rt: &R,
    listener: &mut Li,
    address: SocketAddr,
    kept: &mut Vec<Li::Link>,
) -> Result<(), Fail>
where
    R: Net<Listener = TcpListener, Stream = TcpStream>,
{
    let client = TcpStream::connect(rt, address)?;
    let mut link = listener.accept()?;
    drop(client);
    link.shut();
    kept.push(link)?;
    Ok(())
}

// How many more descriptors are in use when so many links were shut and kept.
fn more_in_use<R, Li: Listener>(
    rt: &R,
    alloc: Global,
    listener: &mut Li,
    address: SocketAddr,
) -> Result<i32, Fail>
where
    R: Net<Listener = TcpListener, Stream = TcpStream>,
{
    let before = next_descriptor(rt, address)?;
    let mut kept = Vec::new(alloc);
    for _ in 0..MANY {
        keep_shut(rt, listener, address, &mut kept)?;
    }
    let after = next_descriptor(rt, address)?;
    drop(kept);
    Ok(after.saturating_sub(before))
}

#[test]
fn a_link_that_is_shut_gives_its_descriptor_back(rt: HostRuntime) -> Result<(), Fail> {
    let (mut listener, address) = listening(rt)?;
    let more = more_in_use(&rt, rt.alloc(), &mut listener, address);
    drop(listener);
    let more = more?;
    assert!(rt; more < 100, "{more} more descriptors");
    Ok(())
}

// Says many bytes, and gives the first ones that come back and whether nothing comes behind them.
fn says_much(alloc: Global, client: &mut TcpStream) -> Result<bool, Fail> {
    let bytes = vec![in alloc; b'x'; TOO_MANY]?;
    client.write_all(bytes.as_slice())?;
    client.shutdown(Shutdown::Write)?;
    let mut heard = [0u8; 16];
    client.read_exact(&mut heard)?;
    let behind = client.read(&mut [0u8; 1])?;
    Ok(heard == [b'x'; 16] && behind == 0)
}

// Whether a client of whose bytes only the first are read hears the whole answer to them.
fn hears_answer<R, L>(rt: &R, alloc: Global, client: &mut TcpStream, link: L) -> Result<bool, Fail>
where
    R: Threads,
    L: Link + Send + 'static,
    requires still_open { (L.state link).shut ≡ false }
{
    match start(&mut ThreadSpawner::new(), rt, alloc, Echo { link }) {
        Ok(task) => {
            let heard = says_much(alloc, client);
            drop(finish(rt, task));
            heard
        }
        Err(echo) => {
            drop(echo);
            Ok(false)
        }
    }
}

#[test]
fn a_client_that_says_too_much_hears_the_answer(rt: HostRuntime) -> Result<(), Fail> {
    let (mut listener, address) = listening(rt)?;
    let mut client = TcpStream::connect(&rt, address)?;
    let link = listener.accept()?;
    let heard = hears_answer(&rt, rt.alloc(), &mut client, link);
    drop(client);
    drop(listener);
    assert!(rt; heard?);
    Ok(())
}

// Whether a read ends although nothing comes.
fn read_ends<L: Link>(link: &mut L, what: Awaited) -> bool
    requires still_open { (L.state link.old).shut ≡ false }
    ensures still_open { (L.state link.new).shut ≡ false }
{
    link.expect(what);
    link.read(&mut [0u8; 16]) == Err(Failed)
}

// Whether a link tells within a second that its client has gone.
fn goes<R: Clock>(rt: &R, link: &mut impl Link) -> bool {
    for _ in 0..100 {
        if link.has_gone() {
            return true;
        }
        thread::sleep(rt, Duration::from_millis(10));
    }
    false
}

// Whether a client that says something and ends is seen to have gone when its bytes were read, and not before.
fn is_seen_to_go<R: Clock, L: Link>(
    rt: &R,
    mut client: TcpStream,
    link: &mut L,
) -> Result<bool, Fail>
    requires still_open { (L.state link.old).shut ≡ false }
{
    let silent = link.has_gone();
    client.write_all(b"hello")?;
    client.shutdown(Shutdown::Write)?;
    thread::sleep(rt, Duration::from_millis(20));
    let speaking = link.has_gone();
    let heard = link.read(&mut [0u8; 16]);
    let gone = goes(rt, link);
    drop(client);
    Ok(!silent && !speaking && heard == Ok(5) && gone)
}

#[test]
fn a_client_that_ends_is_seen_to_go(rt: HostRuntime) -> Result<(), Fail> {
    let (mut listener, address) = listening(rt)?;
    let client = TcpStream::connect(&rt, address)?;
    let mut link = listener.accept()?;
    let seen = is_seen_to_go(&rt, client, &mut link);
    link.shut();
    drop(link);
    drop(listener);
    assert!(rt; seen?);
    Ok(())
}

#[test]
fn a_client_that_says_nothing_is_not_waited_for(rt: HostRuntime) -> Result<(), Fail> {
    let (mut listener, address) = listening(rt)?;
    let client = TcpStream::connect(&rt, address)?;
    let mut link = listener.accept()?;
    let ends = read_ends(&mut link, Awaited::Message) && read_ends(&mut link, Awaited::Rest);
    link.shut();
    drop(client);
    drop(link);
    drop(listener);
    assert!(rt; ends);
    Ok(())
}
