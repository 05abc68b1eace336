//! Connections in memory and over TCP.

ghost use Rattle.std.specs.Prelude.{◌≡◌, false};
ghost use Rattle.serve_outside.specs.InMemory.{told};

use crate::echo::Echo;
use cat_model::{Bytes, List};
use outside::{Failed, KeepFail};
use serve_outside::{
    Link, Listener, MemLink, MemListener, Script, TcpLinks, ThreadSpawner, finish, start,
};
use std::alloc::Global;
use std::io;
use std::io::{Read, Write};
use std::net::{Net, Shutdown, TcpListener, TcpStream};
use std::test::Fail;
use std::thread::Threads;
use std::time::Clock;

// The calls of these numbers.
fn calls(alloc: Global, numbers: &[u64]) -> Result<List<u64>, Fail> {
    let mut list = List::new(alloc);
    for number in numbers {
        list.push(*number)?;
    }
    Ok(list)
}

fn script(alloc: Global, bytes: &[u8], most: usize, failing: &[u64]) -> Result<Script, Fail> {
    let bytes = Bytes::new(alloc, bytes)?;
    Ok(Script {
        bytes,
        most,
        failing: calls(alloc, failing)?,
    })
}

// One connection that says hello, and fails at its third call and its fourth, and one that says nothing.
fn two_scripts(alloc: Global) -> Result<Vec<Script>, Fail> {
    let hello = script(alloc, b"hello", 3, &[3, 4])?;
    let nothing = script(alloc, b"", 0, &[])?;
    let scripts = Vec::from_array(alloc, [hello, nothing])?;
    Ok(scripts)
}

// A listener that gives two connections, and fails at its third call.
fn two_links(alloc: Global) -> Result<MemListener, Fail> {
    let failing = calls(alloc, &[3])?;
    let scripts = two_scripts(alloc)?;
    let listener = MemListener::new(alloc, scripts, failing)?;
    Ok(listener)
}

// Whether it tells its port once it listens.
fn tells_port(listener: &mut MemListener) -> bool {
    listener.port().is_none() && listener.listen(8500).is_ok() && listener.port() == Some(8500)
}

#[test]
fn a_listener_in_memory_tells_its_port(rt: HostRuntime) -> Result<(), Fail> {
    let mut listener = two_links(rt.alloc())?;
    let told = tells_port(&mut listener);
    drop(listener);
    assert!(rt; told);
    Ok(())
}

// Whether one read gives just these bytes.
fn reads(link: &mut MemLink, wanted: &[u8]) -> bool
    requires still_open { (told link.old).shut ≡ false }
    ensures still_open { (told link.new).shut ≡ false }
{
    let mut room = [0u8; 16];
    match link.read(&mut room) {
        Ok(count) => &room[..count] == wanted,
        Err(_) => false,
    }
}

// Whether the first connection gives its bytes and takes others as its script says.
fn follows_script(link: &mut MemLink) -> bool
    requires still_open { (told link.old).shut ≡ false }
{
    reads(link, b"hel")
        && reads(link, b"lo")
        && link.read(&mut [0u8; 16]) == Err(Failed)
        && link.write(b"a") == Err(KeepFail::Failed)
        && link.write(b"bc") == Ok(2)
        && reads(link, b"")
}

// Whether the first connection has its number, follows its script, and is shut at last.
fn first_is_served(first: &mut MemLink) -> bool
    requires still_open { (told first.old).shut ≡ false }
{
    let follows = first.number() == 1 && follows_script(first);
    first.shut();
    follows && first.is_shut()
}

// Whether a client in memory is there until its script says that it has gone.
fn goes_by_script(link: &mut MemLink) -> bool {
    !link.has_gone() && !link.has_gone() && link.has_gone()
}

#[test]
fn a_client_in_memory_goes_by_its_script(rt: HostRuntime) -> Result<(), Fail> {
    let mut link = MemLink::new(rt.alloc(), script(rt.alloc(), b"hello", 1, &[3])?, 1);
    let goes = goes_by_script(&mut link);
    drop(link);
    assert!(rt; goes);
    Ok(())
}

// Whether the second connection has its number, says nothing, and stays open.
fn second_is_served(second: &mut MemLink) -> bool
    requires still_open { (told second.old).shut ≡ false }
{
    second.number() == 2 && reads(second, b"") && !second.is_shut()
}

fn accept_fails(listener: &mut impl Listener) -> bool {
    match listener.accept() {
        Ok(link) => {
            drop(link);
            false
        }
        Err(_) => true,
    }
}

// Whether the third call of the listener fails, the fourth gives the second connection, and there is no other one.
fn second_is_given(listener: &mut MemListener) -> Result<bool, Failed> {
    let fails = accept_fails(listener);
    let mut second = listener.accept()?;
    let served = second_is_served(&mut second);
    let is_last = accept_fails(listener);
    listener.close(second);
    Ok(fails && served && is_last)
}

// Whether both connections are given and serve; they are handed back, the second one first.
fn both_are_given(listener: &mut MemListener) -> Result<bool, Failed> {
    listener.listen(8500)?;
    let mut first = listener.accept()?;
    let first_served = first_is_served(&mut first);
    let second_served = second_is_given(listener);
    listener.close(first);
    Ok(first_served && second_served?)
}

// Whether both connections were kept as they were handed back.
fn keeps_both(listener: &MemListener) -> bool {
    match listener.kept() {
        [second, first] => second.number() == 2 && first.said() == b"bc".as_slice(),
        _ => false,
    }
}

#[test]
fn links_in_memory(rt: HostRuntime) -> Result<(), Fail> {
    let mut listener = two_links(rt.alloc())?;
    let given = both_are_given(&mut listener);
    let kept = keeps_both(&listener);
    drop(listener);
    assert!(rt; given?);
    assert!(rt; kept);
    Ok(())
}

// Says hello and no more, and gives as many bytes as come back.
fn ask(client: &mut TcpStream) -> io::Result<[u8; 5]> {
    client.write_all(b"hello")?;
    client.shutdown(Shutdown::Write)?;
    let mut heard = [0u8; 5];
    client.read_exact(&mut heard)?;
    Ok(heard)
}

fn hears_hello(client: &mut TcpStream) -> bool {
    match ask(client) {
        Ok(heard) => heard == *b"hello",
        Err(_) => false,
    }
}

fn is_at_end(client: &mut TcpStream) -> bool {
    match client.read(&mut [0u8; 5]) {
        Ok(count) => count == 0,
        Err(_) => false,
    }
}

// Echoes in a thread what the client says, and gives the connection back and whether the client hears it, or none where
// the job is refused.
fn echoed<L: Link + Send + 'static>(
    rt: &impl Threads,
    alloc: Global,
    client: &mut TcpStream,
    link: L,
) -> Option<(L, bool)>
    requires still_open { (L.state link).shut ≡ false }
{
    match start(&mut ThreadSpawner::new(), rt, alloc, Echo { link }) {
        Ok(task) => {
            let heard = hears_hello(client);
            Some((finish(rt, task), heard))
        }
        Err(echo) => {
            drop(echo);
            None
        }
    }
}

// Whether the client hears its echo, and nothing behind that.
fn is_served<Li: Listener>(
    rt: &impl Threads,
    alloc: Global,
    listener: &mut Li,
    client: &mut TcpStream,
) -> Result<bool, Failed>
where
    Li::Link: Send + 'static,
{
    let link = listener.accept()?;
    match echoed(rt, alloc, client, link) {
        Some((link, heard)) => {
            let is_end = is_at_end(client);
            listener.close(link);
            Ok(heard && is_end)
        }
        None => Ok(false),
    }
}

// Whether a client is served at a port that the system chooses.
fn serves_a_client<R>(rt: &R, alloc: Global, listener: &mut TcpLinks<R>) -> Result<bool, Fail>
where
    R: Threads
        + Net<Listener = TcpListener, Stream = TcpStream>
        + Clock
        + Copy
        + Drop
        + Send
        + 'static,
{
    listener.listen(0)?;
    let Some(address) = listener.address() else {
        return Ok(false);
    };
    let mut client = TcpStream::connect(rt, address)?;
    let served = is_served(rt, alloc, listener, &mut client);
    drop(client);
    Ok(served?)
}

#[test]
fn links_over_tcp(rt: HostRuntime) -> Result<(), Fail> {
    let mut listener = TcpLinks::new(rt);
    let refused = accept_fails(&mut listener);
    let served = serves_a_client(&rt, rt.alloc(), &mut listener);
    drop(listener);
    assert!(rt; refused);
    assert!(rt; served?);
    Ok(())
}
