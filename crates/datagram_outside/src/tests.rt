//! Ports in memory and over UDP.

ghost use Rattle.std.specs.Prelude.{◌≤◌, length};

use crate::{DatagramPort, Datagrams, MemPort, MemPorts, Packet, PortScript, UdpPort, UdpPorts};
use cat_model::{Bytes, List};
use outside::{Failed, KeepFail};
use std::alloc::Global;
use std::net::{Ipv4Addr, Net, SocketAddr, UdpSocket};
use std::test::Fail;

// The next packet's length and first byte, if one comes.
fn first_byte<P: DatagramPort>(port: &mut P, room: &mut [u8]) -> Option<(usize, u8)>
    requires { 65535 ≤ length room.old }
{
    match port.receive(room) {
        Ok((size, _)) => Some((size, room[0])),
        Err(Failed) => None,
    }
}

// Receives a packet and sends it back to whom it came from.
fn send_back<P: DatagramPort>(port: &mut P, room: &mut [u8]) -> Result<(), KeepFail>
    requires { 65535 ≤ length room.old }
{
    match port.receive(room) {
        Ok((size, peer)) => port.send(&peer, &room[..size]),
        Err(Failed) => Err(KeepFail::Failed),
    }
}

fn packet(alloc: Global, peer: u64, bytes: &[u8]) -> Result<Packet, Fail> {
    let bytes = Bytes::new(alloc, bytes)?;
    Ok(Packet { peer, bytes })
}

// A port that gives two packets, and whose third call fails.
fn script(alloc: Global) -> Result<PortScript, Fail> {
    let packets = Vec::from_array(
        alloc,
        [packet(alloc, 7, b"one")?, packet(alloc, 8, b"three")?],
    )?;
    let mut failing = List::new(alloc);
    failing.push(3u64)?;
    Ok(PortScript { packets, failing })
}

fn ports(alloc: Global) -> Result<MemPorts, Fail> {
    let scripts = Vec::from_array(alloc, [script(alloc)?])?;
    let ports = MemPorts::new(alloc, scripts, List::new(alloc))?;
    Ok(ports)
}

// Whether one packet, to that peer, was sent.
fn has_sent(port: &MemPort, peer: u64, bytes: &[u8]) -> bool {
    match port.went() {
        [one] => one.peer == peer && one.bytes.as_slice() == bytes,
        _ => false,
    }
}

// Whether the first packet goes back, the third call fails, and the second packet comes then.
fn plays(port: &mut MemPort, room: &mut [u8]) -> bool
    requires { 65535 ≤ length room.old }
{
    send_back(port, room).is_ok()
        && first_byte(port, room).is_none()
        && first_byte(port, room) == Some((5, b't'))
        && first_byte(port, room).is_none()
}

#[test]
fn a_port_in_memory_follows_its_script(rt: HostRuntime) -> Result<(), Fail> {
    let mut ports = ports(rt.alloc())?;
    let mut room = vec![in rt.alloc(); 0u8; 65_535]?;
    let mut port = ports.bind(53)?;
    let played = plays(&mut port, &mut room) && has_sent(&port, 7, b"one");
    ports.close(port);
    let kept = ports.kept().len();
    let refused = ports.bind(53).is_err();
    drop(ports);
    assert!(rt; played && kept == 1 && refused);
    Ok(())
}

// Sends a packet to the port, which sends it back, and says whether just that came back.
fn echoes<R: Net>(rt: &R, port: &mut UdpPort, room: &mut [u8]) -> Result<bool, Fail>
    requires { 65535 ≤ length room.old }
{
    let Some(number) = port.local_port() else {
        return Ok(false);
    };
    let client = UdpSocket::bind(rt, SocketAddr::from((Ipv4Addr::LOCALHOST, 0)))?;
    let address = SocketAddr::from((Ipv4Addr::LOCALHOST, number));
    client.send_to(b"hello", address)?;
    let sent = send_back(port, room);
    let mut back = [0u8; 16];
    let (size, from) = client.recv_from(&mut back)?;
    Ok(sent.is_ok() && from == address && size == 5 && &back[..5] == b"hello".as_slice())
}

#[test]
fn a_port_of_udp_answers_whom_a_packet_came_from(rt: HostRuntime) -> Result<(), Fail> {
    let mut ports = UdpPorts::new(rt);
    let mut room = vec![in rt.alloc(); 0u8; 65_535]?;
    let mut port = ports.bind(0)?;
    let echoed = echoes(&rt, &mut port, &mut room)?;
    ports.close(port);
    assert!(rt; echoed);
    Ok(())
}
