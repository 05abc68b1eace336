//! UDP. RFC 768.

ghost use Rattle.std.specs.Prelude.{◌≡◌, ◌≤◌, []};
ghost use Rattle.outside.specs.Causes.{counted};

use crate::{DatagramPort, Datagrams};
use http_server::Log;
use outside::{Failed, KeepFail};
use std::net::{Ipv4Addr, Net, SocketAddr, UdpSocket};

/// A port of UDP. It does not tell its packets.
#[derive(Drop)]
pub struct UdpPort {
    socket: UdpSocket,
    given: u64,
    faults: u64,
}

impl DatagramPort for UdpPort {
    ghost use Rattle.std.specs.Prelude.{None};

    type Peer = SocketAddr;

    ghost state = { λ p. record { given = p.given; faults = p.faults; came = None; went = None } };

    ghost number = { λ peer. 0 };

    fn receive(&mut self, into: &mut [u8]) -> Result<(usize, SocketAddr), Failed> {
        if self.given < u64::MAX
            && let Ok(received) = self.socket.recv_from(into)
        {
            self.given += 1;
            return Ok(received);
        }
        self.count_fault();
        Err(Failed)
    }

    fn send(&mut self, to: &SocketAddr, packet: &[u8]) -> Result<(), KeepFail> {
        match self.socket.send_to(packet, *to) {
            Ok(count) if count == packet.len() => Ok(()),
            _ => {
                self.count_fault();
                Err(KeepFail::Failed)
            }
        }
    }
}

impl UdpPort {
    // Counts a call that failed.
    fn count_fault(&mut self)
        ensures counts { self.new ≡ record self.old { faults = counted self.old.faults } }
        ensures later { self.old.faults ≤ self.new.faults }
    {
        self.faults = self.faults.saturating_add(1);
    }

    /// The number of the port.
    pub fn local_port(&self) -> Option<u16> {
        match self.socket.local_addr() {
            Ok(address) => Some(address.port()),
            Err(_) => None,
        }
    }
}

/// What gives ports of UDP on 127.0.0.1.
#[derive(Drop)]
pub struct UdpPorts<R> {
    rt: R,
    failed_binds: u64,
    closed: Log<UdpPort, ()>,
}

impl<R: Net> UdpPorts<R> {
    pub fn new(rt: R) -> UdpPorts<R>
        ensures faults { ⟦<UdpPorts<R> as Datagrams>⟧.faults result ≡ 0 }
        ensures closed { ⟦<UdpPorts<R> as Datagrams>⟧.closed result ≡ [] }
    {
        UdpPorts {
            rt,
            failed_binds: 0,
            closed: Log::new(),
        }
    }
}

impl<R: Net> Datagrams for UdpPorts<R> {
    ghost use Rattle.std.specs.Prelude.{map};

    type Port = UdpPort;

    ghost faults = { λ d. d.failed_binds };

    ghost closed = { λ d. map (λ p. ⟦<UdpPort as DatagramPort>⟧.state p.0) d.closed.items };

    fn bind(&mut self, port: u16) -> Result<UdpPort, Failed> {
        match UdpSocket::bind(&self.rt, SocketAddr::from((Ipv4Addr::LOCALHOST, port))) {
            Ok(socket) => Ok(UdpPort {
                socket,
                given: 0,
                faults: 0,
            }),
            Err(_) => {
                self.failed_binds = self.failed_binds.saturating_add(1);
                Err(Failed)
            }
        }
    }

    fn close(&mut self, port: UdpPort) {
        self.closed = self.closed.and(&port, &());
    }
}
