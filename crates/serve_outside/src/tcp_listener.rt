//! What gives TCP connections.

ghost use Rattle.std.specs.Prelude.{◌≡◌, []};

use crate::{Limits, Link, Listener, TcpLink};
use http_server::Log;
use outside::Failed;
use std::io::ErrorKind;
use std::net::{Ipv4Addr, Net, SocketAddr, TcpListener, TcpStream};
use std::time::{Clock, Duration};
use std::{io, thread};

/// How many milliseconds it waits before it tries again where the system has no descriptor or no buffer for a connection.
const PAUSE_MS: u64 = 50;

// What Linux calls the lack of descriptors, in the process and in the system, of buffers and of memory, and the faults
// of a connection that broke before it was taken (accept(2)).
const PASSING: [i32; 13] = [4, 12, 23, 24, 64, 71, 92, 95, 100, 101, 103, 105, 113];

/// What gives TCP connections to 127.0.0.1.
#[derive(Drop)]
pub struct TcpLinks<R> {
    rt: R,
    limits: Limits,
    listener: Option<TcpListener>,
    // The port that it was told to listen on: for clauses alone.
    port: Option<u16>,
    given: u64,
    faults: u64,
    closed: Log<TcpLink<R>, ()>,
}

// Whether a fault of `accept` passes by itself.
fn is_passing(fault: &io::Error) -> bool {
    match fault.raw_os_error() {
        Some(code) => PASSING.contains(&code),
        None => fault.kind() == ErrorKind::Interrupted,
    }
}

// The next stream, for which it waits, also where the system has no descriptor for it.
fn next_stream(listener: &TcpListener, rt: &impl Clock) -> io::Result<TcpStream> {
    for _ in 0..u64::MAX {
        match listener.accept() {
            Ok((stream, _)) => return Ok(stream),
            Err(fault) if is_passing(&fault) => thread::sleep(rt, Duration::from_millis(PAUSE_MS)),
            Err(fault) => return Err(fault),
        }
    }
    Err(ErrorKind::TimedOut.into())
}

impl<R: Net<Listener = TcpListener, Stream = TcpStream> + Clock + Copy + Drop> TcpLinks<R> {
    /// It does not listen yet.
    pub fn new(rt: R) -> TcpLinks<R>
        ensures given { ⟦<TcpLinks<R> as Listener>⟧.given result ≡ 0 }
        ensures faults { ⟦<TcpLinks<R> as Listener>⟧.faults result ≡ 0 }
        ensures closed { ⟦<TcpLinks<R> as Listener>⟧.closed result ≡ [] }
    {
        TcpLinks::with_limits(rt, Limits::usual())
    }

    /// The same, whose connections have these limits of time.
    pub fn with_limits(rt: R, limits: Limits) -> TcpLinks<R>
        ensures given { ⟦<TcpLinks<R> as Listener>⟧.given result ≡ 0 }
        ensures faults { ⟦<TcpLinks<R> as Listener>⟧.faults result ≡ 0 }
        ensures closed { ⟦<TcpLinks<R> as Listener>⟧.closed result ≡ [] }
    {
        TcpLinks {
            rt,
            limits,
            listener: None,
            port: None,
            given: 0,
            faults: 0,
            closed: Log::new(),
        }
    }

    /// The address that it listens on, for whoever let the system choose the port.
    pub fn address(&self) -> Option<SocketAddr> {
        self.listener.as_ref()?.local_addr().ok()
    }

    // The next stream.
    fn next(&self) -> io::Result<TcpStream> {
        match &self.listener {
            Some(listener) => next_stream(listener, &self.rt),
            None => Err(ErrorKind::NotConnected.into()),
        }
    }
}

impl<R: Net<Listener = TcpListener, Stream = TcpStream> + Clock + Copy + Drop> Listener
    for TcpLinks<R> {
    ghost use Rattle.std.specs.Prelude.{map};

    type Link = TcpLink<R>;

    ghost faults = { λ l. l.faults };

    ghost given = { λ l. l.given };

    ghost closed = { λ l. map (λ p. ⟦<TcpLink<R> as Link>⟧.state p.0) l.closed.items };

    ghost listens_on = { λ l. l.port };

    fn listen(&mut self, port: u16) -> Result<(), Failed> {
        match self.rt.bind(SocketAddr::from((Ipv4Addr::LOCALHOST, port))) {
            Ok(listener) => {
                self.listener = Some(listener);
                self.port = Some(port);
                Ok(())
            }
            Err(_) => {
                self.faults = self.faults.saturating_add(1);
                Err(Failed)
            }
        }
    }

    fn accept(&mut self) -> Result<TcpLink<R>, Failed> {
        if self.given == u64::MAX {
            self.faults = self.faults.saturating_add(1);
            return Err(Failed);
        }
        match self.next() {
            Ok(stream) => {
                self.given += 1;
                Ok(TcpLink::new(self.rt, stream, self.limits, self.given))
            }
            Err(_) => {
                self.faults = self.faults.saturating_add(1);
                Err(Failed)
            }
        }
    }

    fn stop(&mut self) {
        self.listener = None;
    }

    fn close(&mut self, link: TcpLink<R>) {
        self.closed = self.closed.and(&link, &());
    }
}
