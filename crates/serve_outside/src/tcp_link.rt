//! A TCP connection.

ghost use Rattle.std.specs.Prelude.{◌≡◌, ◌≤◌};
ghost use Rattle.std.specs.Io.{ReadsAtMost, WritesAtMost};
ghost use Rattle.outside.specs.Causes.{counted};

use crate::linger::linger;
use crate::traffic::Traffic;
use crate::{Awaited, Limits, Link};
use outside::{Failed, KeepFail};
use std::io;
use std::io::{ErrorKind, Read, Write};
use std::net::TcpStream;
use std::time::Clock;

/// A TCP connection. Its descriptor is given back as soon as it is shut.
#[derive(Drop)]
pub struct TcpLink<R> {
    rt: R,
    stream: Option<TcpStream>,
    limits: Limits,
    // What the time limit of its reads is for, once it is set.
    awaited: Option<Awaited>,
    // Whether no read has found the end, and no read or write failed.
    going: bool,
    number: u64,
    ends: u64,
    read_faults: u64,
    write_faults: u64,
    shut: bool,
    traffic: Traffic,
}

// Where the stream is given back, there is none to read or to write.
fn read_from(stream: &mut Option<TcpStream>, into: &mut [u8]) -> io::Result<usize>
    ensures { ReadsAtMost result into.new }
{
    match stream {
        Some(stream) => stream.read(into),
        None => Err(ErrorKind::NotConnected.into()),
    }
}

fn write_to(stream: &mut Option<TcpStream>, piece: &[u8]) -> io::Result<usize>
    ensures { WritesAtMost result piece.now }
{
    match stream {
        Some(stream) => stream.write(piece),
        None => Err(ErrorKind::NotConnected.into()),
    }
}

// Whether nothing is left to be read, and the client has ended or the connection broke. A stream that cannot be set to
// wait again is of no more use.
fn has_ended(stream: &TcpStream) -> bool {
    if stream.set_nonblocking(true).is_err() {
        return false;
    }
    let seen = stream.peek(&mut [0]);
    if stream.set_nonblocking(false).is_err() {
        return true;
    }
    match seen {
        Ok(count) => count == 0,
        Err(fault) => fault.kind() != ErrorKind::WouldBlock,
    }
}

impl<R: Clock + Drop> TcpLink<R> {
    ghost use Rattle.serve_outside.specs.Links.{IsNew};

    /// The connection of that number. What cannot be set of it is left as it is.
    pub(crate) fn new(rt: R, stream: TcpStream, limits: Limits, number: u64) -> TcpLink<R>
        ensures new { IsNew number (⟦<TcpLink<R> as Link>⟧.state result) }
    {
        // Each piece is sent at once.
        let _ = stream.set_nodelay(true);
        let _ = stream.set_write_timeout(Some(limits.write));
        TcpLink {
            rt,
            stream: Some(stream),
            limits,
            awaited: None,
            going: true,
            number,
            ends: 0,
            read_faults: 0,
            write_faults: 0,
            shut: false,
            traffic: Traffic::new(),
        }
    }

    // Counts a read that failed.
    fn fail_read(&mut self)
        ensures later { self.old.read_faults ≤ self.new.read_faults }
        ensures counts { ⟦<TcpLink<R> as Link>⟧.state self.new ≡ record (⟦<TcpLink<R> as Link>⟧.state self.old) { read_faults = counted self.old.read_faults } }
    {
        self.going = false;
        self.read_faults = self.read_faults.saturating_add(1);
    }

    // Counts a write that failed, or that took nothing.
    fn fail_write(&mut self)
        ensures later { self.old.write_faults ≤ self.new.write_faults }
        ensures counts { ⟦<TcpLink<R> as Link>⟧.state self.new ≡ record (⟦<TcpLink<R> as Link>⟧.state self.old) { write_faults = counted self.old.write_faults } }
    {
        self.going = false;
        self.write_faults = self.write_faults.saturating_add(1);
    }
}

impl<R: Clock + Drop> Link for TcpLink<R> {
    ghost use Rattle.std.specs.Prelude.{Some};
    ghost use Rattle.serve_outside.specs.Traffic.{told_reads};

    ghost state = { λ l. record {
      number = l.number;
      heard = Some l.traffic.seen.heard;
      said = Some l.traffic.seen.said;
      reads = told_reads l.traffic.seen;
      ends = l.ends;
      read_faults = l.read_faults;
      write_faults = l.write_faults;
      shut = l.shut;
    } };

    fn expect(&mut self, what: Awaited) {
        if self.awaited == Some(what) {
            return;
        }
        let limit = Some(self.limits.of(what));
        let is_set = match &self.stream {
            Some(stream) => stream.set_read_timeout(limit).is_ok(),
            None => false,
        };
        self.awaited = if is_set { Some(what) } else { None };
    }

    fn read(&mut self, into: &mut [u8]) -> Result<usize, Failed> {
        let room = into.len();
        match read_from(&mut self.stream, into) {
            Ok(count) => {
                self.traffic = self.traffic.read(&into[..count]);
                if count == 0 && room > 0 {
                    self.going = false;
                    self.ends = self.ends.saturating_add(1);
                }
                Ok(count)
            }
            Err(_) => {
                self.traffic = self.traffic.read(&[]);
                self.fail_read();
                Err(Failed)
            }
        }
    }

    fn write(&mut self, piece: &[u8]) -> Result<usize, KeepFail> {
        match write_to(&mut self.stream, piece) {
            Ok(count) => {
                self.traffic = self.traffic.written(&piece[..count]);
                if count == 0 && !piece.is_empty() {
                    self.fail_write();
                }
                Ok(count)
            }
            Err(_) => {
                self.fail_write();
                Err(KeepFail::Failed)
            }
        }
    }

    fn has_gone(&mut self) -> bool {
        let gone = match &self.stream {
            Some(stream) => has_ended(stream),
            None => false,
        };
        if gone {
            self.fail_read();
        }
        gone
    }

    fn shut(&mut self) {
        if let Some(stream) = self.stream.take() {
            if self.going {
                linger(&self.rt, stream);
            }
        }
        self.shut = true;
    }
}
