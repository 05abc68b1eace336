//! The reader of a stream of requests.

ghost use Rattle.std.specs.Prelude.{◌≡◌, ◌≤◌, [], length, IfOk, None};
ghost use Rattle.http_wire.specs.Reader.{Takes};
ghost use Rattle.http_wire.specs.State.{Feeds, Tells, Told, rejection_in};

use crate::partial::{Fed, Got, Partial, advance};
use crate::rejection::Rejection;
use crate::search::size;
use cat_model::Memory;
use std::alloc::Global;
use std::marker::Model;

/// Room for the bytes of a usual head.
const USUAL_HEAD: usize = 512;

/// Why a reader gives nothing more.
#[derive(Clone, Copy, Debug, PartialEq, Eq)]
pub enum Stop {
    Refused(Rejection),
    Memory,
}

/// Reads the requests of a stream that comes in pieces, cut anywhere (RFC 9112, section 2.2).
#[derive(Drop)]
pub struct RequestReader {
    partial: Partial,
    stop: Option<Stop>,
    alloc: Global,
}

impl Model for RequestReader {
    ghost use Rattle.http_wire.specs.State.{Reader, view_of, IsReader};

    ghost Value = { Reader };

    ghost view = { view_of };

    ghost invariant = { IsReader };
}

impl RequestReader {
    /// A reader of a stream of which nothing has come.
    pub fn new(alloc: Global) -> Result<RequestReader, Memory>
        ensures empty { IfOk result (λ reader. (reader.held ≡ []) × (reader.stop ≡ None)) }
        ensures told { IfOk result (λ reader. Told [] [] reader.held reader.stop) }
    {
        Ok(RequestReader {
            partial: Partial {
                top: Vec::with_capacity(alloc, USUAL_HEAD)?,
                head: None,
                body: Vec::new(alloc),
            },
            stop: None,
            alloc,
        })
    }

    /// The next thing that a piece gives; the next call takes the rest of it. After a refusal or lack of memory the
    /// reader answers the same for ever.
    pub fn feed(&mut self, piece: &[u8]) -> Fed
        ensures feeds { Feeds self.old piece.now result self.new }
        ensures tells { Tells self.old piece.now result self.new }
        ensures used { result.used ≤ length piece.now }
        ensures takes { Takes result.got result.used }
    {
        self.take_step(piece)
    }

    // The next thing, by what it does to the bytes that are kept.
    fn take_step(&mut self, piece: &[u8]) -> Fed
        ensures feeds { Feeds self.old piece.now result self.new }
        ensures used { result.used ≤ length piece.now }
    {
        match self.stop {
            Some(Stop::Refused(rejection)) => Fed {
                used: 0,
                got: Got::Refused(rejection),
            },
            Some(Stop::Memory) => Fed {
                used: 0,
                got: Got::Memory,
            },
            None => {
                let fed = advance(self.alloc, &mut self.partial, piece);
                match &fed.got {
                    Got::Refused(rejection) => {
                        self.stop = Some(Stop::Refused(*rejection));
                    }
                    Got::Memory => {
                        self.stop = Some(Stop::Memory);
                        self.partial.top.clear();
                        self.partial.body.clear();
                    }
                    _ => {}
                }
                fed
            }
        }
    }

    /// Why the stream is refused, if it is.
    pub fn refused(&self) -> Option<Rejection>
        ensures { result ≡ rejection_in self.now.stop }
    {
        match self.stop {
            Some(Stop::Refused(rejection)) => Some(rejection),
            Some(Stop::Memory) => None,
            None => None,
        }
    }

    /// How many bytes of the stream are kept: those of a message that is not whole.
    pub fn held(&self) -> usize
        ensures is { result ≡ length self.now.held }
        ensures few { result ≤ 1064960 }
    {
        size(&self.partial.top) + size(&self.partial.body)
    }
}
