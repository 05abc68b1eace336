//! A message of which a part has come.

ghost use Rattle.std.specs.Prelude.{◌≡◌, ◌≤◌, ◌-◌, ◌++◌, [], length, take, min, IfSome};
ghost use Rattle.http_wire.specs.Reader.{IsHeld, held, Moves, IsBody, MovesBody, FoundHead, Keeps};

use crate::judge::Head;
use crate::rejection::Rejection;
use crate::search::{Look, first, rest_of, seek_head, size};
use cat_model::{Bytes, Text};
use std::alloc::Global;

/// A request as it came (RFC 9112, sections 3 and 6). `close` says that the connection ends behind it (section 9.6).
#[derive(Debug, Drop)]
pub struct RawRequest {
    pub method: Text,
    pub target: Text,
    pub body: Bytes,
    pub close: bool,
}

/// What a piece gives.
#[derive(Debug, Drop)]
pub enum Got {
    /// The whole piece is taken, and nothing is due.
    More,
    /// A whole head asks for `100 Continue` before its body comes (RFC 9110, section 10.1.1).
    Continue,
    Message(RawRequest),
    Refused(Rejection),
    Memory,
}

/// What a call gives, and how many bytes of the piece it took.
#[derive(Debug, Drop)]
pub struct Fed {
    pub used: usize,
    pub got: Got,
}

/// What has come of a message that is not whole.
#[derive(Drop)]
pub struct Partial {
    pub top: Vec<u8>,
    pub head: Option<Head>,
    pub body: Vec<u8>,
}

// Adds to a body what is missing of it, and says how many bytes of the piece that took.
fn fill_body(body: &mut Vec<u8>, want: usize, piece: &[u8]) -> Option<usize>
    requires { length body.old.items ≤ want }
    ensures added { IfSome result (λ n. body.new.items ≡ body.old.items ++ take n piece.now) }
    ensures used { IfSome result (λ n. n ≡ min (want - length body.old.items) (length piece.now)) }
{
    let missing = want - size(body);
    let part = first(piece, missing);
    if body.extend_from_slice(part).is_err() {
        return None;
    }
    Some(part.len())
}

// Takes what the body still lacks. The whole message is given out once its body is whole.
fn feed_body(alloc: Global, partial: &mut Partial, piece: &[u8]) -> Fed
    requires { IsBody partial.old }
    ensures moves { MovesBody partial.old piece.now result partial.new }
    ensures used { result.used ≤ length piece.now }
{
    match partial.head.take() {
        None => Fed {
            used: 0,
            got: Got::Memory,
        },
        Some(head) => match fill_body(&mut partial.body, head.length, piece) {
            None => Fed {
                used: 0,
                got: Got::Memory,
            },
            Some(used) => {
                if size(&partial.body) < head.length {
                    partial.head = Some(head);
                    Fed {
                        used,
                        got: Got::More,
                    }
                } else {
                    let body = std::mem::replace(&mut partial.body, Vec::new(alloc));
                    partial.top.clear();
                    Fed {
                        used,
                        got: Got::Message(RawRequest {
                            method: head.method,
                            target: head.target,
                            body: Bytes::from(body),
                            close: head.close,
                        }),
                    }
                }
            }
        },
    }
}

// Goes on behind a head that was just found in the first bytes of the piece.
fn feed_found(alloc: Global, partial: &mut Partial, head: Head, before: usize, piece: &[u8]) -> Fed
    requires found { FoundHead (take before partial.old.top.items) partial.old.top.items piece.now head (length partial.old.top.items - before) }
    requires body { partial.old.body.items ≡ [] }
    requires before { before ≤ length partial.old.top.items }
    ensures moves { Moves (take before partial.old.top.items) piece.now result.used result.got (held partial.new) }
    ensures keeps { Keeps result.got partial.new }
    ensures used { result.used ≤ length piece.now }
{
    let used = size(&partial.top) - before;
    let expects = head.expects;
    partial.head = Some(head);
    if expects {
        return Fed {
            used,
            got: Got::Continue,
        };
    }
    let fed = feed_body(alloc, partial, rest_of(piece, used));
    match fed.got {
        Got::Memory => Fed {
            used: 0,
            got: Got::Memory,
        },
        got => Fed {
            used: used + fed.used,
            got,
        },
    }
}

// The next thing that a piece gives, behind what is held.
pub(crate) fn advance(alloc: Global, partial: &mut Partial, piece: &[u8]) -> Fed
    requires is { IsHeld partial.old }
    ensures moves { Moves (held partial.old) piece.now result.used result.got (held partial.new) }
    ensures keeps { Keeps result.got partial.new }
    ensures used { result.used ≤ length piece.now }
{
    if partial.head.is_some() {
        return feed_body(alloc, partial, piece);
    }
    let before = size(&partial.top);
    match seek_head(alloc, &mut partial.top, piece) {
        Look::More => Fed {
            used: piece.len(),
            got: Got::More,
        },
        Look::Memory => Fed {
            used: 0,
            got: Got::Memory,
        },
        Look::Refused(rejection) => Fed {
            used: 0,
            got: Got::Refused(rejection),
        },
        Look::Found(head) => feed_found(alloc, partial, head, before, piece),
    }
}
