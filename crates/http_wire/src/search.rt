//! The head of a message at the front of what has come.

ghost use Rattle.std.specs.Prelude.{◌≡◌, ◌≤◌, ◌<◌, ◌++◌, length, take, drop, IsTrue};
ghost use Rattle.http_wire.specs.Stream.{IsTail, no_head, front};
ghost use Rattle.http_wire.specs.Reader.{Looks};

use crate::head::{Found, make_spans, read_head};
use crate::judge::{Head, Judged, judge_head};
use crate::limits::{HEAD_BYTES, HEADERS};
use crate::rejection::Rejection;
use cat_model::Memory;
use httparse::spans::HeaderSpan;
use std::alloc::Global;

/// What the bytes that have come are, while no head is known.
#[derive(Drop)]
pub enum Look {
    More,
    Found(Head),
    Refused(Rejection),
    Memory,
}

// The first bytes of a piece.
pub(crate) fn first(piece: &[u8], most: usize) -> &[u8]
    ensures { result.now ≡ take most piece.now }
{
    if piece.len() <= most {
        piece
    } else {
        &piece[..most]
    }
}

// The bytes behind the first ones.
pub(crate) fn rest_of(piece: &[u8], from: usize) -> &[u8]
    requires { from ≤ length piece.now }
    ensures { result.now ≡ drop from piece.now }
{
    &piece[from..]
}

// How many bytes there are.
pub(crate) fn size(bytes: &Vec<u8>) -> usize
    ensures { result ≡ length bytes.now.items }
{
    bytes.len()
}

// Adds what fits of the piece, up to 16,384 bytes.
#[tactic(auto, using(crate::proofs::Exits::front_joined))]
fn fill_front(top: &mut Vec<u8>, piece: &[u8]) -> bool
    requires { length top.old.items < 16384 }
    ensures { IsTrue result → top.new.items ≡ front (top.old.items ++ piece.now) }
{
    let room = HEAD_BYTES - size(top);
    match top.extend_from_slice(first(piece, room)) {
        Ok(()) => true,
        Err(_) => false,
    }
}

// Takes what was added off again.
fn cut_back(top: &mut Vec<u8>, keep: usize)
    ensures { top.new.items ≡ take keep top.old.items }
{
    top.truncate(keep);
}

// Looks for a head at the front of what is held and the piece, in that room for headers.
fn look_in(alloc: Global, top: &mut Vec<u8>, spans: &mut Vec<HeaderSpan>, piece: &[u8]) -> Look
    requires start { IsTail no_head top.old.items }
    ensures { Looks top.old.items piece.now top.new.items result }
{
    let before = size(top);
    if !fill_front(top, piece) {
        return Look::Memory;
    }
    match read_head(alloc, top.as_slice(), spans) {
        Found::Memory => Look::Memory,
        Found::Bad => {
            cut_back(top, before);
            Look::Refused(Rejection::Head)
        }
        Found::More => {
            if size(top) < HEAD_BYTES {
                Look::More
            } else {
                cut_back(top, before);
                Look::Refused(Rejection::HeadTooLarge)
            }
        }
        Found::Head(head) => match judge_head(alloc, top.as_slice(), &head, spans.as_slice()) {
            Judged::Fine(found) => {
                cut_back(top, head.len);
                Look::Found(found)
            }
            Judged::Memory => Look::Memory,
            Judged::Refused(rejection) => {
                cut_back(top, before);
                Look::Refused(rejection)
            }
        },
    }
}

// Looks for a head at the front of what is held and the piece.
pub(crate) fn seek_head(alloc: Global, top: &mut Vec<u8>, piece: &[u8]) -> Look
    requires start { IsTail no_head top.old.items }
    ensures { Looks top.old.items piece.now top.new.items result }
{
    match make_spans(alloc, HEADERS) {
        Ok(mut spans) => look_in(alloc, top, &mut spans, piece),
        Err(Memory) => Look::Memory,
    }
}
