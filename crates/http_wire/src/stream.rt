//! A whole stream, read piece by piece.

ghost use Rattle.std.specs.Prelude.{◌≡◌, List, map, flat_map, IfOk, OnOk};
ghost use Rattle.http_wire.specs.Stream.{Given, Tail, Messages, rejection_of};
ghost use Rattle.http_wire.specs.State.{given, Follows, GivesAll};

use crate::partial::{Got, RawRequest};
use crate::reader::RequestReader;
use crate::rejection::Rejection;
use crate::search::rest_of;
use cat_model::Memory;
use std::alloc::Global;

/// What a stream gives, in order.
#[derive(Drop)]
pub enum Item {
    Continue,
    Message(RawRequest),
}

/// What a stream gave, and why it was refused, if it was.
#[derive(Drop)]
pub struct Decoded {
    pub items: Vec<Item>,
    pub refused: Option<Rejection>,
}

// Reads a piece to its end.
fn feed_all(reader: &mut RequestReader, items: &mut Vec<Item>, piece: &[u8]) -> Result<(), Memory>
    ensures { OnOk result (Follows reader.old (map given items.old.items) piece.now reader.new (map given items.new.items)) }
{
    let mut rest = piece;
    'feed: loop {
        let fed = reader.feed(rest);
        rest = rest_of(rest, fed.used);
        match fed.got {
            Got::More => {
                return Ok(());
            }
            Got::Refused(_) => {
                return Ok(());
            }
            Got::Memory => {
                return Err(Memory);
            }
            Got::Continue => {
                items.push(Item::Continue)?;
            }
            Got::Message(message) => {
                items.push(Item::Message(message))?;
            }
        }
    }
}

/// What a stream gives that comes in these pieces. However it is cut, that is the same.
pub fn decode(alloc: Global, pieces: &[Vec<u8>]) -> Result<Decoded, Memory>
    ensures found { IfOk result (λ d. GivesAll (flat_map (λ piece. piece.items) pieces.now) (map given d.items.items) d.refused) }
    ensures only { IfOk result (λ d. (items : List Given) (tail : Tail) → Messages (flat_map (λ piece. piece.items) pieces.now) items tail
        → (map given d.items.items ≡ items) × (d.refused ≡ rejection_of tail)) }
{
    let mut reader = RequestReader::new(alloc)?;
    let mut items = Vec::new(alloc);
    'pieces: for piece in pieces {
        feed_all(&mut reader, &mut items, piece.as_slice())?;
    }
    let refused = reader.refused();
    Ok(Decoded { items, refused })
}
