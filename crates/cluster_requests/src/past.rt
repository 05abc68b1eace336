//! What has happened, which only proofs read.

ghost use Rattle.std.specs.Prelude.{◌≡◌, List, []};
ghost use Rattle.std.specs.Borrow.{ftrue};
ghost use Rattle.cat_model.specs.declared.reply.Mark.{Mark as SpecMark};

use crate::out::Reply;
use cat_model::{Asked, Draw, Entry, Event};
use std::marker::Model;

/// What happened now.
#[derive(Clone, Copy)]
pub enum Happened<'a> {
    /// An event came, whatever it is.
    Made(&'a Event),
    /// A request came, of which the number is still to be given.
    Requested {
        agent: u32,
        asked: &'a Asked,
        draw: Draw,
    },
    /// The request at work takes this number.
    Numbered {
        number: u64,
        agent: u32,
        asked: &'a Asked,
        draw: Draw,
    },
    /// A request came with this number.
    Came {
        number: u64,
        agent: u32,
        asked: &'a Asked,
        draw: Draw,
    },
    /// The event at work changed nothing: it is as if it had not come.
    Forgotten,
    Answered(&'a Reply),
    /// The agreed log is this one now. Its entries from this place on joined it.
    Joined {
        agreed: &'a [Entry],
        from: u64,
    },
    /// A server's durable store failed.
    Halted(u32),
    /// So many pairs of a delivery and the message's loss.
    Settled(u32),
    /// An out was taken, of the request of this number, or of a sync.
    Taken(Option<u64>),
}

/// The marks of what has happened, the last one first. They take no memory, and nothing is done at run time.
#[derive(Drop)]
pub struct Past {
    pub(crate) ghost items: { List SpecMark },
}

impl Model for Past {
    ghost also_owns = { λ _. ftrue };
}

impl Past {
    ghost use Rattle.cluster_requests.specs.Past.{after};

    /// Nothing has happened.
    pub fn new() -> Past
        ensures { result.items ≡ [] }
    {
        Past {}
    }

    /// This happened too.
    pub fn then(&self, happened: &Happened<'_>) -> Past
        ensures { result.items ≡ after happened.now self.now.items }
    {
        let _ = happened;
        Past {}
    }
}
