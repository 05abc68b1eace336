ghost use Rattle.std.specs.Prelude.{◌≡◌, IfOk, false};
ghost use Rattle.cat_model.specs.declared.reply.Kind.TheVariants as kinds;
ghost use Rattle.cluster_rules.specs.Replies.{Says, index_shown, number_of};
ghost use Rattle.cluster_requests.specs.Contents.{content_of, out_of};
ghost use Rattle.cluster_requests.specs.Plain.{refusal_of};
ghost use Rattle.cluster_requests.specs.Requests.{reply_with};
ghost use Rattle.cluster_requests.specs.Taking.{is_of};

use crate::content::Content;
use crate::copies::copy_refusal;
use crate::plain::Plain;
use cat_model::{Kind, Memory, Refusal};
use std::marker::Model;

// The index that a reply names, which is that of a read.
fn index_shown(kind: &Kind) -> Option<u64>
    ensures { result ≡ index_shown kind.now }
{
    match kind {
        Kind::At { index, .. } => Some(*index),
        _ => None,
    }
}

/// A reply to the request with this number. `contact` is in milliseconds.
#[derive(Drop)]
pub struct Reply {
    number: u64,
    index: Option<u64>,
    content: Content,
    known: bool,
    contact: u64,
    kind: Kind,
}

impl Model for Reply {
    ghost use Rattle.cluster_rules.specs.Replies as rules;

    ghost Value = { rules.Reply };

    ghost use Rattle.cluster_requests.specs.Contents.{content_of};

    ghost view = { λ r. record { number = r.number; index = r.index; content = content_of r.content; known = r.known; contact = r.contact; kind = r.kind } };
}

impl Reply {
    /// The reply that rests on this kind and shows this content.
    pub fn new(number: u64, kind: Kind, known: bool, contact: u64, content: Content) -> Reply
        ensures { result ≡ reply_with number kind known contact (content_of content) }
    {
        Reply {
            number,
            index: index_shown(&kind),
            content,
            known,
            contact,
            kind,
        }
    }

    /// The refusal of a request.
    pub(crate) fn refusing(number: u64, why: &Refusal) -> Result<Reply, Memory>
        ensures { IfOk result (λ r. r ≡ reply_with number (kinds.Refused why.now) false 0 (Says why.now)) }
    {
        let kind = Kind::Refused(copy_refusal(why)?);
        match copy_refusal(why) {
            Ok(why) => Ok(Reply::new(number, kind, false, 0, Content::Says(why))),
            Err(Memory) => {
                drop(kind);
                Err(Memory)
            }
        }
    }

    /// The refusal of a request for a cause that has no text, which takes no memory.
    pub(crate) fn refusing_for(number: u64, why: Plain) -> Reply
        ensures { result ≡ reply_with number (kinds.Refused (refusal_of why)) false 0 (Says (refusal_of why)) }
    {
        let content = Content::Says(why.refusal());
        Reply::new(number, Kind::Refused(why.refusal()), false, 0, content)
    }

    pub fn number(&self) -> u64
        ensures { result ≡ self.now.number }
    {
        self.number
    }

    /// The index that it names.
    pub fn index(&self) -> Option<u64>
        ensures { result ≡ self.now.index }
    {
        self.index
    }

    pub fn content(&self) -> &Content
        ensures { content_of result.now ≡ self.now.content }
    {
        &self.content
    }

    /// Whether a leader is known.
    pub fn known(&self) -> bool
        ensures { result ≡ self.now.known }
    {
        self.known
    }

    /// The milliseconds since the last contact with it.
    pub fn contact(&self) -> u64
        ensures { result ≡ self.now.contact }
    {
        self.contact
    }

    /// What it rests on.
    pub fn kind(&self) -> &Kind
        ensures { result.now ≡ self.now.kind }
    {
        &self.kind
    }
}

/// What an out gives.
#[derive(Drop)]
pub enum Given {
    Replied(Reply),
    /// The server that held the request restarted in the event with this number.
    Closed { number: u64, event: u64 },
    /// An agent's sync proposed so many commands, or found no leader.
    Synced { agent: u32, count: Option<u32> },
}

/// What an event gives to the outside.
#[derive(Drop)]
pub struct Out {
    given: Given,
}

impl Model for Out {
    ghost use Rattle.cluster_rules.specs.Replies as rules;

    ghost Value = { rules.Out };

    ghost use Rattle.cluster_requests.specs.Contents.{out_of};

    ghost view = { λ o. out_of o.given };
}

impl Out {
    pub fn new(given: Given) -> Out
        ensures { result ≡ out_of given }
    {
        Out { given }
    }

    pub fn given(&self) -> &Given
        ensures { out_of result.now ≡ self.now }
    {
        &self.given
    }

    pub fn into_given(self) -> Given
        ensures { out_of result ≡ self }
    {
        self.given
    }

    /// The request that it is of; a sync's is of none.
    pub fn number(&self) -> Option<u64>
        ensures { result ≡ number_of self.now }
    {
        match &self.given {
            Given::Replied(reply) => Some(reply.number()),
            Given::Closed { number, .. } => Some(*number),
            Given::Synced { .. } => None,
        }
    }

    /// It is of this request.
    pub fn is_of(&self, number: u64) -> bool
        ensures { result ≡ is_of number self.now }
    {
        match self.number() {
            Some(own) => own == number,
            None => false,
        }
    }
}
