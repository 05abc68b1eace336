//! The messages that links have still to send.

ghost use Rattle.std.specs.Prelude.{◌≡◌, [], IfOk, OnErr, OnOk};
ghost use Rattle.node_link.specs.Outboxes.{no_messages, posted, posted_all};

use cat_model::{List, Memory};
use raft_model::Sent;
use std::alloc::Global;
use std::marker::Model;

// So many messages wait at most.
const MOST_MESSAGES: usize = 256;

/// The messages that a node made and that links have still to send, in order. One that finds no room is lost and counted,
/// as a network may lose it.
#[derive(Drop)]
pub struct Outbox {
    messages: Vec<Sent>,
    lost: u64,
}

impl Model for Outbox {
    ghost use Rattle.std.specs.Prelude.{◌≤◌, vec_capacity};
    ghost use Rattle.node_link.specs.Outboxes.{Unsent};

    ghost Value = { Unsent };

    ghost view = { λ b. record { messages = b.messages.items; lost = b.lost } };

    ghost invariant = { λ b. 256 ≤ vec_capacity b.messages };
}

impl Outbox {
    /// An empty outbox, with room for all that it may have.
    pub fn new(alloc: Global) -> Result<Outbox, Memory>
        ensures { IfOk result (λ outbox. outbox ≡ no_messages) }
    {
        let messages = Vec::with_capacity(alloc, MOST_MESSAGES)?;
        Ok(Outbox { messages, lost: 0 })
    }

    /// Puts in one message. It takes no memory.
    pub fn post(&mut self, sent: Sent)
        ensures { self.new ≡ posted sent self.old }
    {
        if self.messages.len() < MOST_MESSAGES {
            self.messages.push_reserved(sent);
        } else {
            self.lost = self.lost.saturating_add(1);
        }
    }

    /// Puts in these messages, in their order. It takes no memory.
    pub fn post_all(&mut self, sent: List<Sent>)
        ensures { self.new ≡ posted_all sent self.old }
    {
        for one in sent.into_vec() {
            self.post(one);
        }
    }

    /// Takes all messages out.
    pub fn take(&mut self, alloc: Global) -> Result<List<Sent>, Memory>
        ensures taken { IfOk result (λ taken. taken ≡ self.old.messages) }
        ensures ok { OnOk result (self.new ≡ record { messages = []; lost = self.old.lost }) }
        ensures memory { OnErr result (self.new ≡ self.old) }
    {
        let fresh = Vec::with_capacity(alloc, MOST_MESSAGES)?;
        Ok(List::from(std::mem::replace(&mut self.messages, fresh)))
    }

    /// How many messages were lost since the outbox was made, up to 2^64 - 1.
    pub fn lost(&self) -> u64
        ensures { result ≡ self.now.lost }
    {
        self.lost
    }
}
