//! What a host did, which only proofs read.

ghost use Rattle.std.specs.Prelude.{◌≡◌};
ghost use Rattle.std.specs.Borrow.{ftrue};
ghost use Rattle.node_journals.specs.Journals.{Process};

use crate::happened::Happened;
use cat_model::List;
use outside::Keeper;
use raft_model::{Message, Sent};
use raft_node::Node;
use std::marker::Model;
use std::snapshot::Snapshot;

/// A node as it started, and its journal since. It takes no memory, and nothing is done at run time.
#[derive(Drop)]
pub struct History {
    pub ghost process: { Process },
}

impl Model for History {
    ghost also_owns = { λ _. ftrue };
}

impl History {
    ghost use Rattle.raft_model.specs.Rules.{Receive};
    ghost use Rattle.node_journals.specs.Journals.{Given};
    ghost use Rattle.node_link.specs.Hosts.{event_of, told, untold};

    // The history that the caller's proof names by what is shown.
    fn of<T>(shown: &T) -> History
        ghost named: { Process }
        ensures { result.process ≡ named }
    {
        let _ = shown;
        History {}
    }

    /// The history of a node that has just started.
    pub fn begun<K: Keeper>(node: &Node<K>) -> History
        ensures { result.process ≡ untold node.now }
    {
        History::of(node)
    }

    /// The history with one more step, in which this happened, the node became this one and these were sent.
    pub fn then<K: Keeper>(&self, happened: &Happened, node: &Node<K>, sent: &List<Sent>) -> History
        ensures { result.process ≡ told self.now.process (event_of happened.now) node.now sent.now }
    {
        let seen = History::begun(node);
        History::of(&(
            Snapshot::of(self),
            Snapshot::of(happened),
            Snapshot::of(&seen),
            Snapshot::of(sent),
        ))
    }

    /// The history with one more step, in which a server's message was given.
    pub fn received<K: Keeper>(
        &self,
        from: u32,
        message: &Message,
        node: &Node<K>,
        sent: &List<Sent>,
    ) -> History
        ensures { result.process ≡ told self.now.process (Given (Receive from message.now)) node.now sent.now }
    {
        let happened = Happened::Received {
            from,
            message: Snapshot::of(message),
        };
        self.then(&happened, node, sent)
    }
}
