//! A server of Raft over its durable store.

ghost use Rattle.std.specs.Prelude.{◌≡◌, length};
ghost use Rattle.std.specs.Option.{option_map};
ghost use Rattle.raft_model.specs.Log.{entry_at};
ghost use Rattle.raft_model.specs.Step.{arms};

use crate::counted::Counted;
use crate::state::State;
use cat_model::{Entry, List, Role};
use outside::Keeper;
use std::marker::Model;

/// A server of a cluster, over its durable store. Contracts see it as a node of the definitions of Raft.
#[derive(Drop)]
pub struct Node<K: Keeper> {
    pub(crate) keeper: K,
    pub(crate) state: State,
    pub(crate) log: List<Entry>,
    pub(crate) counted: Counted,
}

impl<K: Keeper> Model for Node<K> {
    ghost use Rattle.raft_model.specs.Node as model;
    ghost use Rattle.raft_node.specs.Nodes.{IsKept, seen};

    ghost Value = { model.Node };

    ghost view = { λ n. seen (record { contents = K.held n.keeper; armed = K.armed n.keeper; faults = K.faults n.keeper; sure = K.sure n.keeper }) n.state n.log };

    ghost invariant = { λ n. IsKept (K.held n.keeper) n.state n.log n.counted };
}

impl<K: Keeper> Node<K> {
    /// The number of this server, from 1.
    pub fn id(&self) -> u32
        ensures { result ≡ self.now.id }
    {
        self.state.id
    }

    /// How many servers the cluster has.
    pub fn servers(&self) -> u32
        ensures { result ≡ self.now.servers }
    {
        self.state.servers
    }

    pub fn term(&self) -> u64
        ensures { result ≡ self.now.term }
    {
        self.state.term
    }

    pub fn role(&self) -> Role
        ensures { result ≡ self.now.role }
    {
        self.state.role
    }

    /// The known leader. A leader knows none.
    pub fn leader(&self) -> Option<u32>
        ensures { result ≡ self.now.leader }
    {
        self.state.leader
    }

    /// The index up to which the log is committed.
    pub fn commit(&self) -> u64
        ensures { result ≡ self.now.commit }
    {
        self.state.commit
    }

    /// The round of acknowledgements that a leader began last.
    pub fn round(&self) -> u64
        ensures { result ≡ self.now.round }
    {
        self.state.round
    }

    pub fn log(&self) -> &List<Entry>
        ensures { result.now ≡ self.now.log }
    {
        &self.log
    }

    /// The entry at an index, from 1.
    pub fn entry(&self, index: u64) -> Option<&Entry>
        ensures { option_map (λ entry. entry.now) result ≡ entry_at index self.now.log }
    {
        if index == 0 {
            return None;
        }
        if index > self.log.len() as u64 {
            return None;
        }
        Some(&self.log.as_slice()[(index - 1) as usize])
    }

    /// The index of the last entry.
    pub fn last(&self) -> u64
        ensures { result ≡ length self.now.log }
    {
        self.log.len() as u64
    }

    /// A store call failed, and the node has not restarted since.
    pub fn halted(&self) -> bool
        ensures { result ≡ self.now.halted }
    {
        self.state.halted
    }

    /// Makes the store's call number `nth` from now on fail, in place of what was armed before. It takes no memory.
    pub fn fail_keep(&mut self, nth: u32)
        ensures { self.new ≡ arms self.old nth }
    {
        self.keeper.fail_at(nth);
    }

    /// The store.
    pub fn into_keeper(self) -> K
        ensures held { K.held result ≡ self.store.contents }
        ensures armed { K.armed result ≡ self.store.armed }
        ensures faults { K.faults result ≡ self.store.faults }
        ensures sure { K.sure result ≡ self.store.sure }
    {
        self.keeper
    }
}
