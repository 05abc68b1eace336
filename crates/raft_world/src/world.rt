//! All servers of a cluster, with the messages on their way.

ghost use Rattle.std.specs.Prelude.{◌≡◌, IfSome, length, is_some};
ghost use Rattle.std.specs.Option.{option_copied, option_map};
ghost use Rattle.raft_model.specs.Node.{of_server};
ghost use Rattle.raft_model.specs.World.{IsServer, numbered};
ghost use Rattle.raft_world.specs.Packets.{IsLowest, first_of};
ghost use Rattle.raft_world.specs.Steps.{CommitsWithin, IsNumber, contact_of};

use crate::agreed::Agreed;
use crate::bag::{Bag, Packet};
use crate::steps::place;
use cat_model::Entry;
use outside::Keeper;
use raft_node::Node;
use std::marker::Model;

/// The servers of a cluster, numbered from 1, with their clocks and the messages on their way. Contracts see it as a
/// world of the definitions of Raft.
#[derive(Drop)]
pub struct World<K: Keeper> {
    pub(crate) nodes: Vec<Node<K>>,
    // In milliseconds.
    pub(crate) clocks: Vec<u64>,
    // The server's clock when it last accepted an Append.
    pub(crate) contacts: Vec<Option<u64>>,
    pub(crate) bag: Bag,
    // The greatest number proposed.
    pub(crate) greatest: u64,
    pub(crate) agreed: Agreed,
}

impl<K: Keeper> Model for World<K> {
    ghost use Rattle.raft_model.specs.World as model;
    ghost use Rattle.raft_world.specs.Agreeing.{shown};
    ghost use Rattle.raft_world.specs.Worlds.{IsWorld};

    ghost Value = { model.World };

    ghost view = { λ w. record {
      nodes = w.nodes.items;
      clocks = w.clocks.items;
      contacts = w.contacts.items;
      bag = w.bag;
      greatest = w.greatest;
      agreed = shown w.agreed w.nodes.items;
    } };

    ghost invariant = { λ w. IsWorld w.nodes.items w.clocks.items w.contacts.items w.bag.packets w.agreed };
}

impl<K: Keeper> World<K> {
    /// How many servers there are.
    pub fn servers(&self) -> u32
        ensures { result ≡ length self.now.nodes }
    {
        self.nodes.len() as u32
    }

    /// The node of a server.
    pub fn node(&self, s: u32) -> &Node<K>
        requires { IsNumber s self.now }
        ensures { IsServer self.now s result.now }
    {
        &self.nodes[place(s)]
    }

    /// No server has committed more than its log has, whatever the stores held.
    pub fn commits_within(&self)
        ensures { CommitsWithin self.now }
    {
        let _nodes = &self.nodes;
    }

    /// The clock of a server, in milliseconds.
    pub fn clock(&self, s: u32) -> u64
        requires { IsNumber s self.now }
        ensures { result ≡ of_server self.now.clocks s }
    {
        self.clocks[place(s)]
    }

    /// The clock of a server when it last accepted an Append since it began or began again.
    pub fn contact(&self, s: u32) -> Option<u64>
        requires { IsNumber s self.now }
        ensures { result ≡ contact_of s self.now }
    {
        self.contacts[place(s)]
    }

    /// There is a message of this number in the bag.
    pub fn in_bag(&self, k: u64) -> bool
        ensures { result ≡ is_some (numbered k self.now.bag.packets) }
    {
        self.bag.contains(k)
    }

    /// The message of this number in the bag.
    pub fn packet(&self, k: u64) -> Option<&Packet>
        ensures { option_copied result ≡ numbered k self.now.bag.packets }
    {
        self.bag.find(k)
    }

    /// The server that is to receive the message of this number.
    pub fn receiver(&self, k: u64) -> Option<u32>
        ensures receiver { result ≡ option_map (λ p. p.to) (numbered k self.now.bag.packets) }
        ensures server { IfSome result (λ s. IsNumber s self.now) }
    {
        match self.bag.find(k) {
            Some(packet) => Some(packet.to()),
            None => None,
        }
    }

    /// The message in the bag with the lowest number.
    pub fn first(&self) -> Option<&Packet>
        ensures { option_copied result ≡ first_of self.now.bag.packets }
    {
        self.bag.first()
    }

    /// The lowest number of a message in the bag.
    pub fn lowest(&self) -> Option<u64>
        ensures { IsLowest result self.now.bag.packets }
    {
        self.bag.lowest()
    }

    /// The longest list that any server has committed so far.
    pub fn agreed(&self) -> &[Entry]
        ensures { result.now ≡ self.now.agreed }
    {
        match &self.agreed {
            Agreed::Kept(entries) => entries.as_slice(),
            Agreed::Committed { at, count } => {
                let node = &self.nodes[*at];
                &node.log().as_slice()[..*count]
            }
        }
    }
}
