//! A node with its history and its outbox.

ghost use Rattle.std.specs.Prelude.{◌≡◌, [], IfErr, IfOk, OnErr, OnOk};
ghost use Rattle.std.specs.Option.{ForSome};
ghost use Rattle.raft_model.specs.Rules.{Beat, Receive, Timeout};
ghost use Rattle.raft_model.specs.Step.{NodeStep, Works};
ghost use Rattle.raft_node.specs.Nodes.{KeepsLimits};
ghost use Rattle.raft_node.specs.Receiving.{CarriesAllowed, IsOther};
ghost use Rattle.raft_node.specs.Steps.{FailsToLoad, Steps, stored};
ghost use Rattle.node_link.specs.Hosts.{Answers, Begins, BeginsAgain, FindsNoMemory, IsHost, Makes, Receives, grants, handed, has_grant, next_of, status_of};

use crate::happened::Happened;
use crate::history::History;
use crate::outbox::Outbox;
use crate::status::Status;
use cat_model::{Command, List, Memory, Shared};
use outside::{KeepFail, Keeper};
use raft_model::{Message, Place, Sent};
use raft_node::{Node, ProposeFault};
use std::alloc::Global;
use std::marker::Model;
use std::snapshot::Snapshot;

/// A node over its store, which is one process of a cluster, with what links have still to send of what it made.
#[derive(Drop)]
pub struct Host<K: Keeper> {
    node: Node<K>,
    history: History,
    outbox: Outbox,
    applied: u64,
}

impl<K: Keeper> Model for Host<K> {
    ghost use Rattle.node_link.specs.Hosts.{Hosted, IsHost};

    ghost Value = { Hosted };

    ghost view = { λ h. record { process = h.history.process; node = h.node; outbox = h.outbox; applied = h.applied } };

    ghost invariant = { λ h. IsHost (record { process = h.history.process; node = h.node; outbox = h.outbox; applied = h.applied }) };
}

impl<K: Keeper + Drop> Host<K> {
    /// Server `id`, from 1, of so many servers begins over its store. Where the store can't be read, it is handed back.
    pub fn start(alloc: Global, id: u32, servers: u32, keeper: K) -> Result<Host<K>, (K, KeepFail)>
        requires { ForSome (K.held keeper) KeepsLimits }
        ensures ok { IfOk result (λ host. Begins id servers (stored (K.held keeper) (K.armed keeper) (K.faults keeper) (K.sure keeper)) host) }
        ensures err { IfErr result (λ why. FailsToLoad why.1 (stored (K.held keeper) (K.armed keeper) (K.faults keeper) (K.sure keeper)) (stored (K.held why.0) (K.armed why.0) (K.faults why.0) (K.sure why.0))) }
    {
        let Ok(outbox) = Outbox::new(alloc) else {
            return Err((keeper, KeepFail::Memory));
        };
        match Node::start(alloc, id, servers, keeper) {
            Ok(node) => Ok(Host {
                history: History::begun(&node),
                node,
                outbox,
                applied: 0,
            }),
            Err(why) => Err(why),
        }
    }

    /// The rules allow the journal, and the node is the one behind it. What waits in the outbox was sent in a step of it.
    pub fn is_told(&self)
        ensures { IsHost self.now }
    {
        let _ = &self.node;
    }

    /// The election timeout is over.
    pub fn timeout(&mut self, alloc: Global) -> Result<(), Memory>
        ensures ok { OnOk result (Makes Steps self.old Timeout self.new) }
        ensures memory { OnErr result (FindsNoMemory self.old Timeout self.new) }
    {
        let term = self.node.term();
        match self.node.timeout(alloc) {
            Ok(sent) => {
                self.history = self.history.then(&Happened::Timeout, &self.node, &sent);
                self.outbox.post_all(sent);
                Ok(())
            }
            Err(Memory) => {
                if self.node.term() != term {
                    let none = List::new(alloc);
                    self.history = self.history.then(&Happened::Timeout, &self.node, &none);
                }
                Err(Memory)
            }
        }
    }

    /// Takes a message of another server. Says whether it granted a vote.
    pub fn receive(&mut self, alloc: Global, from: u32, message: &Message) -> Result<bool, Memory>
        requires other { IsOther self.old.node from }
        requires entries { CarriesAllowed message.now }
        ensures ok { IfOk result (λ granted. Receives self.old from message.now granted self.new) }
        ensures memory { OnErr result (FindsNoMemory self.old (Receive from message.now) self.new) }
    {
        let before = self.node.term();
        match self.node.receive(alloc, from, message) {
            Ok(sent) => {
                let granted = has_grant(sent.as_slice());
                self.history = self.history.received(from, message, &self.node, &sent);
                self.outbox.post_all(sent);
                Ok(granted)
            }
            Err(Memory) => {
                if self.node.term() != before {
                    let none = List::new(alloc);
                    self.history = self.history.received(from, message, &self.node, &none);
                }
                Err(Memory)
            }
        }
    }

    /// A leader's heartbeat.
    pub fn beat(&mut self, alloc: Global) -> Result<(), Memory>
        ensures ok { OnOk result (Makes (NodeStep Works) self.old Beat self.new) }
        ensures memory { OnErr result (self.new ≡ self.old) }
    {
        let sent = self.node.beat(alloc)?;
        self.history = self.history.then(&Happened::Beat, &self.node, &sent);
        self.outbox.post_all(sent);
        Ok(())
    }

    /// Puts a command into a leader's log, with the number 0, since processes share no count. Gives its place.
    pub fn propose(
        &mut self,
        alloc: Global,
        command: Shared<Command>,
    ) -> Result<Place, ProposeFault>
        ensures { Answers self.old command self.new result }
    {
        let halted = self.node.halted();
        let happened = Happened::Proposed(Snapshot::of(&command));
        match self.node.propose(alloc, 0, command) {
            Ok((place, sent)) => {
                self.history = self.history.then(&happened, &self.node, &sent);
                self.outbox.post_all(sent);
                Ok(place)
            }
            Err(fault) => {
                if self.node.halted() && !halted {
                    let none = List::new(alloc);
                    self.history = self.history.then(&happened, &self.node, &none);
                }
                Err(fault)
            }
        }
    }

    /// Begins again with what the store holds. Where the store fails the node halts.
    pub fn restart(&mut self, alloc: Global) -> Result<(), Memory>
        ensures ok { OnOk result (BeginsAgain self.old self.new) }
        ensures memory { OnErr result (self.new ≡ self.old) }
    {
        self.node.restart(alloc)?;
        let none = List::new(alloc);
        self.history = self.history.then(&Happened::Restarted, &self.node, &none);
        self.applied = 0;
        Ok(())
    }

    /// Takes all messages out that are to be sent, in order.
    pub fn take_outbox(&mut self, alloc: Global) -> Result<List<Sent>, Memory>
        ensures taken { IfOk result (λ taken. taken ≡ self.old.outbox.messages) }
        ensures ok { OnOk result (self.new ≡ record self.old { outbox = record { messages = []; lost = self.old.outbox.lost } }) }
        ensures memory { OnErr result (self.new ≡ self.old) }
    {
        self.outbox.take(alloc)
    }

    /// Hands out the command of the next committed entry, to be applied: each one once, in their order.
    pub fn next_committed(&mut self) -> Result<Option<Shared<Command>>, Memory>
        ensures next { IfOk result (λ next. next ≡ next_of self.old) }
        ensures handed { IfOk result (λ next. self.new ≡ handed self.old next) }
        ensures memory { OnErr result (self.new ≡ self.old) }
    {
        if self.applied >= self.node.commit() {
            return Ok(None);
        }
        let Some(entry) = self.node.entry(self.applied + 1) else {
            return Ok(None);
        };
        let command = entry.command.share()?;
        self.applied += 1;
        Ok(Some(command))
    }

    /// The number of this server, from 1.
    pub fn id(&self) -> u32
        ensures { result ≡ self.now.node.id }
    {
        self.node.id()
    }

    /// How many servers the cluster has.
    pub fn servers(&self) -> u32
        ensures { result ≡ self.now.node.servers }
    {
        self.node.servers()
    }

    /// How the node stands.
    pub fn status(&self) -> Status
        ensures { result ≡ status_of self.now }
    {
        Status {
            role: self.node.role(),
            term: self.node.term(),
            leader: self.node.leader(),
            last: self.node.last(),
            commit: self.node.commit(),
            applied: self.applied,
            lost: self.outbox.lost(),
        }
    }
}

// Whether one of the messages grants a vote.
fn has_grant(sent: &[Sent]) -> bool
    ensures { result ≡ has_grant sent.now }
{
    sent.iter().any(|one| grants(&one.message))
}

fn grants(message: &Message) -> bool
    ensures { result ≡ grants message.now }
{
    match message {
        Message::Vote { granted, .. } => *granted,
        _ => false,
    }
}
