//! What the turns lend: the process of a node, what brings its frames to its peers, and its journal.

ghost use Rattle.std.specs.Prelude.{◌≡◌, IfOk};
ghost use Rattle.std.specs.Option.{ForSome};
ghost use Rattle.peer_frames.specs.Spelling.{Accepts};
ghost use Rattle.node_service.specs.Answering.{peers_of};
ghost use Rattle.node_connections.specs.Journals.{IsTold, opens, takes};
ghost use Rattle.node_connections.specs.Turning.{AddsFrame, AddsTurn, Begins, IsReply};

use crate::item::{Item, Taken};
use cat_model::Memory;
use http_server::Log;
use node_service::{Dialer, NodeProcess};
use outside::Keeper;
use peer_frames::Frame;
use std::alloc::Global;
use std::marker::Model;
use std::snapshot::Snapshot;
use turn_lock::History;

/// The process of a node with what brings its frames to its peers, which connections share by turns. Each frame that is
/// taken has a number, from 1.
#[derive(Drop)]
pub struct SharedNode<K: Keeper, D: Dialer> {
    process: NodeProcess<K>,
    dialer: D,
    // The port of each server, that of server 1 first.
    ports: Vec<u16>,
    // How many frames were taken.
    count: u64,
    journal: Log<Item<NodeProcess<K>, D>, ()>,
}

impl<K: Keeper, D: Dialer> Model for SharedNode<K, D> {
    ghost use Rattle.std.specs.Prelude.{map};
    ghost use Rattle.node_connections.specs.Journals.{IsShared, Shared};

    ghost Value = { Shared D };

    ghost view = { λ s. record { running = s.process; dialer = s.dialer; ports = s.ports.items; count = s.count; items = map (λ p. p.0) s.journal.items } };

    ghost invariant = { λ s. IsShared D.state (record { running = s.process; dialer = s.dialer; ports = s.ports.items; count = s.count; items = map (λ p. p.0) s.journal.items }) };
}

impl<K: Keeper, D: Dialer> History for SharedNode<K, D> {
    type Item = Item<NodeProcess<K>, D>;

    ghost items = { λ s. s.items };

    ghost opens = { opens };

    ghost takes = { takes };
}

impl<K: Keeper + Drop, D: Dialer> SharedNode<K, D> {
    /// The process as it stands, whose journal begins now.
    pub fn new(process: NodeProcess<K>, dialer: D, ports: Vec<u16>) -> SharedNode<K, D>
        ensures { Begins process dialer ports.items result }
    {
        let journal = Log::new().and(
            &Item::Began {
                process: Snapshot::of(&process),
                dialer: Snapshot::of(&dialer),
                ports: Snapshot::of(&ports),
            },
            &(),
        );
        SharedNode {
            process,
            dialer,
            ports,
            count: 0,
            journal,
        }
    }

    /// A law, which does nothing: the journal tells how the process stands, and Raft's rules allow what its node did.
    pub fn is_told(&self)
        ensures { IsTold D.state self.now.items }
    {
        self.process.host().is_told();
    }

    /// Does what is due at this time, and sends what waits. What finds no memory is done in a later turn.
    pub(crate) fn keep_time(&mut self, alloc: Global, now_ms: u64, word: u64)
        ensures { AddsTurn self.old.items self.new.items }
    {
        let due = self.process.tick(alloc, now_ms, word);
        let sent = self
            .process
            .send_all(alloc, &mut self.dialer, self.ports.as_slice());
        self.journal = self.journal.and(
            &Item::Turned {
                now_ms,
                word,
                due,
                taken: None,
                sent,
            },
            &(),
        );
    }

    /// Does what is due at this time, takes a frame, and sends what waits. Gives what is to be answered on the link that
    /// brought the frame.
    pub(crate) fn take_frame(
        &mut self,
        alloc: Global,
        now_ms: u64,
        word: u64,
        frame: &Frame,
    ) -> Result<Option<Frame>, Memory>
        requires { Accepts (peers_of self.old.running.host) frame.now }
        ensures taken { AddsFrame frame.now result self.old.items self.new.items }
        ensures reply { IfOk result (λ answer. ForSome answer IsReply) }
    {
        let Some(number) = self.count.checked_add(1) else {
            return Err(Memory);
        };
        let due = self.process.tick(alloc, now_ms, word);
        let answer = self.process.take_frame(alloc, frame, now_ms, word);
        let sent = self
            .process
            .send_all(alloc, &mut self.dialer, self.ports.as_slice());
        let taken = Taken {
            number,
            frame: Snapshot::of(frame),
            answer: Snapshot::of(&answer),
        };
        self.count = number;
        self.journal = self.journal.and(
            &Item::Turned {
                now_ms,
                word,
                due,
                taken: Some(taken),
                sent,
            },
            &(),
        );
        answer
    }
}
