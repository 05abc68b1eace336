//! The process of one node.

ghost use Rattle.std.specs.Prelude.{◌≡◌, [], None, IfErr, IfOk, OnErr, OnOk};
ghost use Rattle.std.specs.Option.{ForSome};
ghost use Rattle.raft_node.specs.Nodes.{KeepsLimits};
ghost use Rattle.raft_node.specs.Steps.{FailsToLoad, stored};
ghost use Rattle.node_link.specs.Hosts.{Begins, handed, next_of};
ghost use Rattle.peer_frames.specs.Spelling.{Accepts, ArePeers};
ghost use Rattle.node_service.specs.Alarms.{Rings, is_due, set_at};
ghost use Rattle.node_service.specs.Answering.{peers_of};
ghost use Rattle.node_service.specs.Processes.{TakesFrame};
ghost use Rattle.node_service.specs.Sending.{SendsAll, TakesAll, pieces_of};

use crate::alarm::Alarm;
use crate::answers::{Answer, answer_frame};
use crate::dialer::Dialer;
use crate::outbox::send_all;
use cat_model::{Command, Memory, Shared};
use node_link::Host;
use outside::{KeepFail, Keeper};
use peer_frames::{Frame, FrameReader};
use std::alloc::Global;
use std::marker::Model;

/// What the process of one Raft node is: the host of the node, in whose outbox the messages to its peers wait, and the
/// alarm for what it does by itself. Times are milliseconds of one clock, words are random ones.
#[derive(Drop)]
pub struct NodeProcess<K: Keeper> {
    host: Host<K>,
    alarm: Alarm,
}

impl<K: Keeper> Model for NodeProcess<K> {
    ghost use Rattle.peer_frames.specs.Spelling.{ArePeers};
    ghost use Rattle.node_service.specs.Answering.{peers_of};
    ghost use Rattle.node_service.specs.Processes.{Running};

    ghost Value = { Running };

    ghost view = { λ p. record { host = p.host; alarm = p.alarm } };

    ghost invariant = { λ p. ArePeers (peers_of p.host) };
}

impl<K: Keeper + Drop> NodeProcess<K> {
    /// Server `id`, from 1, of so many servers begins over its store. Where the store can't be read, it is handed back.
    pub fn start(
        alloc: Global,
        id: u32,
        servers: u32,
        keeper: K,
        now_ms: u64,
    ) -> Result<NodeProcess<K>, (K, KeepFail)>
        requires peers { ArePeers (record { id = id; servers = servers }) }
        requires store { ForSome (K.held keeper) KeepsLimits }
        ensures ok { IfOk result (λ p. Begins id servers (stored (K.held keeper) (K.armed keeper) (K.faults keeper) (K.sure keeper)) p.host × (p.alarm ≡ set_at now_ms 0)) }
        ensures err { IfErr result (λ why. FailsToLoad why.1 (stored (K.held keeper) (K.armed keeper) (K.faults keeper) (K.sure keeper)) (stored (K.held why.0) (K.armed why.0) (K.faults why.0) (K.sure why.0))) }
    {
        match Host::start(alloc, id, servers, keeper) {
            Ok(host) => Ok(NodeProcess {
                host,
                alarm: Alarm::new(now_ms),
            }),
            Err(why) => Err(why),
        }
    }

    /// A reader of the frames that come in on a link.
    pub fn reader(&self, alloc: Global) -> Result<FrameReader, Memory>
        ensures { IfOk result (λ reader. reader ≡ record { peers = peers_of self.now.host; passed = 0; held = []; stop = None }) }
    {
        FrameReader::new(alloc, self.host.id(), self.host.servers())
    }

    /// Takes a frame that came in and that such a reader accepted. Gives what is to be answered on the link that
    /// brought it. An Append of the leader, and a vote that is granted, put the election timeout off.
    pub fn take_frame(
        &mut self,
        alloc: Global,
        frame: &Frame,
        now_ms: u64,
        word: u64,
    ) -> Result<Option<Frame>, Memory>
        requires { Accepts (peers_of self.old.host) frame.now }
        ensures taken { TakesFrame self.old frame.now now_ms word result self.new }
        ensures peers { peers_of self.new.host ≡ peers_of self.old.host }
    {
        match answer_frame(&mut self.host, alloc, frame) {
            Ok(
                Answer {
                    frame: told,
                    granted,
                },
            ) => {
                self.alarm.hear(&self.host, frame, granted, now_ms, word);
                Ok(told)
            }
            Err(Memory) => {
                self.alarm.hear(&self.host, frame, false, now_ms, word);
                Err(Memory)
            }
        }
    }

    /// Does what is due at this time: a leader's heartbeat, or the election timeout of another.
    pub fn tick(&mut self, alloc: Global, now_ms: u64, word: u64) -> Result<(), Memory>
        ensures rings { Rings (is_due self.old.alarm self.old.host.node.role now_ms) self.old.alarm self.old.host now_ms word result self.new.alarm self.new.host }
        ensures peers { peers_of self.new.host ≡ peers_of self.old.host }
    {
        self.alarm.tick(&mut self.host, alloc, now_ms, word)
    }

    /// Takes all messages out of the outbox, and brings each as its frame to the port of its server: that of server 1 is
    /// the first of `ports`, and so on. A message whose sending fails is lost, as a network may lose it; the dialer counts
    /// that.
    pub fn send_all<D: Dialer>(
        &mut self,
        alloc: Global,
        dialer: &mut D,
        ports: &[u16],
    ) -> Result<(), Memory>
        ensures sent { SendsAll ports.now self.old.host (D.state dialer.old) result self.new.host (D.state dialer.new) }
        ensures taken { OnOk result (TakesAll (pieces_of ports.now self.old.host) (D.state dialer.old) (D.state dialer.new)) }
        ensures alarm { self.new.alarm ≡ self.old.alarm }
        ensures peers { peers_of self.new.host ≡ peers_of self.old.host }
    {
        send_all(&mut self.host, alloc, dialer, ports)
    }

    /// Hands out the command of the next committed entry, to be applied: each one once, in their order.
    pub fn next_committed(&mut self) -> Result<Option<Shared<Command>>, Memory>
        ensures next { IfOk result (λ next. next ≡ next_of self.old.host) }
        ensures handed { IfOk result (λ next. self.new.host ≡ handed self.old.host next) }
        ensures memory { OnErr result (self.new.host ≡ self.old.host) }
        ensures alarm { self.new.alarm ≡ self.old.alarm }
        ensures peers { peers_of self.new.host ≡ peers_of self.old.host }
    {
        self.host.next_committed()
    }

    /// The host, which tells how the node stands.
    pub fn host(&self) -> &Host<K>
        ensures { result.now ≡ self.now.host }
    {
        &self.host
    }
}
