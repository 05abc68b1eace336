//! The election timeouts and heartbeats of a host.

ghost use Rattle.std.specs.Prelude.{◌≡◌, ◌+◌, ◌-◌, ◌%◌};
ghost use Rattle.node_service.specs.Alarms.{IsDone, Rings, heard, is_due, is_from_leader, is_known, set_at, wait_of};

use cat_model::{Memory, Role};
use node_link::Host;
use outside::Keeper;
use peer_frames::Frame;
use raft_model::Message;
use std::alloc::Global;

// How often a leader sends heartbeats.
const HEARTBEAT_MS: u64 = 100;

// An election timeout is at least so long, and less than twice as long.
const ELECTION_MS: u64 = 300;

/// When a host is to do something by itself: a leader sends heartbeats, and any other server stands for election where
/// it has long heard nothing of a leader. It is set when it is made, when it rings, when the leader is heard, and when a
/// vote is granted. Times are milliseconds of one clock.
#[derive(Clone, Copy, Debug, PartialEq, Eq)]
pub struct Alarm {
    since_ms: u64,
    election_ms: u64,
}

impl Alarm {
    /// The alarm of a host that starts now: its first election timeout is the shortest.
    pub fn new(now_ms: u64) -> Alarm
        ensures { result ≡ set_at now_ms 0 }
    {
        Alarm::set_at(now_ms, 0)
    }

    fn set_at(now_ms: u64, word: u64) -> Alarm
        ensures { result ≡ set_at now_ms word }
    {
        Alarm {
            since_ms: now_ms,
            election_ms: ELECTION_MS + word % ELECTION_MS,
        }
    }

    fn is_due(&self, role: Role, now_ms: u64) -> bool
        ensures { result ≡ is_due self.now role now_ms }
    {
        let wait_ms = match role {
            Role::Leader => HEARTBEAT_MS,
            Role::Candidate | Role::Follower => self.election_ms,
        };
        wait_ms <= now_ms.saturating_sub(self.since_ms)
    }

    /// A leader's heartbeat or another's election timeout, if that is due. The word is a random one.
    pub fn tick<K: Keeper + Drop>(
        &mut self,
        host: &mut Host<K>,
        alloc: Global,
        now_ms: u64,
        word: u64,
    ) -> Result<(), Memory>
        ensures { Rings (is_due self.old host.old.node.role now_ms) self.old host.old now_ms word result self.new host.new }
    {
        let role = host.status().role;
        if !self.is_due(role, now_ms) {
            return Ok(());
        }
        *self = Alarm::set_at(now_ms, word);
        match role {
            Role::Leader => host.beat(alloc),
            Role::Candidate | Role::Follower => host.timeout(alloc),
        }
    }

    /// Takes note of a frame that the host has received: where the leader sent it, or the host granted a vote, the
    /// election timeout begins anew.
    pub fn hear<K: Keeper + Drop>(
        &mut self,
        host: &Host<K>,
        frame: &Frame,
        granted: bool,
        now_ms: u64,
        word: u64,
    )
        ensures { self.new ≡ heard host.now frame.now granted now_ms word self.old }
    {
        if granted || is_from_leader(host, frame) {
            *self = Alarm::set_at(self.since_ms.max(now_ms), word);
        }
    }
}

// Whether the frame is an Append of the host's term by the leader that it knows.
fn is_from_leader<K: Keeper + Drop>(host: &Host<K>, frame: &Frame) -> bool
    ensures { result ≡ is_from_leader host.now frame.now }
{
    let Frame::Peer {
        sender,
        message: Message::Append { term, .. },
    } = frame
    else {
        return false;
    };
    let status = host.status();
    *term == status.term && is_known(status.leader, *sender)
}

fn is_known(leader: Option<u32>, server: u32) -> bool
    ensures { result ≡ is_known leader server }
{
    match leader {
        None => false,
        Some(leader) => leader == server,
    }
}
