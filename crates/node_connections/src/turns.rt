//! Turns over the process that connections share.

ghost use Rattle.std.specs.Prelude.{◌≡◌, IfOk};
ghost use Rattle.std.specs.Option.{ForSome};
ghost use Rattle.peer_frames.specs.declared.frame.Peers.{Peers as SpecPeers};
ghost use Rattle.peer_frames.specs.Spelling.{Accepts};
ghost use Rattle.node_connections.specs.Boards.{IsOurs, MayHandIn, Sees, known};
ghost use Rattle.node_connections.specs.Journals.{IsOf, IsTold};
ghost use Rattle.node_connections.specs.Turning.{IsReply};

use crate::shared::SharedNode;
use cat_model::Memory;
use node_service::Dialer;
use outside::Keeper;
use peer_frames::Frame;
use std::alloc::Global;
use std::sync::Wait;
use turn_lock::{HistoryLock, Pass};

/// The lock by which connections share the process of a node in turns.
pub type PeerBoard<K, D> = HistoryLock<SharedNode<K, D>>;

/// Takes a turn in which what is due at this time is done and what waits is sent. The word is a random one.
pub fn keep_time<R: Wait, K: Keeper + Drop, D: Dialer>(
    rt: &R,
    alloc: Global,
    board: &PeerBoard<K, D>,
    pass: &mut Pass<SharedNode<K, D>>,
    now_ms: u64,
    word: u64,
)
    requires ours { IsOurs board.now pass.old }
    ensures ours { IsOurs board.now pass.new × (pass.new.shares ≡ pass.old.shares) }
    ensures sees { Sees (known pass.old) (known pass.new) }
    ensures told { IsTold D.state (known pass.new).seen }
{
    let mut turn = board.take(rt, pass);
    let shared = turn.state();
    shared.keep_time(alloc, now_ms, word);
    shared.is_told();
    board.give(turn, pass);
}

/// Hands a frame in, by a turn in which what is due at this time is done before it, and what waits is sent behind it.
/// Gives what is to be answered on the link that brought the frame.
pub fn hand_in<R: Wait, K: Keeper + Drop, D: Dialer>(
    rt: &R,
    alloc: Global,
    board: &PeerBoard<K, D>,
    pass: &mut Pass<SharedNode<K, D>>,
    now_ms: u64,
    word: u64,
    frame: &Frame,
) -> Result<Option<Frame>, Memory>
    requires ours { IsOurs board.now pass.old }
    requires accepts { (peers : SpecPeers) × IsOf peers (known pass.old).seen × Accepts peers frame.now }
    ensures ours { IsOurs board.now pass.new × (pass.new.shares ≡ pass.old.shares) }
    ensures handed { MayHandIn frame.now result (known pass.old) (known pass.new) }
    ensures reply { IfOk result (λ answer. ForSome answer IsReply) }
    ensures told { IsTold D.state (known pass.new).seen }
{
    let mut turn = board.take(rt, pass);
    let shared = turn.state();
    let answer = shared.take_frame(alloc, now_ms, word, frame);
    shared.is_told();
    board.give(turn, pass);
    answer
}
