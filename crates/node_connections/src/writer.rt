//! Writing whole pieces to a link.

ghost use Rattle.std.specs.Prelude.{◌≡◌, ◌<◌, ◌≤◌, false, Ok, IfErr, IfOk, MatchResult, Some, length, take};
ghost use Rattle.std.specs.Option.{ForSome};
ghost use Rattle.std.specs.Io.KnownBytes.{append_known};
ghost use Rattle.peer_frames.specs.Spelling.{frame_bytes};
ghost use Rattle.node_connections.specs.Serving.{answer_bytes};
ghost use Rattle.node_connections.specs.Stages.{IsAfterWrite, StopsBy, Wrote};
ghost use Rattle.node_connections.specs.Turning.{IsReply};

use crate::cause::PeerCause;
use cat_model::{Bytes, Memory};
use outside::KeepFail;
use peer_frames::{Frame, write_frame};
use serve_outside::Link;
use std::alloc::Global;

// Writes the first bytes of a piece that is not empty, and says how many.
#[tactic(auto, using(crate::proofs::Written::after_of, crate::proofs::Written::said_same))]
fn write_some<L: Link>(link: &mut L, piece: &[u8]) -> Result<usize, PeerCause>
    requires some { 0 < length piece.now }
    requires unshut { (L.state link.old).shut ≡ false }
    ensures some { IfOk result (λ count. 0 < count) }
    ensures most { IfOk result (λ count. count ≤ length piece.now) }
    ensures said { MatchResult result
        (λ count. (L.state link.new).said ≡ append_known (L.state link.old).said (take count piece.now))
        (λ _. (L.state link.new).said ≡ (L.state link.old).said) }
    ensures stopped { IfErr result (λ why. StopsBy why (L.state link.old).write_faults (L.state link.new).write_faults) }
    ensures after { IsAfterWrite (L.state link.old) (L.state link.new) }
{
    match link.write(piece) {
        Ok(0) => Err(PeerCause::WriteFault),
        Ok(count) => Ok(count),
        Err(KeepFail::Failed) => Err(PeerCause::WriteFault),
        Err(KeepFail::Memory) => Err(PeerCause::Memory),
    }
}

// Writes a whole piece, in as many calls as it takes.
fn write_whole<L: Link>(link: &mut L, piece: &[u8]) -> Result<(), PeerCause>
    requires unshut { (L.state link.old).shut ≡ false }
    ensures { Wrote (L.state link.old) piece.now result (L.state link.new) }
{
    let mut done = 0;
    while done < piece.len() {
        match write_some(link, &piece[done..]) {
            Ok(count) => done += count,
            Err(why) => return Err(why),
        }
    }
    Ok(())
}

// The bytes of an answer.
#[tactic(auto, using(crate::proofs::Replies::reply_short))]
fn bytes_of(alloc: Global, frame: &Frame) -> Result<Bytes, Memory>
    requires { IsReply frame.now }
    ensures { IfOk result (λ bytes. bytes ≡ frame_bytes frame.now) }
{
    let mut bytes = Bytes::from(Vec::new(alloc));
    write_frame(alloc, frame, &mut bytes)?;
    Ok(bytes)
}

// Writes a frame, its bytes in one piece.
#[tactic(auto, using(crate::proofs::Written::wrote_none))]
fn write_answer<L: Link>(link: &mut L, alloc: Global, frame: &Frame) -> Result<(), PeerCause>
    requires reply { IsReply frame.now }
    requires unshut { (L.state link.old).shut ≡ false }
    ensures { Wrote (L.state link.old) (frame_bytes frame.now) result (L.state link.new) }
{
    match bytes_of(alloc, frame) {
        Ok(bytes) => write_whole(link, bytes.as_slice()),
        Err(Memory) => Err(PeerCause::Memory),
    }
}

/// Writes what a frame is answered, if anything.
#[tactic(auto, using(crate::proofs::Written::wrote_nothing))]
pub(crate) fn send_answer<L: Link>(
    link: &mut L,
    alloc: Global,
    answer: &Option<Frame>,
) -> Result<(), PeerCause>
    requires reply { ForSome answer.now IsReply }
    requires unshut { (L.state link.old).shut ≡ false }
    ensures { Wrote (L.state link.old) (answer_bytes (Ok answer.now)) result (L.state link.new) }
{
    match answer {
        Some(frame) => write_answer(link, alloc, frame),
        None => Ok(()),
    }
}
