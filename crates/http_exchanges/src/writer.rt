//! Writing whole pieces to a link.

ghost use Rattle.std.specs.Prelude.{◌≡◌, ◌<◌, ◌≤◌, false, true, IfErr, IfOk, MatchResult, OnErr, length, option_map, take};
ghost use Rattle.std.specs.Io.KnownBytes.{append_known};
ghost use Rattle.filter_expr.specs.Expressions.{expression_of};
ghost use Rattle.http_routes.specs.Filters.{filter_at};
ghost use Rattle.http_wire.specs.Replies.{continue_bytes};
ghost use Rattle.http_wire.specs.Reader.{raw};
ghost use Rattle.http_wire.specs.Rejections as rejections;
ghost use Rattle.http_exchanges.specs.Replies as spec;
ghost use Rattle.http_exchanges.specs.Serving.{answer_bytes as answer_to};
ghost use Rattle.http_exchanges.specs.Stages.{IsAfterWrite, StopsBy, Wrote};

use crate::cause::Cause;
use crate::replies::{Response, answer_bytes, refusing, text_of};
use cat_model::{Bytes, Memory, Refusal};
use cluster_requests::Reply;
use http_wire::{RawRequest, Rejection, write_continue};
use outside::KeepFail;
use serve_outside::Link;
use std::alloc::Global;

// Writes the first bytes of a piece that is not empty, and says how many.
#[tactic(auto, using(crate::proofs::Written::after_of, crate::proofs::Written::said_same))]
fn write_some<L: Link>(link: &mut L, piece: &[u8]) -> Result<usize, Cause>
    requires some { 0 < length piece.now }
    requires unshut { (L.state link.old).shut ≡ false }
    ensures some { IfOk result (λ count. 0 < count) }
    ensures most { IfOk result (λ count. count ≤ length piece.now) }
    ensures said { MatchResult result
        (λ count. (L.state link.new).said ≡ append_known (L.state link.old).said (take count piece.now))
        (λ _. (L.state link.new).said ≡ (L.state link.old).said) }
    ensures stopped { IfErr result (λ why. StopsBy why (L.state link.old).write_faults (L.state link.new).write_faults) }
    ensures after { IsAfterWrite (L.state link.old) (L.state link.new) }
{
    match link.write(piece) {
        Ok(0) => Err(Cause::WriteFault),
        Ok(count) => Ok(count),
        Err(KeepFail::Failed) => Err(Cause::WriteFault),
        Err(KeepFail::Memory) => Err(Cause::Memory),
    }
}

/// Writes a whole piece, in as many calls as it takes.
pub(crate) fn write_whole<L: Link>(link: &mut L, piece: &[u8]) -> Result<(), Cause>
    requires unshut { (L.state link.old).shut ≡ false }
    ensures { Wrote (L.state link.old) piece.now result (L.state link.new) }
{
    let mut done = 0;
    while done < piece.len() {
        match write_some(link, &piece[done..]) {
            Ok(count) => done += count,
            Err(why) => return Err(why),
        }
    }
    Ok(())
}

// Writes a reply that is no answer to a request, its bytes in one piece.
#[tactic(auto, using(crate::proofs::Written::wrote_none))]
fn send<L: Link>(link: &mut L, alloc: Global, reply: &Reply, close: bool) -> Result<(), Cause>
    requires unshut { (L.state link.old).shut ≡ false }
    ensures { Wrote (L.state link.old) (spec.text_of reply.now close) result (L.state link.new) }
{
    match text_of(alloc, reply, close) {
        Ok(text) => write_whole(link, text.as_slice()),
        Err(Memory) => Err(Cause::Memory),
    }
}

/// Writes the reply to a request, its bytes in one piece.
#[tactic(auto, using(crate::proofs::Written::wrote_none))]
pub(crate) fn send_answer<L: Link>(
    link: &mut L,
    alloc: Global,
    message: &RawRequest,
    response: &Response,
) -> Result<(), Cause>
    requires unshut { (L.state link.old).shut ≡ false }
    requires filter { option_map expression_of response.now.filter ≡ filter_at (raw message.now).target }
    ensures { Wrote (L.state link.old) (answer_to (raw message.now) response.now.reply) result (L.state link.new) }
{
    match answer_bytes(alloc, message, response) {
        Ok(text) => write_whole(link, text.as_slice()),
        Err(Memory) => Err(Cause::Memory),
    }
}

/// Writes that the client may go on with the body of its request.
#[tactic(auto, using(crate::proofs::Written::wrote_none))]
pub(crate) fn send_continue<L: Link>(link: &mut L, alloc: Global) -> Result<(), Cause>
    requires unshut { (L.state link.old).shut ≡ false }
    ensures { Wrote (L.state link.old) continue_bytes result (L.state link.new) }
{
    match continue_text(alloc) {
        Ok(text) => write_whole(link, text.as_slice()),
        Err(Memory) => Err(Cause::Memory),
    }
}

fn continue_text(alloc: Global) -> Result<Bytes, Memory>
    ensures { IfOk result (λ text. text ≡ continue_bytes) }
{
    let mut text = Bytes::new(alloc, b"")?;
    write_continue(&mut text)?;
    Ok(text)
}

/// Writes a refusal, behind which the connection ends.
#[tactic(auto, using(crate::proofs::Written::wrote_none))]
pub fn send_refusing<L: Link>(link: &mut L, alloc: Global, why: Refusal) -> Result<(), Cause>
    requires unshut { (L.state link.old).shut ≡ false }
    ensures { Wrote (L.state link.old) (spec.text_of (spec.refusing why) true) result (L.state link.new) }
{
    match refusing(why) {
        Ok(reply) => {
            let sent = send(link, alloc, &reply, true);
            drop(reply);
            sent
        }
        Err(Memory) => Err(Cause::Memory),
    }
}

/// Writes the reply to bytes that are refused, behind which the connection ends.
#[tactic(auto, using(crate::proofs::Written::wrote_none))]
pub(crate) fn send_refusal<L: Link>(
    link: &mut L,
    alloc: Global,
    why: Rejection,
) -> Result<(), Cause>
    requires unshut { (L.state link.old).shut ≡ false }
    ensures { Wrote (L.state link.old) (spec.text_of (spec.refusing (rejections.answer_to why)) true) result (L.state link.new) }
{
    match why.refusal(alloc) {
        Ok(refusal) => send_refusing(link, alloc, refusal),
        Err(Memory) => Err(Cause::Memory),
    }
}
