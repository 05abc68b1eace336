ghost use Rattle.std.specs.Prelude.{◌≡◌, ◌<◌, ◌≤◌, IfOk, OnOk, OnErr, MatchResult, length};
ghost use Rattle.std.specs.Io.KnownBytes.{Appends, WriteAppends};
ghost use Rattle.script_player.specs.Run.{WritesPart};
ghost use Rattle.script_player.specs.Stage.{CountsWrite};

use outside::{KeepFail, Sink};

/// Writes a whole piece, or a first part of it.
#[tactic(auto, using(crate::proofs::Written::part_kept))]
pub fn write_all<Si: Sink>(sink: &mut Si, piece: &[u8]) -> Result<(), KeepFail>
    ensures bytes { OnOk result (Appends (Si.held sink.old) (Si.held sink.new) piece.now) }
    ensures part { OnErr result (WritesPart (Si.held sink.old) (Si.held sink.new) piece.now) }
    ensures cause { MatchResult result (λ _. Si.faults sink.new ≡ Si.faults sink.old) (λ fail. CountsWrite fail (Si.faults sink.old) (Si.faults sink.new)) }
{
    let mut done = 0;
    while done < piece.len() {
        match write_some(sink, &piece[done..]) {
            Ok(count) => done += count,
            Err(fail) => return Err(fail),
        }
    }
    Ok(())
}

// Writes the first bytes of a piece that isn't empty, and says how many.
#[tactic(auto, using(crate::proofs::Written::keeps_of_nothing))]
fn write_some<Si: Sink>(sink: &mut Si, piece: &[u8]) -> Result<usize, KeepFail>
    requires { 0 < length piece.now }
    ensures some { IfOk result (λ count. 0 < count) }
    ensures most { IfOk result (λ count. count ≤ length piece.now) }
    ensures bytes { WriteAppends (Si.held sink.old) (Si.held sink.new) result piece.now }
    ensures cause { MatchResult result (λ _. Si.faults sink.new ≡ Si.faults sink.old) (λ fail. CountsWrite fail (Si.faults sink.old) (Si.faults sink.new)) }
{
    match sink.write(piece) {
        Ok(0) => Err(KeepFail::Failed),
        Ok(count) => Ok(count),
        Err(fail) => Err(fail),
    }
}
