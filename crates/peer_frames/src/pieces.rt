//! What comes of a frame, piece after piece.

ghost use Rattle.std.specs.Prelude.{◌≡◌, ◌≤◌, ◌++◌, ◌-◌, length, take, min, IfOk, Ok};
ghost use Rattle.peer_frames.specs.Spelling.{ArePeers};
ghost use Rattle.peer_frames.specs.Fronts.{Gathers, IsHeld, MoreComes, Tells};

use crate::frame::Peers;
use crate::lengths::{Length, read_length};
use crate::verdicts::{Judged, judge_body};
use cat_model::Memory;
use std::alloc::Global;

// Adds to the bytes what is missing of them, and says how many bytes of the piece that took.
fn fill(bytes: &mut Vec<u8>, want: usize, piece: &[u8]) -> Result<usize, Memory>
    requires { length bytes.old.items ≤ want }
    ensures added { IfOk result (λ n. bytes.new.items ≡ bytes.old.items ++ take n piece.now) }
    ensures used { IfOk result (λ n. n ≡ min (want - length bytes.old.items) (length piece.now)) }
{
    let missing = want - bytes.len();
    let used = if missing < piece.len() {
        missing
    } else {
        piece.len()
    };
    bytes.extend_from_slice(&piece[..used])?;
    Ok(used)
}

/// Adds to what has come of a frame, its length and its body, and says how many bytes of the piece that took.
pub fn gather(head: &mut Vec<u8>, body: &mut Vec<u8>, piece: &[u8]) -> Result<usize, Memory>
    requires held { IsHeld head.old.items body.old.items }
    requires more { MoreComes head.old.items body.old.items }
    ensures { IfOk result (λ used. Gathers head.old.items body.old.items piece.now used head.new.items body.new.items) }
{
    let first = fill(head, 4, piece)?;
    match read_length(head.as_slice()) {
        Length::Whole(size) => {
            let second = fill(body, size as usize, &piece[first..])?;
            Ok(first + second)
        }
        _ => Ok(first),
    }
}

/// What has come of a frame, its length and its body.
pub fn judge(alloc: Global, peers: Peers, head: &[u8], body: &[u8]) -> Result<Judged, Memory>
    requires peers { ArePeers peers }
    requires held { IsHeld head.now body.now }
    ensures tells { Tells peers (head.now ++ body.now) result }
    ensures more { result ≡ Ok Judged.More → MoreComes head.now body.now }
{
    match read_length(head) {
        Length::Part => Ok(Judged::More),
        Length::Bad(at) => Ok(Judged::Bad(at)),
        Length::Whole(size) => match judge_body(alloc, peers, size as usize, body) {
            Err(_) => Err(Memory),
            Ok(Judged::More) => Ok(Judged::More),
            Ok(Judged::Whole(frame)) => Ok(Judged::Whole(frame)),
            Ok(Judged::Bad(at)) => Ok(Judged::Bad(4 + at)),
        },
    }
}
