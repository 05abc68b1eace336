//! What the bytes that have come of a frame say.

ghost use Rattle.std.specs.Prelude.{◌≡◌, ◌≤◌, ◌++◌, length};
ghost use Rattle.peer_frames.specs.Spelling.{ArePeers};
ghost use Rattle.peer_frames.specs.Fronts.{TellsBody};

use crate::bodies::read_body;
use crate::frame::{Frame, Peers};
use crate::limits::is_allowed;
use cat_model::Memory;
use command_codec::{Fault, ReadError};
use std::alloc::Global;

/// What the bytes that have come say.
#[derive(Debug, Drop)]
pub enum Judged {
    /// More bytes make a frame.
    More,
    Whole(Frame),
    /// With the byte at this place no bytes make a frame.
    Bad(usize),
}

/// What has come of a body of so many bytes.
pub fn judge_body(alloc: Global, peers: Peers, size: usize, body: &[u8]) -> Result<Judged, Memory>
    requires peers { ArePeers peers }
    requires from { 1 ≤ size }
    requires to { size ≤ 68157440 }
    requires within { length body.now ≤ size }
    ensures { TellsBody peers size body.now result }
{
    match read_body(alloc, peers, body) {
        Ok((frame, rest)) => {
            let read = body.len() - rest.len();
            if read == size && is_allowed(&frame) {
                return Ok(Judged::Whole(frame));
            }
            Ok(Judged::Bad(read - 1))
        }
        Err(ReadError::Memory) => Err(Memory),
        Err(ReadError::Fault(Fault::Cut)) => {
            if body.len() < size {
                return Ok(Judged::More);
            }
            Ok(Judged::Bad(size - 1))
        }
        Err(ReadError::Fault(Fault::Bad { left })) => Ok(Judged::Bad(body.len() - left)),
    }
}
