//! The question of a packet. RFC 1035, section 4.1.2.

ghost use Rattle.std.specs.Prelude.{◌≡◌, ◌<◌, ◌≤◌, ◌+◌, [], length, IfOk, IfSome};
ghost use Rattle.dns_service.specs.Names as spec;
ghost use Rattle.dns_service.specs.Names.{labels_in};
ghost use Rattle.dns_service.specs.Outcomes.{Gives};

use cat_model::{Bytes, List, Memory};
use std::alloc::Global;

/// A question: what is asked of which name.
#[derive(Debug, Drop)]
pub(crate) struct Question {
    /// The labels of the name, the last first.
    pub labels: List<Bytes>,
    pub kind: u16,
    pub class: u16,
    /// The question as it stands in the packet.
    pub bytes: Bytes,
}

/// A number of two bytes, the first the more significant.
pub(crate) fn number_at(at: usize, bytes: &[u8]) -> u16
    requires { at + 1 < length bytes.now }
    ensures { result ≡ spec.number_at at bytes.now }
{
    u16::from(bytes[at]) * 256 + u16::from(bytes[at + 1])
}

/// The labels of the name at the front, the last first, and the bytes behind it. There are so many lengths at most.
fn labels(alloc: Global, most: u32, bytes: &[u8]) -> Result<Option<(List<Bytes>, &[u8])>, Memory>
    ensures read { Gives (λ r. (r.0, r.1.now)) result (labels_in most [] bytes.now) }
    ensures within { IfOk result (λ found. IfSome found (λ r. length r.1.now ≤ length bytes.now)) }
{
    let mut found = Vec::new(alloc);
    let mut rest = bytes;
    let mut left = most;
    while left > 0 {
        let Some((first, more)) = rest.split_first() else {
            return Ok(None);
        };
        let size = usize::from(*first);
        if size == 0 {
            return Ok(Some((List::from(found), more)));
        }
        if size > 63 {
            return Ok(None);
        }
        if more.len() < size {
            return Ok(None);
        }
        found.insert(0, Bytes::new(alloc, &more[..size])?)?;
        rest = &more[size..];
        left -= 1;
    }
    Ok(None)
}

/// The question at the front.
#[tactic(auto, unfolding(crate::specs::Names::question_in))]
pub(crate) fn question_in(alloc: Global, bytes: &[u8]) -> Result<Option<Question>, Memory>
    ensures { Gives (λ q. q) result (spec.question_in bytes.now) }
{
    let Some((labels, rest)) = labels(alloc, 128, bytes)? else {
        return Ok(None);
    };
    let size = bytes.len() - rest.len();
    if size > 255 || rest.len() < 4 {
        return Ok(None);
    }
    Ok(Some(Question {
        labels,
        kind: number_at(0, rest),
        class: number_at(2, rest),
        bytes: Bytes::new(alloc, &bytes[..size + 4])?,
    }))
}
