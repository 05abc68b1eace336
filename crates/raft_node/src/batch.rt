ghost use Rattle.std.specs.Prelude.{◌≡◌, ◌≤◌, IfOk, length, take};
ghost use Rattle.raft_model.specs.Limits.{batch};

use cat_model::{Entry, List, Memory};
use command_codec::encoded_len;
use std::alloc::Global;

// An Append carries at most so many entries.
const MOST_ENTRIES: usize = 64;

// The commands of an Append that carries more than one entry have at most so many bytes.
const MOST_BYTES: u64 = 1_310_720;

/// How many of these entries one Append carries: the first, and after it at most 63 more while the command bytes of
/// all stay within the limit.
pub fn batch_length(entries: &[Entry]) -> usize
    ensures within { result ≤ length entries.now }
    ensures same { take result entries.now ≡ batch entries.now }
{
    if entries.is_empty() {
        return 0;
    }
    let mut total = encoded_len(&entries[0].command);
    let mut count = 1;
    while count < MOST_ENTRIES && count < entries.len() {
        total = total.saturating_add(encoded_len(&entries[count].command));
        if total > MOST_BYTES {
            return count;
        }
        count += 1;
    }
    count
}

/// A copy of these entries.
pub fn copied(alloc: Global, entries: &[Entry]) -> Result<List<Entry>, Memory>
    ensures { IfOk result (λ copy. copy ≡ entries.now) }
{
    let copy = Vec::from_clones(alloc, entries)?;
    Ok(List::from(copy))
}

/// The entries of these that one Append carries.
pub fn batch(alloc: Global, entries: &[Entry]) -> Result<List<Entry>, Memory>
    ensures { IfOk result (λ carried. carried ≡ batch entries.now) }
{
    copied(alloc, &entries[..batch_length(entries)])
}
