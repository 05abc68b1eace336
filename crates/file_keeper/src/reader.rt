//! A journal, read part by part.

ghost use Rattle.std.specs.Prelude.{◌≡◌, ◌+◌, ◌++◌, ◌≤◌, ℕ, List, None, Some, length, take, drop, IfOk, OnOk, IsErrOf};
ghost use Rattle.std.specs.Option.{ForSome};
ghost use Rattle.outside.specs.Causes.{Rose};
ghost use Rattle.store_records.specs.RecordReading.{AreBytes, IsCut};
ghost use Rattle.file_keeper.specs.Journal.{IsFound, IsWhole, Leads, kept_of, replay, held_by};

use crate::rebuilt::Rebuilt;
use crate::window::{Unread, next_window};
use cat_model::Kept;
use server_journal::Journal;
use std::alloc::Global;
use store_records::{RecordFault, read_record};

// Makes the calls of the records that stand whole at the front of the bytes, and says how many bytes these are.
fn make_all(alloc: Global, log: &mut Rebuilt, bytes: &[u8]) -> Result<usize, Unread>
    ensures within { IfOk result (λ used. used ≤ length bytes.now) }
    ensures leads { IfOk result (λ used. Leads log.old (take used bytes.now) log.new) }
    ensures cut { IfOk result (λ used. IsCut (drop used bytes.now)) }
    ensures other { IsErrOf result Unread.Other → (rest : List ℕ) → AreBytes rest → replay log.old (bytes.now ++ rest) ≡ None }
    ensures not_failed { IsErrOf result Unread.Failed → ⊥ }
{
    let mut used = 0;
    'records: loop {
        match read_record(alloc, &bytes[used..]) {
            Ok((call, size)) => {
                if !log.make(call)? {
                    return Err(Unread::Other);
                }
                used += size;
            }
            Err(RecordFault::Cut) => return Ok(used),
            Err(RecordFault::Bad { at: _at }) => return Err(Unread::Other),
            Err(RecordFault::Memory) => return Err(Unread::Memory),
        }
    }
}

// What a journal stands for.
#[derive(Drop)]
struct Found {
    kept: Kept,
    // Where its whole records end.
    end: u64,
    // Whether a record that is cut off stands behind them.
    tail: bool,
}

// Reads a journal, a part in memory at a time.
fn read_journal<J: Journal>(alloc: Global, journal: &mut J) -> Result<Found, Unread>
    ensures ok { IfOk result (λ found. ForSome (J.bytes journal.old) (λ bytes. IsFound bytes found.kept found.end found.tail)) }
    ensures other { IsErrOf result Unread.Other → ForSome (J.bytes journal.old) (λ bytes. kept_of bytes ≡ None) }
    ensures same { J.bytes journal.new ≡ J.bytes journal.old }
    ensures quiet { OnOk result (J.faults journal.new ≡ J.faults journal.old) }
    ensures quiet_other { IsErrOf result Unread.Other → J.faults journal.new ≡ J.faults journal.old }
    ensures quiet_memory { IsErrOf result Unread.Memory → J.faults journal.new ≡ J.faults journal.old }
    ensures failed { IsErrOf result Unread.Failed → Rose (J.faults journal.old) (J.faults journal.new) }
    ensures later { J.faults journal.old ≤ J.faults journal.new }
    ensures one { J.faults journal.new ≤ J.faults journal.old + 1 }
{
    let mut log = Rebuilt::new(alloc);
    let mut window = Vec::new(alloc);
    let mut at: u64 = 0;
    for _ in 0..u64::MAX {
        let used = make_all(alloc, &mut log, &window)?;
        let rest = window.len() - used;
        window = next_window(alloc, journal, at, &window[used..])?;
        let count = window.len() - rest;
        if count == 0 {
            let kept = log.into_kept();
            let end = at - rest as u64;
            let tail = rest > 0;
            return Ok(Found { kept, end, tail });
        }
        let Some(next) = at.checked_add(count as u64) else {
            // A journal that never ends needs more memory than there is.
            return Err(Unread::Memory);
        };
        at = next;
    }
    Err(Unread::Memory)
}

/// Reads a journal, and cuts off what stands behind its whole records.
pub fn open_journal<J: Journal>(alloc: Global, journal: &mut J) -> Result<Kept, Unread>
    ensures ok { IfOk result (λ kept. ForSome (J.bytes journal.old) (λ bytes. kept_of bytes ≡ Some kept)) }
    ensures whole { OnOk result (ForSome (J.bytes journal.new) IsWhole) }
    ensures other { IsErrOf result Unread.Other → ForSome (J.bytes journal.old) (λ bytes. kept_of bytes ≡ None) }
    ensures told { held_by (J.bytes journal.new) ≡ held_by (J.bytes journal.old) }
    ensures left { (bytes : List ℕ) → J.bytes journal.old ≡ Some bytes → kept_of bytes ≡ None → J.bytes journal.new ≡ Some bytes }
    ensures same_memory { IsErrOf result Unread.Memory → J.bytes journal.new ≡ J.bytes journal.old }
    ensures quiet { OnOk result (J.faults journal.new ≡ J.faults journal.old) }
    ensures quiet_other { IsErrOf result Unread.Other → J.faults journal.new ≡ J.faults journal.old }
    ensures quiet_memory { IsErrOf result Unread.Memory → J.faults journal.new ≡ J.faults journal.old }
    ensures failed { IsErrOf result Unread.Failed → Rose (J.faults journal.old) (J.faults journal.new) }
    ensures later { J.faults journal.old ≤ J.faults journal.new }
    ensures one { J.faults journal.new ≤ J.faults journal.old + 1 }
{
    let found = read_journal(alloc, journal)?;
    if found.tail && journal.cut(found.end).is_err() {
        return Err(Unread::Failed);
    }
    Ok(found.kept)
}
