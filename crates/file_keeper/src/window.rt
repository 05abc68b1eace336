//! The part of a journal that is in memory.

ghost use Rattle.std.specs.Prelude.{◌≡◌, ◌+◌, ◌≤◌, length, IfOk, OnErr, IsErrOf, OnOk};
ghost use Rattle.std.specs.Option.{ForSome};
ghost use Rattle.outside.specs.Causes.{Rose};
ghost use Rattle.file_keeper.specs.Journal.{IsNext};

use cat_model::Memory;
use server_journal::Journal;
use std::alloc::{AllocError, AllocFailed, Global};

/// Why a journal was not read.
#[derive(Clone, Copy, Debug, PartialEq, Eq)]
pub enum Unread {
    /// The journal failed.
    Failed,
    /// The bytes are no journal.
    Other,
    Memory,
}

impl From<Memory> for Unread {
    ghost use Rattle.file_keeper.specs.declared.window.Unread.TheVariants as causes;

    ghost from_gives = { λ _ e. e ≡ causes.Memory };

    fn from(_: Memory) -> Unread {
        Unread::Memory
    }
}

impl From<AllocError> for Unread {
    ghost use Rattle.file_keeper.specs.declared.window.Unread.TheVariants as causes;

    ghost from_gives = { λ _ e. e ≡ causes.Memory };

    fn from(_: AllocError) -> Unread {
        Unread::Memory
    }
}

impl<T: Drop> From<AllocFailed<T>> for Unread {
    ghost use Rattle.file_keeper.specs.declared.window.Unread.TheVariants as causes;

    ghost from_gives = { λ _ e. e ≡ causes.Memory };

    fn from(_: AllocFailed<T>) -> Unread {
        Unread::Memory
    }
}

// A window grows by at least so many bytes.
const LEAST_ROOM: usize = 65_536;

/// The rest of a window with more bytes of the journal behind it, as many again at most.
pub fn next_window<J: Journal>(
    alloc: Global,
    journal: &mut J,
    at: u64,
    rest: &[u8],
) -> Result<Vec<u8>, Unread>
    ensures ok { IfOk result (λ next. ForSome (J.bytes journal.old) (λ bytes. IsNext bytes at rest.now next.items)) }
    ensures longer { IfOk result (λ next. length rest.now ≤ length next.items) }
    ensures same { J.bytes journal.new ≡ J.bytes journal.old }
    ensures quiet { OnOk result (J.faults journal.new ≡ J.faults journal.old) }
    ensures failed { IsErrOf result Unread.Failed → Rose (J.faults journal.old) (J.faults journal.new) }
    ensures memory { IsErrOf result Unread.Memory → J.faults journal.new ≡ J.faults journal.old }
    ensures later { J.faults journal.old ≤ J.faults journal.new }
    ensures one { J.faults journal.new ≤ J.faults journal.old + 1 }
    ensures not_other { IsErrOf result Unread.Other → ⊥ }
{
    let room = rest.len().max(LEAST_ROOM);
    let mut more = vec![in alloc; 0u8; room]?;
    let mut next = Vec::from_slice(alloc, rest)?;
    let Ok(count) = journal.read(at, more.as_mut_slice()) else {
        return Err(Unread::Failed);
    };
    next.extend_from_slice(&more[..count])?;
    Ok(next)
}
