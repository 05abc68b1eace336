ghost use Rattle.std.specs.Prelude.{◌≡◌, ℕ, Bool, Option, IfOk};
ghost use Rattle.std.specs.Option.{ForSome};
ghost use Rattle.cat_model.specs.declared.kept.Kept.{Kept};
ghost use Rattle.outside.specs.Keepers.{with_vote, with_entries, MayStore, Tells, Changes, FailsWhereArmed, KeepHasCause, CountsDown};

use crate::KeepFail;
use cat_model::{Entry, Kept, List};
use std::alloc::Global;

/// A durable store of one server. After a failed call it holds the old contents or the new, and after one that found
/// no memory the old.
pub trait Keeper {
    /// What it holds, where the object tells it.
    ghost held: { Self → Option Kept };

    /// How often a call has failed.
    ghost faults: { Self → ℕ };

    /// The number of calls up to the one that is to fail, or 0 where none is.
    ghost armed: { Self → ℕ };

    /// Whether it fails only where it is armed, and then holds what it held.
    ghost sure: { Self → Bool };

    /// All that it holds.
    fn load(&mut self, alloc: Global) -> Result<Kept, KeepFail>
        ensures told { IfOk result (Tells (held self.old)) }
        ensures held { held self.new ≡ held self.old }
        ensures cause { KeepHasCause (faults self.old) (faults self.new) result }
        ensures armed { CountsDown (armed self.old) (armed self.new) result }
        ensures asked { FailsWhereArmed (sure self.old) (armed self.old) (held self.old) (held self.new) result }
        ensures sure { sure self.new ≡ sure self.old };

    /// Replaces term and vote.
    fn save_vote(&mut self, alloc: Global, term: u64, vote: Option<u32>) -> Result<(), KeepFail>
        ensures held { Changes (with_vote term vote) (held self.old) (held self.new) result }
        ensures cause { KeepHasCause (faults self.old) (faults self.new) result }
        ensures armed { CountsDown (armed self.old) (armed self.new) result }
        ensures asked { FailsWhereArmed (sure self.old) (armed self.old) (held self.old) (held self.new) result }
        ensures sure { sure self.new ≡ sure self.old };

    /// Drops the entries from `index` on, counted from 1, and appends these.
    fn store_from(
        &mut self,
        alloc: Global,
        index: u64,
        entries: &List<Entry>,
    ) -> Result<(), KeepFail>
        requires { ForSome (held self.old) (MayStore index entries.now) }
        ensures held { Changes (with_entries index entries.now) (held self.old) (held self.new) result }
        ensures cause { KeepHasCause (faults self.old) (faults self.new) result }
        ensures armed { CountsDown (armed self.old) (armed self.new) result }
        ensures asked { FailsWhereArmed (sure self.old) (armed self.old) (held self.old) (held self.new) result }
        ensures sure { sure self.new ≡ sure self.old };

    /// Makes the `nth` call of the three above from now on fail, in place of what was armed before, or none where that
    /// is 0. It takes no memory.
    fn fail_at(&mut self, nth: u32)
        ensures held { held self.new ≡ held self.old }
        ensures faults { faults self.new ≡ faults self.old }
        ensures armed { armed self.new ≡ nth }
        ensures sure { sure self.new ≡ sure self.old };
}
