//! The log that is agreed.

ghost use Rattle.std.specs.Prelude.{◌≡◌, IfOk, OnErr, OnOk};
ghost use Rattle.raft_world.specs.Agreeing.{IsWithin, count_of, grown, left};

use cat_model::{Entry, List, Memory};
use std::alloc::Global;

/// The agreed log, the longest list that a server has committed.
#[derive(Drop)]
pub enum Agreed {
    /// A list of its own, from when the server that had it restarted.
    Kept(List<Entry>),
    /// The first so many entries of a server's log, which it has committed and so does not change.
    Committed { at: usize, count: usize },
}

// A copy of these entries.
fn copied(alloc: Global, entries: &[Entry]) -> Result<List<Entry>, Memory>
    ensures { IfOk result (λ copy. copy ≡ entries.now) }
{
    let copy = Vec::from_clones(alloc, entries)?;
    Ok(List::from(copy))
}

impl Agreed {
    /// How many entries are agreed.
    pub fn len(&self) -> usize
        ensures { result ≡ count_of self.now }
    {
        match self {
            Agreed::Kept(entries) => entries.len(),
            Agreed::Committed { count, .. } => *count,
        }
    }

    /// The server at this place has committed so many entries.
    pub fn grow(&mut self, at: usize, count: usize)
        ensures { self.new ≡ grown self.old at count }
    {
        if self.len() < count {
            *self = Agreed::Committed { at, count };
        }
    }

    /// The server at this place is to begin again: what is agreed is copied from its log, where it stands there.
    pub fn leave(&mut self, alloc: Global, at: usize, log: &[Entry]) -> Result<(), Memory>
        requires { IsWithin self.old at log.now }
        ensures ok { OnOk result (self.new ≡ left self.old at log.now) }
        ensures err { OnErr result (self.new ≡ self.old) }
    {
        match self {
            Agreed::Committed { at: place, count } if *place == at => {
                let entries = copied(alloc, &log[..*count])?;
                *self = Agreed::Kept(entries);
                Ok(())
            }
            _ => Ok(()),
        }
    }
}
