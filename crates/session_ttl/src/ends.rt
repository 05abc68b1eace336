//! Sessions whose end is to be proposed.

ghost use Rattle.std.specs.Prelude.{◌≡◌, map, IfOk, OnOk};
ghost use Rattle.cluster_rules.specs.Offices.{sorted_by};
ghost use Rattle.session_ttl.specs.Endings.{create_of, ending_in, over_in};

use cat_model::Memory;
use std::alloc::Global;

/// A session whose end is to be proposed: its identifier, and the position of the log at which it was made.
#[derive(Clone, Copy, Debug, PartialEq, Eq)]
pub struct Ending {
    pub id: u128,
    pub create: u64,
}

/// A session that is over, with the clock at which it was, in milliseconds.
#[derive(Clone, Copy)]
pub(crate) struct Overdue {
    pub(crate) over_at: u128,
    pub(crate) ending: Ending,
}

/// Puts those first that were over first. Others stay in their order.
pub(crate) fn sort(overdue: &mut Vec<Overdue>) -> Result<(), Memory>
    ensures { OnOk result (overdue.new.items ≡ sorted_by over_in overdue.old.items) }
{
    overdue.sort_by_key(|o| o.over_at)?;
    Ok(())
}

/// The sessions alone.
pub(crate) fn endings(alloc: Global, overdue: &[Overdue]) -> Result<Vec<Ending>, Memory>
    ensures { IfOk result (λ v. v.items ≡ map ending_in overdue.now) }
{
    Ok(overdue.iter().map(|o| o.ending).collect(alloc)?)
}

/// The positions at which they were made.
pub(crate) fn positions(alloc: Global, endings: &[Ending]) -> Result<Vec<u64>, Memory>
    ensures { IfOk result (λ v. v.items ≡ map create_of endings.now) }
{
    Ok(endings.iter().map(|e| e.create).collect(alloc)?)
}
