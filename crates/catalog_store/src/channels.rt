//! Positions and channels of what changed.

ghost use Rattle.std.specs.Prelude.{◌≡◌, ◌++◌, ◌≤◌, IfOk, OnOk, map};
ghost use Rattle.touch_positions.specs.States.{table_position};
ghost use Rattle.catalog_store.specs.Registering.{one_if, touched_if};

use cat_model::{Chan, Freed, List, Memory};
use std::alloc::Global;
use touch_positions::{Table, TableIndex};

/// Marks the table where it changed.
pub(crate) fn touch_if(indexes: &mut TableIndex, changed: bool, table: Table, position: u64)
    requires { table_position table indexes.old.now ≤ position }
    ensures now { indexes.new.now ≡ touched_if changed table position indexes.old.now }
    ensures before { indexes.new.before ≡ indexes.old.before }
{
    if changed {
        indexes.touch(table, position);
    }
}

/// Puts the channel last where it fires.
pub(crate) fn push_if(chans: &mut List<Chan>, fires: bool, chan: Chan) -> Result<(), Memory>
    ensures { OnOk result (chans.new ≡ chans.old ++ one_if fires chan) }
{
    if fires {
        chans.push(chan)?;
    }
    Ok(())
}

/// The channels of these keys.
pub(crate) fn freed_chans(alloc: Global, freed: &[Freed]) -> Result<List<Chan>, Memory>
    ensures { IfOk result (λ l. l ≡ map (λ f. Chan.Key f.key) freed.now) }
{
    let mut chans = List::new(alloc);
    for f in freed {
        let chan = Chan::Key(f.key.clone()?);
        chans.push(chan)?;
    }
    Ok(chans)
}
