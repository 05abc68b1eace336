//! Lists of rows that are looked at where they stand.

ghost use Rattle.std.specs.Prelude.{◌≡◌, ◌++◌, IfOk, OnOk};

use cat_model::Memory;
use row_table::Seen;
use std::alloc::Global;

/// Each of these rows.
pub fn all_seen<'a, R>(alloc: Global, rows: &'a [R]) -> Result<Vec<Seen<'a, R>>, Memory>
    ensures { IfOk result (λ v. v.items ≡ rows.now) }
{
    let mut all = Vec::new(alloc);
    for row in rows {
        all.push(Seen::new(row))?;
    }
    Ok(all)
}

/// Adds each of these rows.
pub(crate) fn add_all<'a, R>(
    found: &mut Vec<Seen<'a, R>>,
    rows: &[Seen<'a, R>],
) -> Result<(), Memory>
    ensures { OnOk result (found.new.items ≡ found.old.items ++ rows.now) }
{
    for row in rows {
        found.push(row.again())?;
    }
    Ok(())
}
