//! Identifiers in their order, each once.

ghost use Rattle.std.specs.Prelude.{◌≡◌, ℕ, ◌||◌, IfOk, OnOk};
ghost use Rattle.std.specs.Ordering.{is_eq, nat_cmp};
ghost use Rattle.std.proofs.lemmas.Cmp.{nat_cmp_total};
ghost use Rattle.std.proofs.lemmas.Map.Lookups.{exact_unsigned};
ghost use Rattle.session_table.specs.Places.{has_id};

use cat_model::Memory;
use row_table::{Row, RowTable};
use std::alloc::Global;
use std::cmp::Ordering;
use std::marker::Model;

/// The identifier of a session.
#[derive(Drop)]
pub(crate) struct Id(pub(crate) u128);

impl Model for Id {
    ghost use Rattle.std.specs.Prelude.{ℕ};

    ghost Value = { ℕ };

    ghost view = { λ i. i.0 };
}

impl Row for Id {
    type Key = u128;

    ghost key = { λ i. i };

    ghost cmp = { nat_cmp };

    ghost total = { nat_cmp_total };

    ghost exact = { exact_unsigned };

    fn order(&self, other: &Id) -> Ordering {
        self.0.cmp(&other.0)
    }

    fn copy(&self) -> Result<Id, Memory> {
        Ok(Id(self.0))
    }
}

// Adds the identifier where it is not there.
fn add(ids: &mut RowTable<Id>, id: u128) -> Result<(), Memory>
    ensures { OnOk result ((k : ℕ) → has_id k ids.new.now ≡ (is_eq (nat_cmp k id) || has_id k ids.old.now)) }
{
    if let Err((_, memory)) = ids.set(Id(id)) {
        return Err(memory);
    }
    Ok(())
}

/// Adds those of these identifiers that are not there.
pub(crate) fn add_each(ids: &mut RowTable<Id>, more: &[u128]) -> Result<(), Memory>
    ensures { OnOk result ((k : ℕ) → has_id k ids.new.now ≡ (has_id k more.now || has_id k ids.old.now)) }
{
    for id in more {
        add(ids, *id)?;
    }
    Ok(())
}

/// The identifiers one after another.
pub(crate) fn listed(alloc: Global, ids: &RowTable<Id>) -> Result<Vec<u128>, Memory>
    ensures { IfOk result (λ v. v.items ≡ ids.now.now) }
{
    let mut found = Vec::new(alloc);
    for id in ids.rows() {
        found.push(id.0)?;
    }
    Ok(found)
}
