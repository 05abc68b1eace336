//! The queries that are bound to sessions, by session and then by identifier.

ghost use Rattle.std.specs.Prelude.{◌≡◌, IfOk, OnErr, OnOk, filter, map};
ghost use Rattle.std.specs.Ordering.{nat_cmp};
ghost use Rattle.std.proofs.lemmas.Cmp.{nat_cmp_total};
ghost use Rattle.std.proofs.lemmas.Map.Lookups.{exact_pairs, exact_unsigned};
ghost use Rattle.cat_model.proofs.Pairs.{both_total};
ghost use Rattle.cat_model.specs.Catalog.{query_key};
ghost use Rattle.cat_model.specs.Tables.{Ascends};
ghost use Rattle.row_table.specs.Filing.{filed_cmp, filed_key, filed, unfiled};
ghost use Rattle.query_table.specs.States.{is_bound_to};
ghost use Rattle.query_table.specs.Places.{FilesSessions};

use crate::named::NamedRows;
use cat_model::Memory;
use row_table::{Row, RowTable};
use std::alloc::Global;
use std::cmp::Ordering;
use std::marker::Model;

/// A query that is bound to a session.
#[derive(Drop)]
pub(crate) struct Bound {
    pub(crate) session: u128,
    pub(crate) id: u128,
}

impl Model for Bound {
    ghost use Rattle.std.specs.Prelude.{ℕ};

    ghost Value = { ℕ × ℕ };

    ghost view = { λ b. (b.session, b.id) };
}

impl Row for Bound {
    type Key = (u128, u128);

    ghost key = { filed_key };

    ghost cmp = { filed_cmp nat_cmp nat_cmp };

    ghost total = { both_total nat_cmp nat_cmp nat_cmp_total nat_cmp_total };

    ghost exact = { exact_pairs nat_cmp nat_cmp exact_unsigned exact_unsigned };

    fn order(&self, other: &Bound) -> Ordering {
        self.session
            .cmp(&other.session)
            .then(self.id.cmp(&other.id))
    }

    fn copy(&self) -> Result<Bound, Memory> {
        Ok(Bound {
            session: self.session,
            id: self.id,
        })
    }
}

// Marks that the query is bound to the session, where it is to one.
pub(crate) fn bind(
    bound: &mut RowTable<Bound>,
    session: Option<u128>,
    id: u128,
) -> Result<(), Memory>
    ensures ok { OnOk result (bound.new.now ≡ filed nat_cmp nat_cmp session id bound.old.now) }
    ensures before { bound.new.before ≡ bound.old.before }
    ensures err { OnErr result (bound.new.now ≡ bound.old.now) }
{
    if let Some(session) = session {
        if let Err((_, memory)) = bound.set(Bound { session, id }) {
            return Err(memory);
        }
    }
    Ok(())
}

// Marks that the query is not bound to the session.
pub(crate) fn unbind(bound: &mut RowTable<Bound>, session: Option<u128>, id: u128)
    ensures now { bound.new.now ≡ unfiled nat_cmp nat_cmp session id bound.old.now }
    ensures before { bound.new.before ≡ bound.old.before }
{
    if let Some(session) = session {
        bound.remove(&Bound { session, id });
    }
}

// The identifiers of the queries that are bound to the session.
pub(crate) fn ids_of(
    alloc: Global,
    rows: &NamedRows,
    bound: &RowTable<Bound>,
    session: u128,
) -> Result<Vec<u128>, Memory>
    requires { FilesSessions rows.now.now bound.now.now }
    ensures ids { IfOk result (λ v. v.items ≡ map query_key (filter (is_bound_to session) rows.now.now)) }
    ensures order { IfOk result (λ v. Ascends nat_cmp (λ i. i) v.items) }
{
    rows.in_order();
    bound.in_order();
    let mut found = Vec::new(alloc);
    for row in bound.rows_from(&Bound { session, id: 0 }) {
        if row.session != session {
            break;
        }
        found.push(row.id)?;
    }
    Ok(found)
}
