//! Keys that sessions hold, by the session and then in byte order.

ghost use Rattle.std.specs.Prelude.{◌≡◌, IfOk, OnErr, OnOk, filter, map};
ghost use Rattle.std.specs.Ordering.{nat_cmp};
ghost use Rattle.std.proofs.lemmas.Cmp.{nat_cmp_total, nat_list_cmp_total};
ghost use Rattle.std.proofs.lemmas.Map.Lookups.{exact_bytes, exact_pairs, exact_unsigned};
ghost use Rattle.cat_model.proofs.Pairs.{both_total};
ghost use Rattle.cat_model.specs.Keys.{text_cmp};
ghost use Rattle.cat_model.specs.Catalog.{kv_key};
ghost use Rattle.cat_model.specs.Tables.{Ascends};
ghost use Rattle.row_table.specs.Filing.{filed, filed_cmp, filed_key, unfiled};
ghost use Rattle.kv_table.specs.Holders.{FilesHolders};
ghost use Rattle.kv_table.specs.States.{is_held_by};

use cat_model::{KvRow, Memory, Text};
use row_table::{Probe, Row, RowTable};
use std::alloc::Global;
use std::cmp::Ordering;
use std::marker::Model;

/// A key that a session holds.
#[derive(Drop)]
pub(crate) struct Held {
    session: u128,
    key: Text,
}

impl Model for Held {
    ghost use Rattle.std.specs.Prelude.{ℕ, List};

    ghost Value = { ℕ × List ℕ };

    ghost view = { λ h. (h.session, h.key) };
}

impl Row for Held {
    type Key = (u128, Text);

    ghost key = { filed_key };

    ghost cmp = { filed_cmp nat_cmp text_cmp };

    ghost total = { both_total nat_cmp text_cmp nat_cmp_total nat_list_cmp_total };

    ghost exact = { exact_pairs nat_cmp text_cmp exact_unsigned exact_bytes };

    fn order(&self, other: &Held) -> Ordering {
        self.session
            .cmp(&other.session)
            .then(self.key.as_str().cmp(other.key.as_str()))
    }

    fn copy(&self) -> Result<Held, Memory> {
        Ok(Held {
            session: self.session,
            key: self.key.clone()?,
        })
    }
}

/// Looks for a key that is held by this session.
#[derive(Clone, Copy)]
struct ByHolder<'a> {
    session: u128,
    key: &'a str,
}

impl<'a> Probe<Held> for ByHolder<'a> {
    ghost sought = { λ p. (p.session, p.key.now) };

    fn place(&self, row: &Held) -> Ordering {
        row.session
            .cmp(&self.session)
            .then(row.key.as_str().cmp(self.key))
    }
}

// Marks that the session holds the key, where there is one.
pub(crate) fn hold(
    held: &mut RowTable<Held>,
    session: Option<u128>,
    key: &Text,
) -> Result<(), Memory>
    ensures ok { OnOk result (held.new.now ≡ filed nat_cmp text_cmp session key.now held.old.now) }
    ensures before { held.new.before ≡ held.old.before }
    ensures err { OnErr result (held.new.now ≡ held.old.now) }
{
    if let Some(session) = session {
        let key = key.clone()?;
        if let Err((_, memory)) = held.set(Held { session, key }) {
            return Err(memory);
        }
    }
    Ok(())
}

// Marks that the session does not hold the key, where there is one.
pub(crate) fn let_go(held: &mut RowTable<Held>, session: Option<u128>, key: &str)
    ensures now { held.new.now ≡ unfiled nat_cmp text_cmp session key.now held.old.now }
    ensures before { held.new.before ≡ held.old.before }
{
    if let Some(session) = session {
        held.remove(&ByHolder { session, key });
    }
}

// The keys that the session holds, in byte order.
pub(crate) fn keys_of(
    alloc: Global,
    rows: &RowTable<KvRow>,
    held: &RowTable<Held>,
    session: u128,
) -> Result<Vec<Text>, Memory>
    requires { FilesHolders rows.now.now held.now.now }
    ensures keys { IfOk result (λ v. v.items ≡ map kv_key (filter (is_held_by session) rows.now.now)) }
    ensures order { IfOk result (λ v. Ascends text_cmp (λ key. key) v.items) }
{
    rows.in_order();
    held.in_order();
    let mut found = Vec::new(alloc);
    let first = ByHolder { session, key: "" };
    for row in held.rows_from(&first) {
        if row.session != session {
            break;
        }
        found.push(Text::new(alloc, row.key.as_str())?)?;
    }
    Ok(found)
}
