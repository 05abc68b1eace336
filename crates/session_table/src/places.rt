//! Which sessions stand on each check of each node, by the node's name, the check's identifier and the session's. Under
//! the empty check stand all sessions of the node.

ghost use Rattle.std.specs.Prelude.{◌≡◌, [], IfOk, OnOk};
ghost use Rattle.std.specs.Ordering.{nat_cmp};
ghost use Rattle.std.proofs.lemmas.Cmp.{nat_cmp_total};
ghost use Rattle.std.proofs.lemmas.Map.Lookups.{exact_pairs, exact_unsigned};
ghost use Rattle.cat_model.proofs.Pairs.{both_total, exact_pair, pair_cmp_total};
ghost use Rattle.cat_model.specs.Keys.{pair_cmp};
ghost use Rattle.row_table.specs.Filing.{filed_cmp, filed_key};
ghost use Rattle.session_table.specs.Nodes.{is_on};
ghost use Rattle.session_table.specs.Places.{is_at, is_one_of, Adds, Spares, Takes};

use cat_model::{Memory, SessionRow, Text};
use row_table::{Probe, Row, RowTable};
use std::alloc::Global;
use std::cmp::Ordering;
use std::marker::Model;

/// A session that stands on a check of a node.
#[derive(Drop)]
pub(crate) struct Standing {
    pub(crate) node: Text,
    pub(crate) check: Text,
    pub(crate) id: u128,
}

impl Model for Standing {
    ghost use Rattle.std.specs.Prelude.{ℕ, List};

    ghost Value = { (List ℕ × List ℕ) × ℕ };

    ghost view = { λ s. ((s.node, s.check), s.id) };
}

impl Row for Standing {
    type Key = ((Text, Text), u128);

    ghost key = { filed_key };

    ghost cmp = { filed_cmp pair_cmp nat_cmp };

    ghost total = { both_total pair_cmp nat_cmp pair_cmp_total nat_cmp_total };

    ghost exact = { exact_pairs pair_cmp nat_cmp exact_pair exact_unsigned };

    fn order(&self, other: &Standing) -> Ordering {
        let place = self
            .node
            .as_str()
            .cmp(other.node.as_str())
            .then(self.check.as_str().cmp(other.check.as_str()));
        place.then(self.id.cmp(&other.id))
    }

    fn copy(&self) -> Result<Standing, Memory> {
        Ok(Standing {
            node: self.node.clone()?,
            check: self.check.clone()?,
            id: self.id,
        })
    }
}

/// Looks for the session of this identifier on this check of this node.
#[derive(Clone, Copy)]
pub(crate) struct At<'a> {
    pub(crate) node: &'a str,
    pub(crate) check: &'a str,
    pub(crate) id: u128,
}

impl<'a> Probe<Standing> for At<'a> {
    ghost sought = { λ p. ((p.node.now, p.check.now), p.id) };

    fn place(&self, row: &Standing) -> Ordering {
        let place = row
            .node
            .as_str()
            .cmp(self.node)
            .then(row.check.as_str().cmp(self.check));
        place.then(row.id.cmp(&self.id))
    }
}

// Files the session under the check of the node.
fn file_at(
    places: &mut RowTable<Standing>,
    node: &Text,
    check: Text,
    id: u128,
) -> Result<(), Memory>
    ensures ok { OnOk result (Adds (is_at (node.now, check)) id places.old.now places.new.now) }
    ensures others { Spares (is_at (node.now, check)) id places.old.now places.new.now }
    ensures before { places.new.before ≡ places.old.before }
{
    let node = node.clone()?;
    if let Err((_, memory)) = places.set(Standing { node, check, id }) {
        return Err(memory);
    }
    Ok(())
}

// Files the session under each of the checks of the node.
fn file_each(
    places: &mut RowTable<Standing>,
    node: &Text,
    checks: &[Text],
    id: u128,
) -> Result<(), Memory>
    ensures ok { OnOk result (Adds (is_one_of node.now checks.now) id places.old.now places.new.now) }
    ensures others { Spares (is_one_of node.now checks.now) id places.old.now places.new.now }
    ensures before { places.new.before ≡ places.old.before }
{
    for check in checks {
        file_at(places, node, check.clone()?, id)?;
    }
    Ok(())
}

/// Files the session where it stands. After lack of memory it may be filed at some of these places.
pub(crate) fn file(
    alloc: Global,
    places: &mut RowTable<Standing>,
    row: &SessionRow,
) -> Result<(), Memory>
    ensures ok { OnOk result (Adds (λ p. is_on p.0 p.1 row.now) row.now.id places.old.now places.new.now) }
    ensures others { Spares (λ p. is_on p.0 p.1 row.now) row.now.id places.old.now places.new.now }
    ensures before { places.new.before ≡ places.old.before }
{
    file_at(places, &row.node, Text::new(alloc, "")?, row.id)?;
    file_each(places, &row.node, row.checks.as_slice(), row.id)
}

// Takes the session from under the check of the node.
fn unfile_at(places: &mut RowTable<Standing>, node: &str, check: &str, id: u128)
    ensures now { Takes (is_at (node.now, check.now)) id places.old.now places.new.now }
    ensures before { places.new.before ≡ places.old.before }
{
    places.remove(&At { node, check, id });
}

// Takes the session from under each of the checks of the node.
fn unfile_each(places: &mut RowTable<Standing>, node: &str, checks: &[Text], id: u128)
    ensures now { Takes (is_one_of node.now checks.now) id places.old.now places.new.now }
    ensures before { places.new.before ≡ places.old.before }
{
    for check in checks {
        unfile_at(places, node, check.as_str(), id);
    }
}

/// Takes the session from where it stands.
pub(crate) fn unfile(places: &mut RowTable<Standing>, row: &SessionRow)
    ensures now { Takes (λ p. is_on p.0 p.1 row.now) row.now.id places.old.now places.new.now }
    ensures before { places.new.before ≡ places.old.before }
{
    unfile_at(places, row.node.as_str(), "", row.id);
    unfile_each(places, row.node.as_str(), row.checks.as_slice(), row.id);
}
