//! The sessions that are over by a server's clock.

ghost use Rattle.std.specs.Prelude.{◌≡◌, ◌==◌, ◌≤◌, ◌++◌, ◌∷◌, [], ℕ, true, filter, map, reverse, IfOk, OnOk};
ghost use Rattle.std.specs.List.{AllByRecursion as Each, cons_option, filter_map, list_any};
ghost use Rattle.std.specs.Ordering.{nat_cmp};
ghost use Rattle.cat_model.specs.Catalog.{session_at, session_key};
ghost use Rattle.cat_model.specs.Tables.{Ascends};
ghost use Rattle.cluster_rules.specs.Offices.{applied_at, is_over, over_at, sorted_by};
ghost use Rattle.session_ttl.specs.Endings.{ending_in, ending_of, over_in, overdue_of};
ghost use Rattle.session_ttl.specs.Timed.{is_one_of};

use crate::ends::{Ending, Overdue, endings, sort};
use crate::office::Office;
use crate::renewal::start;
use cat_model::{Memory, SessionRow};
use session_table::SessionTable;
use std::alloc::Global;

// The clock at which the position was applied.
fn applied_at(clocks: &[u64], position: u64) -> u64
    ensures { result ≡ applied_at clocks.now position }
{
    let index = position.saturating_sub(1) as usize;
    clocks.get(index).copied().unwrap_or(0)
}

// The position is one of these. It is looked for from the last one on.
fn has(positions: &[u64], position: u64) -> bool
    ensures { result ≡ list_any (λ p. p == position) (reverse positions.now) }
{
    positions.iter().rev().any(|p| *p == position)
}

// The sessions alone: by when they were over, and then in their order.
fn in_turn(alloc: Global, mut overdue: Vec<Overdue>) -> Result<Vec<Ending>, Memory>
    ensures { IfOk result (λ v. v.items ≡ map ending_in (sorted_by over_in overdue.items)) }
{
    sort(&mut overdue)?;
    endings(alloc, &overdue)
}

impl Office {
    /// The clock at which the session's time is over. `clocks` holds the server's clock at each position that it applied.
    pub(crate) fn over_at(&self, clocks: &[u64], row: &SessionRow) -> u128
        ensures { result ≡ over_at clocks.now self.now row.now }
    {
        let began = start(&self.renewals, row.id, self.since);
        u128::from(applied_at(clocks, row.create).max(began)) + 2 * u128::from(row.ttl_ms)
    }

    /// The end of the session that was made at this position was proposed, and it was not renewed since.
    pub(crate) fn is_ended(&self, create: u64) -> bool
        ensures { result ≡ list_any (λ p. p == create) self.now.ended }
    {
        has(self.ended.as_slice(), create)
    }

    // Adds the session, where it is over.
    fn add_overdue(
        &self,
        clocks: &[u64],
        row: &SessionRow,
        now: u64,
        overdue: &mut Vec<Overdue>,
    ) -> Result<(), Memory>
        ensures { OnOk result (overdue.new.items ≡ overdue.old.items ++ map (overdue_of clocks.now self.now) (filter (is_over clocks.now self.now now) (row.now ∷ []))) }
    {
        if row.ttl_ms == 0 {
            return Ok(());
        }
        let over_at = self.over_at(clocks, row);
        if over_at <= u128::from(now) && !self.is_ended(row.create) {
            let ending = Ending {
                id: row.id,
                create: row.create,
            };
            overdue.push(Overdue { over_at, ending })?;
        }
        Ok(())
    }

    // The sessions that are over, in the order of the table.
    fn overdue(
        &self,
        alloc: Global,
        clocks: &[u64],
        sessions: &SessionTable,
        now: u64,
    ) -> Result<Vec<Overdue>, Memory>
        ensures { IfOk result (λ v. v.items ≡ map (overdue_of clocks.now self.now) (filter (is_over clocks.now self.now now) sessions.now.now)) }
    {
        let mut overdue = Vec::new(alloc);
        for row in sessions.rows() {
            self.add_overdue(clocks, row, now, &mut overdue)?;
        }
        Ok(overdue)
    }

    // Adds the session of this identifier, where it is there and over.
    fn add_overdue_at(
        &self,
        clocks: &[u64],
        sessions: &SessionTable,
        id: u128,
        now: u64,
        overdue: &mut Vec<Overdue>,
    ) -> Result<(), Memory>
        ensures { OnOk result (overdue.new.items ≡ overdue.old.items ++ map (overdue_of clocks.now self.now) (filter (is_over clocks.now self.now now) (cons_option (session_at id sessions.now.now) []))) }
    {
        match sessions.get(id) {
            None => Ok(()),
            Some(row) => self.add_overdue(clocks, row, now, overdue),
        }
    }

    // The sessions of these identifiers that are over, in the order of the identifiers.
    fn overdue_among(
        &self,
        alloc: Global,
        clocks: &[u64],
        sessions: &SessionTable,
        ids: &[u128],
        now: u64,
    ) -> Result<Vec<Overdue>, Memory>
        ensures { IfOk result (λ v. v.items ≡ map (overdue_of clocks.now self.now) (filter (is_over clocks.now self.now now) (filter_map (λ id. session_at id sessions.now.now) ids.now))) }
    {
        let mut overdue = Vec::new(alloc);
        for id in ids {
            self.add_overdue_at(clocks, sessions, *id, now, &mut overdue)?;
        }
        Ok(overdue)
    }

    /// The sessions that are over at this clock, and whose ends were not proposed since they were made or renewed: by when
    /// they were, and then by their identifiers. All sessions are looked at.
    pub(crate) fn over(
        &self,
        alloc: Global,
        clocks: &[u64],
        sessions: &SessionTable,
        now: u64,
    ) -> Result<Vec<Ending>, Memory>
        ensures { IfOk result (λ v. v.items ≡ map ending_of (sorted_by (over_at clocks.now self.now) (filter (is_over clocks.now self.now now) sessions.now.now))) }
    {
        let overdue = self.overdue(alloc, clocks, sessions, now)?;
        in_turn(alloc, overdue)
    }

    /// The same, where only the sessions of these ascending identifiers can be over, and only they are looked at.
    pub(crate) fn over_among(
        &self,
        alloc: Global,
        clocks: &[u64],
        sessions: &SessionTable,
        ids: &[u128],
        now: u64,
    ) -> Result<Vec<Ending>, Memory>
        requires order { Ascends nat_cmp session_key sessions.now.now }
        requires ascend { Ascends nat_cmp (λ (id : ℕ). id) ids.now }
        requires whole { Each (λ s. is_over clocks.now self.now now s ≡ true → is_one_of s.id ids.now ≡ true) sessions.now.now }
        ensures { IfOk result (λ v. v.items ≡ map ending_of (sorted_by (over_at clocks.now self.now) (filter (is_over clocks.now self.now now) sessions.now.now))) }
    {
        let overdue = self.overdue_among(alloc, clocks, sessions, ids, now)?;
        in_turn(alloc, overdue)
    }
}
