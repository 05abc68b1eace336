ghost use Rattle.std.specs.Prelude.{◌≡◌, ◌==◌, ◌≤◌, ℕ, filter, length, map, not, take, nat_le, List, Some, OnErr, OnOk};
ghost use Rattle.cat_model.specs.declared.row.SessionRow.{SessionRow as SpecSession};
ghost use Rattle.cluster_rules.specs.Offices.{Office as SpecOffice, ended_too, looks_on, no_office, office_from, reap_pause, renew_in, renewal_id};
ghost use Rattle.cat_model.specs.Tables.{Ascends};
ghost use Rattle.std.specs.Ordering.{nat_cmp};
ghost use Rattle.session_ttl.specs.Endings.{ending_of};

use crate::ends::{Ending, positions};
use crate::renewal::{Renewal, renew};
use cat_model::{Memory, SessionRow};
use row_table::RowTable;
use std::alloc::Global;
use std::marker::Model;

// How long after a look for what is to be reaped the next one comes, in milliseconds.
const REAP_PAUSE: u128 = 900_000;

/// A server's time in office: since when, which sessions it renewed, whose ends it proposed, and when it looks next for
/// what is to be reaped. Its clock is in milliseconds.
#[derive(Drop)]
pub struct Office {
    alloc: Global,
    pub(crate) since: u64,
    pub(crate) renewals: RowTable<Renewal>,
    /// The positions at which those sessions were made whose ends it proposed, in that order.
    pub(crate) ended: Vec<u64>,
    reap: u128,
}

impl Model for Office {
    ghost use Rattle.std.specs.Prelude.{reverse};
    ghost use Rattle.cluster_rules.specs.Offices as rules;

    ghost Value = { rules.Office };

    ghost view = { λ o. record { since = o.since; renewals = o.renewals.now; ended = reverse o.ended.items; reap = o.reap } };
}

// Takes the position out.
fn forget(positions: &mut Vec<u64>, position: u64)
    ensures { positions.new.items ≡ filter (λ p. not (p == position)) positions.old.items }
{
    positions.retain(|p| *p != position);
}

impl Office {
    /// No office. Takes no memory.
    pub fn new(alloc: Global) -> Office
        ensures { result ≡ no_office }
    {
        Office {
            alloc,
            since: 0,
            renewals: RowTable::new(alloc),
            ended: Vec::new(alloc),
            reap: 0,
        }
    }

    /// The server takes office at this clock. Takes no memory.
    pub fn lead(&mut self, now: u64)
        ensures { self.new ≡ office_from now }
    {
        self.since = now;
        self.renewals = RowTable::new(self.alloc);
        self.ended.clear();
        self.reap = u128::from(now) + REAP_PAUSE;
    }

    /// The session lives anew from this clock on, and its end is to be proposed again.
    pub fn renew(&mut self, row: &SessionRow, now: u64) -> Result<(), Memory>
        ensures ok { OnOk result (self.new ≡ renew_in (Some row.now) now self.old) }
        ensures err { OnErr result (self.new ≡ self.old) }
    {
        renew(&mut self.renewals, row.id, now)?;
        forget(&mut self.ended, row.create);
        Ok(())
    }

    /// Tells a proof that the renewals are in the order of their sessions, one for each.
    pub fn in_order(&self)
        ensures { Ascends nat_cmp renewal_id self.now.renewals }
    {
        self.renewals.in_order();
    }

    /// The time of the next look for removed keys has come.
    pub fn is_look_due(&self, now: u64) -> bool
        ensures { result ≡ nat_le self.now.reap now }
    {
        self.reap <= u128::from(now)
    }

    /// Looks for removed keys, where the time of the next look has come, and the look after that comes 900,000
    /// milliseconds later.
    pub fn look(&mut self, now: u64)
        ensures { self.new ≡ looks_on now self.old }
    {
        if self.is_look_due(now) {
            self.reap = u128::from(now) + REAP_PAUSE;
        }
    }

    /// The ends of these sessions are about to be proposed.
    pub fn end(&mut self, endings: &[Ending]) -> Result<(), Memory>
        ensures ok { (rows : List SpecSession) → endings.now ≡ map ending_of rows → OnOk result (self.new ≡ ended_too rows self.old) }
        ensures err { OnErr result (self.new ≡ self.old) }
    {
        let mut positions = positions(self.alloc, endings)?;
        self.ended.append(&mut positions)?;
        Ok(())
    }

    /// Of these sessions, whose ends were about to be proposed, only the ends of the first `kept` were. Takes no memory.
    pub fn keep_first(&mut self, endings: &[Ending], kept: usize)
        requires ended { (rows : List SpecSession) × (o : SpecOffice) × (endings.now ≡ map ending_of rows) × (self.old ≡ ended_too rows o) }
        requires within { kept ≤ length endings.now }
        ensures { (rows : List SpecSession) (o : SpecOffice) → endings.now ≡ map ending_of rows → self.old ≡ ended_too rows o → self.new ≡ ended_too (take kept rows) o }
    {
        let earlier = self.ended.len() - endings.len();
        self.ended.truncate(earlier + kept);
    }
}
