//! A server's time in office.

ghost use Rattle.std.specs.Prelude.{◌≡◌, ◌≤◌, IfOk, List, OnErr, OnOk, length, map, nat_le, take};
ghost use Rattle.cat_model.specs.Catalog.{session_at};
ghost use Rattle.cat_model.specs.Machine.{catalog_at};
ghost use Rattle.cat_model.specs.declared.row.SessionRow.{SessionRow as SpecSession};
ghost use Rattle.cluster_rules.specs.Offices.{Office as SpecOffice, ended_too, looks_on, office_from, over_now, renew_in};
ghost use Rattle.applied_state.specs.States.{in_office};
ghost use Rattle.session_ttl.specs.Endings.{ending_of};

use crate::replica::Replica;
use cat_model::Memory;
use session_ttl::Ending;
use std::alloc::Global;

impl Replica {
    /// The server takes office, at this time of its clock.
    pub fn lead(&mut self, now: u64)
        ensures { self.new ≡ in_office (office_from now) self.old }
    {
        self.office.lead(now);
        self.timers.stop();
    }

    /// A server in office renews the session of this identifier, if there is one, at this time of its clock: it lives
    /// anew, and its end is to be proposed again.
    pub fn renew(&mut self, id: u128, now: u64) -> Result<(), Memory>
        ensures ok { OnOk result (self.new ≡ in_office (renew_in (session_at id (catalog_at self.old.commands).sessions) now self.old.office) self.old) }
        ensures err { OnErr result (self.new ≡ self.old) }
    {
        let Some(row) = self.store.sessions().get(id) else {
            return Ok(());
        };
        self.office.in_order();
        self.office.renew(row, now)?;
        self.timers.set(
            &self.office,
            self.clocks.as_slice(),
            self.store.sessions(),
            id,
            now,
        );
        Ok(())
    }

    /// The sessions that are over by this time of the server's clock, and whose ends are still to be proposed: by when
    /// they were, and then by their identifiers.
    pub fn over(&self, alloc: Global, now: u64) -> Result<Vec<Ending>, Memory>
        ensures { IfOk result (λ v. v.items ≡ map ending_of (over_now self.now.commands self.now.clocks self.now.office now)) }
    {
        self.timers.over(
            alloc,
            &self.office,
            self.clocks.as_slice(),
            self.store.sessions(),
            now,
        )
    }

    /// The ends of these sessions are about to be proposed.
    pub fn end(&mut self, endings: &[Ending]) -> Result<(), Memory>
        ensures ok { (rows : List SpecSession) → endings.now ≡ map ending_of rows → OnOk result (self.new ≡ in_office (ended_too rows self.old.office) self.old) }
        ensures err { OnErr result (self.new ≡ self.old) }
    {
        self.office.end(endings)?;
        Ok(())
    }

    /// Of these sessions, whose ends were about to be proposed, only the ends of the first `kept` were. Takes no memory.
    pub fn keep_first(&mut self, endings: &[Ending], kept: usize)
        requires ended { (rows : List SpecSession) × (o : SpecOffice) × (endings.now ≡ map ending_of rows) × (self.old.office ≡ ended_too rows o) }
        requires within { kept ≤ length endings.now }
        ensures { (rows : List SpecSession) (o : SpecOffice) → endings.now ≡ map ending_of rows → self.old.office ≡ ended_too rows o → self.new ≡ in_office (ended_too (take kept rows) o) self.old }
    {
        if kept >= endings.len() {
            return;
        }
        self.office.keep_first(endings, kept);
        self.timers.stop();
    }

    /// The time of a server's next look for removed keys has come.
    pub fn is_look_due(&self, now: u64) -> bool
        ensures { result ≡ nat_le self.now.office.reap now }
    {
        self.office.is_look_due(now)
    }

    /// A server in office looks for removed keys that are to be reaped, where the time of its next look has come, and
    /// the look after that comes 900,000 milliseconds later. It also sets the timers of its sessions that are due anew, or
    /// makes them all, where it has none.
    pub fn look(&mut self, now: u64)
        ensures { self.new ≡ in_office (looks_on now self.old.office) self.old }
    {
        self.office.look(now);
        self.timers.look(
            &self.office,
            self.clocks.as_slice(),
            self.store.sessions(),
            now,
        );
    }
}
