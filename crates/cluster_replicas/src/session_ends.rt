//! A server in office renews sessions, and ends those that are over by its clock.

ghost use Rattle.std.specs.Prelude.{◌≡◌, ◌≤◌, IfOk, List, OnErr, OnOk, length, map, take};
ghost use Rattle.cat_model.specs.Catalog.{session_at};
ghost use Rattle.cat_model.specs.Log.{commands_of};
ghost use Rattle.cat_model.specs.Machine.{catalog_at};
ghost use Rattle.cat_model.specs.declared.row.SessionRow.{SessionRow};
ghost use Rattle.cluster_rules.specs.Cluster.{clock_of, server_of};
ghost use Rattle.cluster_replicas.specs.Servers.{officed};
ghost use Rattle.cluster_rules.specs.Offices.{Office, ended_too, over_now, renew_in};
ghost use Rattle.raft_world.specs.Steps.{IsNumber};
ghost use Rattle.session_ttl.specs.Endings.{ending_of};

use crate::servers::{Servers, place};
use cat_model::Memory;
use outside::Keeper;
use session_ttl::Ending;
use std::alloc::Global;

impl<K: Keeper> Servers<K> {
    /// A server in office renews the session of this identifier, if it has applied one, at its clock's time: the session
    /// lives anew, and its end is to be proposed again.
    pub fn renew(&mut self, s: u32, id: u128) -> Result<(), Memory>
        requires { IsNumber s self.old.world }
        ensures ok { let server = server_of self.old.servers s in OnOk result (self.new ≡ officed s (renew_in (session_at id (catalog_at (commands_of server.applied)).sessions) (clock_of self.old.world s) server.office) self.old) }
        ensures err { OnErr result (self.new ≡ self.old) }
    {
        let clock = self.world.clock(s);
        let at = place(s);
        let leader = &mut self.replicas[at];
        leader.renew(id, clock)?;
        Ok(())
    }

    /// The sessions that are over by a server's clock, and whose ends are still to be proposed: by when they were, and
    /// then by their identifiers.
    pub fn over(&self, alloc: Global, s: u32) -> Result<Vec<Ending>, Memory>
        requires { IsNumber s self.now.world }
        ensures { let server = server_of self.now.servers s in IfOk result (λ v. v.items ≡ map ending_of (over_now (commands_of server.applied) server.clocks server.office (clock_of self.now.world s))) }
    {
        self.replica(s).over(alloc, self.world.clock(s))
    }

    /// A server is about to propose the ends of these sessions.
    pub fn end(&mut self, s: u32, endings: &[Ending]) -> Result<(), Memory>
        requires { IsNumber s self.old.world }
        ensures ok { (rows : List SessionRow) → endings.now ≡ map ending_of rows → OnOk result (self.new ≡ officed s (ended_too rows (server_of self.old.servers s).office) self.old) }
        ensures err { OnErr result (self.new ≡ self.old) }
    {
        let at = place(s);
        let leader = &mut self.replicas[at];
        leader.end(endings)?;
        Ok(())
    }

    /// Of these sessions, whose ends a server was about to propose, it proposed only the ends of the first `kept`. Takes no
    /// memory.
    pub fn keep_first(&mut self, s: u32, endings: &[Ending], kept: usize)
        requires server { IsNumber s self.old.world }
        requires ended { (rows : List SessionRow) × (o : Office) × (endings.now ≡ map ending_of rows) × ((server_of self.old.servers s).office ≡ ended_too rows o) }
        requires within { kept ≤ length endings.now }
        ensures { (rows : List SessionRow) (o : Office) → endings.now ≡ map ending_of rows → (server_of self.old.servers s).office ≡ ended_too rows o → self.new ≡ officed s (ended_too (take kept rows) o) self.old }
    {
        let at = place(s);
        let leader = &mut self.replicas[at];
        leader.keep_first(endings, kept);
    }
}
