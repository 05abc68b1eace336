//! What a server decides and answers by what it has applied: lock delays, sessions, and executions of prepared queries.

ghost use Rattle.std.specs.Prelude.{◌≡◌, IfOk};
ghost use Rattle.std.specs.Option.{option_copied};
ghost use Rattle.cat_model.specs.Catalog.{session_at};
ghost use Rattle.cat_model.specs.Executions.{execution};
ghost use Rattle.cat_model.specs.Log.{commands_of};
ghost use Rattle.cat_model.specs.Machine.{catalog_at};
ghost use Rattle.cluster_rules.specs.Cluster.{clock_of, server_of};
ghost use Rattle.cluster_rules.specs.Locks.{delayed};
ghost use Rattle.cluster_rules.specs.Offices.{delay_over};
ghost use Rattle.raft_world.specs.Steps.{IsNumber};

use crate::servers::Servers;
use cat_model::{Command, Memory, Ran, SessionRow};
use outside::Keeper;
use std::alloc::Global;

impl<K: Keeper> Servers<K> {
    /// The clock of a server at which the lock delay of the key is over, in milliseconds, or 0 where none began.
    pub fn delay_over(&self, s: u32, key: &str) -> u128
        requires { IsNumber s self.now.world }
        ensures { let server = server_of self.now.servers s in result ≡ delay_over (commands_of server.applied) server.clocks key.now }
    {
        self.replica(s).delay_over(key)
    }

    /// The first key that the command is to lock whose lock delay is not over, by the clock of a server.
    pub fn delayed<'a>(&self, s: u32, command: &'a Command) -> Option<&'a str>
        requires { IsNumber s self.now.world }
        ensures { let server = server_of self.now.servers s in option_copied result ≡ delayed (delay_over (commands_of server.applied) server.clocks) (clock_of self.now.world s) command.now }
    {
        self.replica(s).delayed(command, self.world.clock(s))
    }

    /// The session of this identifier in what a server has applied.
    pub fn session(&self, s: u32, id: u128) -> Option<&SessionRow>
        requires { IsNumber s self.now.world }
        ensures { option_copied result ≡ session_at id (catalog_at (commands_of (server_of self.now.servers s).applied)).sessions }
    {
        self.replica(s).session(id)
    }

    /// What the prepared query that the name names gives at all that a server has applied: the one of the identifier
    /// that the name spells, if it spells one and there is such a query, and else the one of this name. None where there
    /// is no such query. A limit of 0 is none.
    pub fn execute(
        &self,
        alloc: Global,
        s: u32,
        id: Option<u128>,
        name: &str,
        limit: u64,
    ) -> Result<Option<Ran>, Memory>
        requires { IsNumber s self.now.world }
        ensures { IfOk result (λ ran. ran ≡ execution (catalog_at (commands_of (server_of self.now.servers s).applied)) id name.now limit) }
    {
        self.replica(s).execute(alloc, id, name, limit)
    }
}
