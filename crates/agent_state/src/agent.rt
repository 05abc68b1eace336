ghost use Rattle.std.specs.Prelude.{◌≡◌, ◌+◌, ◌<◌, ◌^◌, OnErr, OnOk, IfOk};
ghost use Rattle.node_rows.specs.Tags.{all_tagged};
ghost use Rattle.cluster_rules.specs.Agents as rules;

use crate::checks::expire_checks;
use crate::watched::Watched;
use cat_model::{Memory, ServiceRow};
use node_rows::{Retag, retag_all};
use std::alloc::Global;
use std::marker::Model;

// The milliseconds between two syncs of an agent.
const SYNC_MS: u64 = 60_000;

/// An agent: its services and its checks in the order of their IDs, its clock in milliseconds, and the time of its next
/// sync by that clock. Its own check, which is always there and passes, is not among the checks.
#[derive(Debug, Drop)]
pub struct Agent {
    pub(crate) services: Vec<ServiceRow>,
    pub(crate) checks: Vec<Watched>,
    pub(crate) clock: u64,
    // The next sync comes a minute after this.
    pub(crate) synced: u64,
}

impl Model for Agent {
    ghost use Rattle.std.specs.Prelude.{◌+◌};
    ghost use Rattle.cluster_rules.specs.Agents as rules;
    ghost use Rattle.agent_state.specs.Order.{ChecksAscend, ServicesAscend};

    ghost Value = { rules.Agent };

    ghost view = { λ g. record { services = g.services.items; checks = g.checks.items; clock = g.clock; next_sync = g.synced + 60000 } };

    ghost invariant = { λ g. ServicesAscend g.services.items × ChecksAscend g.checks.items };
}

impl Agent {
    /// An agent with no services and no checks, whose clock begins.
    pub fn new(alloc: Global) -> Agent
        ensures { result ≡ rules.new_agent }
    {
        Agent {
            services: Vec::new(alloc),
            checks: Vec::new(alloc),
            clock: 0,
            synced: 0,
        }
    }

    /// Its clock, in milliseconds.
    pub fn clock(&self) -> u64
        ensures { result ≡ self.now.clock }
    {
        self.clock
    }

    /// Once so many milliseconds are over, the time of its next sync has come.
    pub fn wants_sync(&self, ms: u64) -> bool
        ensures { result ≡ rules.wants_sync ms self.now }
    {
        let clock = self.clock;
        let synced = self.synced;
        let next = u128::from(synced) + u128::from(SYNC_MS);
        next <= u128::from(clock) + u128::from(ms)
    }

    /// So many milliseconds are over: a check whose TTL is over turns critical, and after a sync whose time has come the
    /// next one comes a minute later. After lack of memory all is as before.
    pub fn tick(&mut self, alloc: Global, ms: u64) -> Result<(), Memory>
        requires { self.old.clock + ms < 2 ^ 64 }
        ensures ok { OnOk result (self.new ≡ rules.ticked ms self.old) }
        ensures err { OnErr result (self.new ≡ self.old) }
    {
        let is_due = self.wants_sync(ms);
        let now = self.clock + ms;
        expire_checks(alloc, now, &mut self.checks)?;
        self.clock = now;
        if is_due {
            self.synced = now;
        }
        Ok(())
    }

    /// Its services take over these tags.
    #[tactic(auto, using(crate::proofs::Orders::all_tagged_ascend))]
    pub fn retag(&mut self, tags: Vec<Retag>)
        ensures { self.new ≡ record self.old { services = all_tagged tags.items self.old.services } }
    {
        retag_all(&mut self.services, tags);
    }
}
