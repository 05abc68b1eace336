//! The servers of a cluster.

ghost use Rattle.std.specs.Prelude.{◌≡◌, ◌+◌, ◌≤◌, ◌&&◌, length, nat_le, nat_lt, IfOk, OnErr, OnOk};
ghost use Rattle.cat_model.specs.Channels.{chans};
ghost use Rattle.cat_model.specs.Indexes.{index_of};
ghost use Rattle.cat_model.specs.Log.{commands_of};
ghost use Rattle.cat_model.specs.Machine.{catalog_at};
ghost use Rattle.cat_model.specs.Queries.{answer};
ghost use Rattle.cluster_rules.specs.Cluster.{clock_of, node_of, server_of};
ghost use Rattle.raft_world.specs.Steps.{IsNumber};
ghost use Rattle.cluster_rules.specs.Offices.{has_removed, looks_on, office_from};
ghost use Rattle.applied_state.specs.Sparing.{SparesOthers};
ghost use Rattle.applied_state.specs.States.{last_reply};
ghost use Rattle.cluster_replicas.specs.Servers.{HasNext, IsBehind, applies_next, officed};

use applied_state::Replica;
use cat_model::{Answer, Applied, Chan, Entry, List, Memory, Query, Steps};
use catalog_store::is_taken;
use outside::Keeper;
use raft_node::Node;
use raft_world::World;
use std::alloc::Global;
use std::marker::Model;
use std::sync::ledger::Ledger;

// The most positions that the tables of a server take.
const MOST: u64 = 262_144;

/// The servers of a cluster, numbered from 1: their world, and what each has applied. Contracts see of each server the
/// first entries of its node's log, as many as it has applied, and its clock at each of them.
#[derive(Drop)]
pub struct Servers<K: Keeper> {
    pub(crate) world: World<K>,
    pub(crate) replicas: Vec<Replica>,
}

impl<K: Keeper> Model for Servers<K> {
    ghost use Rattle.cluster_replicas.specs.Servers as spec;
    ghost use Rattle.cluster_replicas.specs.Servers.{AllFollow, servers_with};

    ghost Value = { spec.Servers };

    ghost view = { λ s. record { world = s.world; servers = servers_with s.world.nodes s.replicas.items } };

    ghost invariant = { λ s. AllFollow s.world.nodes s.replicas.items };
}

// The place of a server in the lists by server.
pub(crate) fn place(s: u32) -> usize
    requires { 1 ≤ s }
    ensures { result + 1 ≡ s }
{
    s as usize - 1
}

impl<K: Keeper> Servers<K> {
    /// How many servers there are.
    #[tactic(auto, using(crate::proofs::Following::as_many))]
    pub fn count(&self) -> u32
        ensures nodes { result ≡ length self.now.world.nodes }
        ensures servers { result ≡ length self.now.servers }
    {
        self.world.servers()
    }

    /// The node of a server.
    #[tactic(auto, using(crate::proofs::Following::is_node))]
    pub fn node(&self, s: u32) -> &Node<K>
        requires { IsNumber s self.now.world }
        ensures { result.now ≡ node_of self.now.world s }
    {
        self.world.node(s)
    }

    /// The clock of a server, in milliseconds.
    pub fn clock(&self, s: u32) -> u64
        requires { IsNumber s self.now.world }
        ensures { result ≡ clock_of self.now.world s }
    {
        self.world.clock(s)
    }

    /// The longest list that any server has committed so far.
    pub fn agreed(&self) -> &[Entry]
        ensures { result.now ≡ self.now.world.agreed }
    {
        self.world.agreed()
    }

    // What a server has applied.
    pub(crate) fn replica(&self, s: u32) -> &Replica
        requires { IsNumber s self.now.world }
        ensures commands { result.now.commands ≡ commands_of (server_of self.now.servers s).applied }
        ensures clocks { result.now.clocks ≡ (server_of self.now.servers s).clocks }
        ensures count { length result.now.commands ≡ length (server_of self.now.servers s).applied }
        ensures office { result.now.office ≡ (server_of self.now.servers s).office }
    {
        &self.replicas[place(s)]
    }

    /// How many positions a server has applied.
    pub fn applied(&self, s: u32) -> u64
        requires { IsNumber s self.now.world }
        ensures { result ≡ length (server_of self.now.servers s).applied }
    {
        self.replica(s).length()
    }

    /// More is committed at a server than it has applied.
    pub fn has_next(&self, s: u32) -> bool
        requires { IsNumber s self.now.world }
        ensures { result ≡ nat_lt (length (server_of self.now.servers s).applied) (node_of self.now.world s).commit }
    {
        self.applied(s) < self.node(s).commit()
    }

    /// A server has applied no more than it has committed, and has committed no more than its log has, whatever its
    /// store held.
    pub fn stays_behind(&self, s: u32)
        requires { IsNumber s self.now.world }
        ensures { IsBehind self.now s }
    {
        self.world.commits_within();
    }

    /// The answer to a query at all that a server has applied, with its index. It is one step, also where memory fails.
    pub fn read<L: Ledger>(
        &self,
        alloc: Global,
        s: u32,
        query: &Query,
        steps: &mut Steps<L>,
    ) -> Result<(Answer, u64), Memory>
        requires { IsNumber s self.now.world }
        ensures told { let log = commands_of (server_of self.now.servers s).applied in IfOk result (λ r. r ≡ (answer query.now (catalog_at log), index_of query.now log)) }
        ensures cost { steps.new ≡ steps.old + 1 }
    {
        self.replica(s).read(alloc, query, steps)
    }

    /// The index of a query at all that a server has applied. It takes no memory, and no answer is made.
    pub fn index(&self, s: u32, query: &Query) -> u64
        requires { IsNumber s self.now.world }
        ensures { result ≡ index_of query.now (commands_of (server_of self.now.servers s).applied) }
    {
        self.replica(s).index(query)
    }

    /// The channels on which a query hangs at all that a server has applied: one, or two.
    pub fn chans(&self, alloc: Global, s: u32, query: &Query) -> Result<List<Chan>, Memory>
        requires { IsNumber s self.now.world }
        ensures chans { IfOk result (λ l. l ≡ chans query.now (catalog_at (commands_of (server_of self.now.servers s).applied))) }
        ensures few { IfOk result (λ l. length l ≤ 2) }
    {
        self.replica(s).chans(alloc, query)
    }

    /// A copy of the catalog's answer to the command that a server applied last.
    pub fn reply(&self, alloc: Global, s: u32) -> Result<Option<Applied>, Memory>
        requires { IsNumber s self.now.world }
        ensures { IfOk result (λ reply. reply ≡ last_reply (commands_of (server_of self.now.servers s).applied)) }
    {
        self.replica(s).reply(alloc)
    }

    /// A server applies its next position, at its clock's time. It gives the channels that the step fires: a query that
    /// hangs on none of them reads as before. It answers Memory also where the entry there is one that its tables don't
    /// take: no request enters such a one, and it can only come out of a durable store. After Memory all is as before.
    pub fn apply(&mut self, alloc: Global, s: u32) -> Result<List<Chan>, Memory>
        requires server { IsNumber s self.old.world }
        requires next { HasNext self.old s }
        ensures ok { OnOk result (self.new ≡ applies_next s self.old) }
        ensures spares { IfOk result (SparesOthers (commands_of (server_of self.old.servers s).applied) (commands_of (server_of self.new.servers s).applied)) }
        ensures err { OnErr result (self.new ≡ self.old) }
    {
        let clock = self.world.clock(s);
        let at = place(s);
        let replica = &mut self.replicas[at];
        let applied = replica.length();
        let Some(entry) = self.world.node(s).entry(applied + 1) else {
            return Err(Memory);
        };
        if applied >= MOST || !is_taken(&entry.command) {
            return Err(Memory);
        }
        let fired = replica.apply(alloc, &entry.command, clock)?;
        Ok(fired)
    }

    /// A server takes office, at its clock's time.
    pub fn lead(&mut self, s: u32)
        requires { IsNumber s self.old.world }
        ensures { self.new ≡ officed s (office_from (clock_of self.old.world s)) self.old }
    {
        let clock = self.world.clock(s);
        let at = place(s);
        let leader = &mut self.replicas[at];
        leader.lead(clock);
    }

    /// A server in office looks for removed keys that are to be reaped, where by its clock the time of its next look has
    /// come, and the look after that comes 900,000 milliseconds later.
    pub fn look(&mut self, s: u32)
        requires { IsNumber s self.old.world }
        ensures { self.new ≡ officed s (looks_on (clock_of self.old.world s) (server_of self.old.servers s).office) self.old }
    {
        let clock = self.world.clock(s);
        let at = place(s);
        let leader = &mut self.replicas[at];
        leader.look(clock);
    }

    /// A server in office has a reap to propose: by its clock the time of its next look has come, and a key was removed
    /// after the last reap that it applied.
    pub fn is_reap_due(&self, s: u32) -> bool
        requires { IsNumber s self.now.world }
        ensures { let server = server_of self.now.servers s in result ≡ (nat_le server.office.reap (clock_of self.now.world s) && has_removed (commands_of server.applied)) }
    {
        let leader = self.replica(s);
        leader.is_look_due(self.world.clock(s)) && leader.has_removed()
    }
}
