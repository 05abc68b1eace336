ghost use Rattle.std.specs.Prelude.{◌≡◌, ◌+◌, ◌<◌, ◌≤◌, ◌++◌, [], ◌∷◌, Option, IfOk, OnOk, OnErr, length, true};
ghost use Rattle.std.specs.Option.{option_copied};
ghost use Rattle.cat_model.specs.Catalog.{session_at};
ghost use Rattle.cat_model.specs.Machine.{catalog_at};
ghost use Rattle.cat_model.specs.Channels.{chans, fires};
ghost use Rattle.cat_model.specs.Executions.{execution};
ghost use Rattle.cat_model.specs.Queries.{answer};
ghost use Rattle.cat_model.specs.Indexes.{index_of};
ghost use Rattle.catalog_store.specs.Firing.{FiresJust};
ghost use Rattle.catalog_query.specs.Standing.{Stands};
ghost use Rattle.catalog_store.specs.Taken.{is_taken};
ghost use Rattle.cluster_rules.specs.Agents.{remote_of};
ghost use Rattle.cluster_rules.specs.Offices.{delay_over, has_removed};
ghost use Rattle.applied_state.specs.Sparing.{SparesOthers};
ghost use Rattle.applied_state.specs.States.{nothing_applied, applied_at, last_reply};

use crate::delays::Delays;
use crate::remote::rows_of_node;
use crate::{copies, removals, timers};
use cat_model::{
    Answer, Applied, Chan, Command, Fired, List, Memory, Query, Ran, SessionRow, Shared, Steps,
};
use catalog_query::{ExecuteFault, View};
use catalog_store::Store;
use node_rows::CatalogRows;
use session_ttl::{Office, SessionTimers};
use std::alloc::Global;
use std::marker::Model;
use std::sync::ledger::Ledger;

/// What a server has applied since it last started: the store of these commands, and its clock at each of them, in
/// milliseconds; and its time in office, if it led since then. A restarted server begins with a new one.
#[derive(Drop)]
pub struct Replica {
    pub(crate) store: Store,
    pub(crate) clocks: Vec<u64>,
    reply: Option<Applied>,
    removed: bool,
    pub(crate) office: Office,
    /// The timers of the sessions, which it gets when it first looks in office.
    pub(crate) timers: SessionTimers,
    delays: Delays,
}

impl Model for Replica {
    ghost use Rattle.std.specs.Prelude.{◌≡◌, ◌≤◌, ℕ, List, length};
    ghost use Rattle.cluster_rules.specs.Offices.{delay_over, has_removed};
    ghost use Rattle.applied_state.specs.Delays.{delay_end};
    ghost use Rattle.applied_state.specs.States.{ReplicaState, last_reply};
    ghost use Rattle.session_ttl.specs.Timed.{AreTimed};
    ghost use Rattle.cat_model.specs.Machine.{catalog_at};

    ghost Value = { ReplicaState };

    ghost view = { λ r. record { commands = r.store; clocks = r.clocks.items; office = r.office } };

    ghost invariant = { λ r. (length r.clocks.items ≡ length r.store) × (length r.store ≤ 262144) × (r.reply ≡ last_reply r.store) × (r.removed ≡ has_removed r.store) × ((key : List ℕ) → delay_end r.delays key ≡ delay_over r.store r.clocks.items key) × AreTimed r.timers r.clocks.items r.office (catalog_at r.store).sessions };
}

// The tables of a store, read together.
fn view_of(store: &Store) -> View<'_>
    ensures { Stands result store.now }
{
    View {
        kv: store.kv(),
        catalog: store.catalog(),
        sessions: store.sessions(),
        queries: store.queries(),
        indexes: store.indexes(),
    }
}

impl Replica {
    /// Nothing is applied.
    pub fn new(alloc: Global) -> Result<Replica, Memory>
        ensures { IfOk result (λ r. r ≡ nothing_applied) }
    {
        Ok(Replica {
            store: Store::new(alloc)?,
            clocks: Vec::new(alloc),
            reply: None,
            removed: false,
            office: Office::new(alloc),
            timers: SessionTimers::new(alloc),
            delays: Delays::new(alloc)?,
        })
    }

    /// How many positions are applied, each with its clock.
    pub fn length(&self) -> u64
        ensures commands { result ≡ length self.now.commands }
        ensures clocks { result ≡ length self.now.clocks }
        ensures limit { result ≤ 262144 }
    {
        self.store.length()
    }

    /// The catalog's answer to the last command.
    pub fn last_reply(&self) -> Option<&Applied>
        ensures { option_copied result ≡ last_reply self.now.commands }
    {
        self.reply.as_ref()
    }

    /// A copy of the last reply, to be put into a message or a reply of the cluster.
    pub fn reply(&self, alloc: Global) -> Result<Option<Applied>, Memory>
        ensures { IfOk result (λ reply. reply ≡ last_reply self.now.commands) }
    {
        match &self.reply {
            None => Ok(None),
            Some(applied) => Ok(Some(copies::copy_of(alloc, applied)?)),
        }
    }

    /// Whether a key was removed after the last reap.
    pub fn has_removed(&self) -> bool
        ensures { result ≡ has_removed self.now.commands }
    {
        self.removed
    }

    /// Applies the command at the next position, at this time of the server's clock. The catalog's answer is then the
    /// last reply. It gives the channels that the step fires: a query that hangs on none of them reads as before. After
    /// lack of memory all is as before.
    #[tactic(auto, using(crate::proofs::Replying::last_is))]
    pub fn apply(
        &mut self,
        alloc: Global,
        command: &Shared<Command>,
        now: u64,
    ) -> Result<List<Chan>, Memory>
        requires room { length self.old.commands < 262144 }
        requires kind { is_taken command.now ≡ true }
        ensures ok { OnOk result (self.new ≡ applied_at command.now now self.old) }
        ensures fired { IfOk result (λ chans. FiresJust (fires (catalog_at self.old.commands) command.now (catalog_at (self.old.commands ++ command.now ∷ []))) chans) }
        ensures spares { IfOk result (SparesOthers self.old.commands (self.old.commands ++ command.now ∷ [])) }
        ensures err { OnErr result (self.new ≡ self.old) }
    {
        self.delays.settle(alloc)?;
        self.clocks.push(now)?;
        let position = self.store.length() + 1;
        match self.store.apply(alloc, position, command) {
            Ok((reply, Fired { chans, freed })) => {
                self.reply = Some(reply);
                self.removed = removals::has_removed(
                    self.removed,
                    command,
                    chans.as_slice(),
                    &self.store,
                );
                self.delays.note(freed, now);
                timers::applied(
                    &mut self.timers,
                    &self.office,
                    self.clocks.as_slice(),
                    self.store.sessions(),
                    command,
                    now,
                );
                Ok(chans)
            }
            Err(memory) => {
                self.clocks.pop();
                Err(memory)
            }
        }
    }

    /// The clock at which the lock delay of the key is over, in milliseconds, or 0 where none began.
    pub fn delay_over(&self, key: &str) -> u128
        ensures { result ≡ delay_over self.now.commands self.now.clocks key.now }
    {
        self.delays.until(key)
    }

    /// The session of this identifier.
    pub fn session(&self, id: u128) -> Option<&SessionRow>
        ensures { option_copied result ≡ session_at id (catalog_at self.now.commands).sessions }
    {
        self.store.sessions().get(id)
    }

    /// The answer to the query at all that is applied, with its index. It is one step, also where memory fails.
    pub fn read<L: Ledger>(
        &self,
        alloc: Global,
        query: &Query,
        steps: &mut Steps<L>,
    ) -> Result<(Answer, u64), Memory>
        ensures told { IfOk result (λ r. r ≡ (answer query.now (catalog_at self.now.commands), index_of query.now self.now.commands)) }
        ensures cost { steps.new ≡ steps.old + 1 }
    {
        catalog_query::evaluate(alloc, &view_of(&self.store), query, steps)
    }

    /// The index of the query at all that is applied. It takes no memory, and no answer is made.
    pub fn index(&self, query: &Query) -> u64
        ensures { result ≡ index_of query.now self.now.commands }
    {
        catalog_query::index(&view_of(&self.store), query)
    }

    /// The channels on which the query hangs at all that is applied: one, or two.
    #[tactic(auto, using(crate::proofs::Channels::few_chans))]
    pub fn chans(&self, alloc: Global, query: &Query) -> Result<List<Chan>, Memory>
        ensures chans { IfOk result (λ l. l ≡ chans query.now (catalog_at self.now.commands)) }
        ensures few { IfOk result (λ l. length l ≤ 2) }
    {
        catalog_query::chans(alloc, &view_of(&self.store), query)
    }

    /// What the prepared query that the name names gives at all that is applied: the one of the identifier that the name
    /// spells, if it spells one and there is such a query, and else the one of this name. None where there is no such
    /// query. A limit of 0 is none.
    pub fn execute(
        &self,
        alloc: Global,
        id: Option<u128>,
        name: &str,
        limit: u64,
    ) -> Result<Option<Ran>, Memory>
        ensures { IfOk result (λ ran. ran ≡ execution (catalog_at self.now.commands) id name.now limit) }
    {
        match catalog_query::execute(alloc, &view_of(&self.store), id, name, limit) {
            Ok(ran) => Ok(Some(ran)),
            Err(ExecuteFault::Unknown) => Ok(None),
            Err(ExecuteFault::Memory) => Err(Memory),
        }
    }

    /// The rows that the catalog of all that is applied has of this node, where they stand.
    pub fn remote<'a>(&'a self, alloc: Global, node: &str) -> Result<CatalogRows<'a>, Memory>
        ensures { IfOk result (λ r. r ≡ remote_of node.now (catalog_at self.now.commands)) }
    {
        rows_of_node(alloc, self.store.catalog(), node)
    }
}
