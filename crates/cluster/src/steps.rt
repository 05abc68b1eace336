//! The events of a cluster, as its users make them.

ghost use Rattle.std.specs.Prelude.{◌≡◌, None, IfOk, OnErr, OnOk, true};
ghost use Rattle.cat_model.specs.declared.request.Event.TheVariants as event;
ghost use Rattle.cluster_rules.specs.Reached.{IsAgentNumber};
ghost use Rattle.cluster_rules.specs.Step.{ClusterStep};
ghost use Rattle.cluster_order.specs.Evaluations.{EvaluatesFor, EvaluatesIn, lacking};
ghost use Rattle.cluster_order.specs.Pairs.{IsPartlySettled, IsSettled};
ghost use Rattle.cluster_order.specs.Turns.{FindsNoMemory, IsTaken};
ghost use Rattle.run_rules.specs.Lines.{misfit};
ghost use Rattle.cat_model.specs.Taken.{IsTakenAsked};

use crate::cluster::Cluster;
use cat_model::{Asked, Draw, Event, Memory, Shared, Steps};
use outside::Keeper;
use std::alloc::Global;
use std::sync::ledger::Ledger;

impl<K: Keeper + Drop> Cluster<K> {
    /// Makes an event that fits. What it gives waits to be taken.
    ///
    /// After `Memory` nothing has changed, or the event was cut short and its server is behind: it catches up in the
    /// next event that does something there.
    ///
    /// `steps` counts the queries of reads that are evaluated: at most one for each read that is answered, one for each
    /// that is looked for the first time and waits on, and one more where memory lacks.
    pub fn step<L: Ledger>(
        &mut self,
        alloc: Global,
        event: &Event,
        steps: &mut Steps<L>,
    ) -> Result<(), Memory>
        requires fits { misfit self.old event.now ≡ None }
        requires taken { IsTaken IsTakenAsked event.now }
        ensures whole { OnOk result (ClusterStep self.old event.now self.new true) }
        ensures cut { OnErr result (FindsNoMemory event.now self.old self.new) }
        ensures counted { EvaluatesFor event.now result steps.old steps.new self.old self.new }
    {
        cluster_order::make(self, alloc, event, steps)
    }

    /// Asks an agent, and gives the request's number.
    pub fn ask<L: Ledger>(
        &mut self,
        alloc: Global,
        agent: u32,
        asked: &Shared<Asked>,
        draw: Draw,
        steps: &mut Steps<L>,
    ) -> Result<u64, Memory>
        requires agent { IsAgentNumber self.old agent }
        requires taken { IsTakenAsked asked.now }
        ensures whole { OnOk result (ClusterStep self.old (event.Ask agent asked.now draw) self.new true) }
        ensures number { IfOk result (λ number. number ≡ self.new.asked) }
        ensures cut { OnErr result (FindsNoMemory (event.Ask agent asked.now draw) self.old self.new) }
        ensures counted { EvaluatesFor (event.Ask agent asked.now draw) result steps.old steps.new self.old self.new }
    {
        cluster_order::ask(self, alloc, agent, asked, draw, steps)
    }

    /// Delivers the message with the lowest number and loses it, again and again, at most so often. Gives how often. It
    /// stops before only where no message is left.
    pub fn settle<L: Ledger>(
        &mut self,
        alloc: Global,
        most: u32,
        steps: &mut Steps<L>,
    ) -> Result<u32, Memory>
        ensures whole { IfOk result (λ pairs. IsSettled most pairs self.old self.new) }
        ensures cut { OnErr result (IsPartlySettled most self.old self.new) }
        ensures counted { EvaluatesIn (lacking result) steps.old steps.new self.old self.new }
    {
        cluster_order::settle(self, alloc, most, steps)
    }
}
