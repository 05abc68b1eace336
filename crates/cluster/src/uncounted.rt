//! The events of a cluster for those who ask for no count of what is evaluated.

ghost use Rattle.std.specs.Prelude.{◌≡◌, ◌<◌, None, IfOk, OnErr, OnOk, true};
ghost use Rattle.cat_model.specs.declared.request.Event.TheVariants as event;
ghost use Rattle.cluster_rules.specs.Reached.{IsAgentNumber};
ghost use Rattle.cluster_rules.specs.Step.{ClusterStep};
ghost use Rattle.cluster_order.specs.Pairs.{IsPartlySettled, IsSettled};
ghost use Rattle.cluster_order.specs.Turns.{FindsNoMemory, IsTaken};
ghost use Rattle.run_rules.specs.Lines.{misfit};
ghost use Rattle.cat_model.specs.Taken.{IsTakenAsked};

use crate::cluster::Cluster;
use cat_model::{Asked, Draw, Event, Memory, Shared, Steps};
use outside::Keeper;
use std::alloc::Global;
use std::sync::ledger::{Blank, Ledger};

/// `Cluster::step` with a count of its own.
pub(crate) fn step<K: Keeper + Drop, L: Ledger>(
    cluster: &mut Cluster<K>,
    alloc: Global,
    event: &Event,
    blank: Blank,
) -> Result<(), Memory>
    requires name { blank.name ≡ L.name }
    requires parts { blank.parts ≡ L.parts }
    requires some { 0 < L.parts }
    requires fits { misfit cluster.old event.now ≡ None }
    requires taken { IsTaken IsTakenAsked event.now }
    ensures whole { OnOk result (ClusterStep cluster.old event.now cluster.new true) }
    ensures cut { OnErr result (FindsNoMemory event.now cluster.old cluster.new) }
{
    let mut steps: Steps<L> = Steps::new(blank);
    cluster.step(alloc, event, &mut steps)
}

/// `Cluster::ask` with a count of its own.
pub(crate) fn ask<K: Keeper + Drop, L: Ledger>(
    cluster: &mut Cluster<K>,
    alloc: Global,
    agent: u32,
    asked: &Shared<Asked>,
    draw: Draw,
    blank: Blank,
) -> Result<u64, Memory>
    requires name { blank.name ≡ L.name }
    requires parts { blank.parts ≡ L.parts }
    requires some { 0 < L.parts }
    requires agent { IsAgentNumber cluster.old agent }
    requires taken { IsTakenAsked asked.now }
    ensures whole { OnOk result (ClusterStep cluster.old (event.Ask agent asked.now draw) cluster.new true) }
    ensures number { IfOk result (λ number. number ≡ cluster.new.asked) }
    ensures cut { OnErr result (FindsNoMemory (event.Ask agent asked.now draw) cluster.old cluster.new) }
{
    let mut steps: Steps<L> = Steps::new(blank);
    cluster.ask(alloc, agent, asked, draw, &mut steps)
}

/// `Cluster::settle` with a count of its own.
pub(crate) fn settle<K: Keeper + Drop, L: Ledger>(
    cluster: &mut Cluster<K>,
    alloc: Global,
    most: u32,
    blank: Blank,
) -> Result<u32, Memory>
    requires name { blank.name ≡ L.name }
    requires parts { blank.parts ≡ L.parts }
    requires some { 0 < L.parts }
    ensures whole { IfOk result (λ pairs. IsSettled most pairs cluster.old cluster.new) }
    ensures cut { OnErr result (IsPartlySettled most cluster.old cluster.new) }
{
    let mut steps: Steps<L> = Steps::new(blank);
    cluster.settle(alloc, most, &mut steps)
}
