//! The tick of a server's clock.

ghost use Rattle.std.specs.Prelude.{◌≡◌, OnOk, OnErr, IfErr, true};
ghost use Rattle.cat_model.specs.declared.request.Event.TheVariants as event;
ghost use Rattle.cluster_rules.specs.Reached.{Fits};
ghost use Rattle.cluster_rules.specs.Step.{ClusterStep};
ghost use Rattle.cluster_order.specs.Evaluations.{EvaluatesFor};
ghost use Rattle.cluster_order.specs.Turns.{FindsNoMemory, IsDone, IsCut};

use crate::cut::Cut;
use crate::parts::Parts;
use crate::turns::{conclude, finish, make_up};
use cat_model::{Event, Memory, Steps};
use std::alloc::Global;
use std::sync::ledger::Ledger;

// What a marked tick makes its server do: its clock goes on, which ends waits, and then it proposes what is due by it.
#[tactic(none)]
fn go_on<P: Parts, L: Ledger>(
    parts: &mut P,
    alloc: Global,
    server: u32,
    ms: u64,
    steps: &mut Steps<L>,
) -> Result<(), Cut>
    requires { Fits (P.state parts.old) (event.Tick server ms) }
    ensures whole { OnOk result (IsDone server (event.Tick server ms) (P.state parts.old) (P.state parts.new)) }
    ensures cut { IfErr result (λ cut. IsCut server (event.Tick server ms) cut (P.state parts.old) (P.state parts.new)) }
    ensures counted { EvaluatesFor (event.Tick server ms) result steps.old steps.new (P.state parts.old) (P.state parts.new) }
{
    match make_up(parts, alloc, server, steps) {
        Ok(_) => {}
        Err(cut) => return Err(cut),
    }
    parts.tick(server, ms);
    match finish(parts, alloc, server, steps) {
        Ok(()) => {}
        Err(_) => return Err(Cut::Within),
    }
    match parts.tend(alloc, server) {
        Ok(()) => {}
        Err(Memory) => return Err(Cut::Within),
    }
    finish(parts, alloc, server, steps)
}

/// The server's clock goes on by so many milliseconds, and stays at or below 2 ^ 53.
#[tactic(none)]
pub fn tick<P: Parts, L: Ledger>(
    parts: &mut P,
    alloc: Global,
    server: u32,
    ms: u64,
    steps: &mut Steps<L>,
) -> Result<(), Memory>
    requires { Fits (P.state parts.old) (event.Tick server ms) }
    ensures whole { OnOk result (ClusterStep (P.state parts.old) (event.Tick server ms) (P.state parts.new) true) }
    ensures cut { OnErr result (FindsNoMemory (event.Tick server ms) (P.state parts.old) (P.state parts.new)) }
    ensures counted { EvaluatesFor (event.Tick server ms) result steps.old steps.new (P.state parts.old) (P.state parts.new) }
{
    parts.note(&Event::Tick(server, ms));
    let done = go_on(parts, alloc, server, ms, steps);
    conclude(parts, done)
}
