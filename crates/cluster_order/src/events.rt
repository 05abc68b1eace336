//! The events that are no requests.

ghost use Rattle.std.specs.Prelude.{◌≡◌, Some, OnOk, OnErr, true};
ghost use Rattle.cat_model.specs.declared.request.Event.TheVariants as event;
ghost use Rattle.cluster_rules.specs.Reached.{IsServerNumber, IsUnderWay, Fits};
ghost use Rattle.cluster_rules.specs.Step.{ClusterStep, goes_to};
ghost use Rattle.cluster_order.specs.Evaluations.{Adds, EvaluatesFor};
ghost use Rattle.cluster_order.specs.Turns.{FindsNoMemory, event_of};

use crate::impulse::Impulse;
use crate::parts::Parts;
use crate::turns::{conclude, react};
use cat_model::{Event, Memory, Steps};
use std::alloc::Global;
use std::sync::ledger::Ledger;

// Makes an event that goes to one server.
#[tactic(none)]
fn impel<P: Parts, L: Ledger>(
    parts: &mut P,
    alloc: Global,
    server: u32,
    impulse: Impulse,
    steps: &mut Steps<L>,
) -> Result<(), Memory>
    requires server { IsServerNumber (P.state parts.old) server }
    requires goes { goes_to (P.state parts.old) (event_of impulse) ≡ Some server }
    requires fits { Fits (P.state parts.old) (event_of impulse) }
    ensures whole { OnOk result (ClusterStep (P.state parts.old) (event_of impulse) (P.state parts.new) true) }
    ensures cut { OnErr result (FindsNoMemory (event_of impulse) (P.state parts.old) (P.state parts.new)) }
    ensures counted { EvaluatesFor (event_of impulse) result steps.old steps.new (P.state parts.old) (P.state parts.new) }
{
    parts.note(&impulse.event());
    let done = react(parts, alloc, server, impulse, steps);
    conclude(parts, done)
}

/// The server's election timeout is over.
pub fn timeout<P: Parts, L: Ledger>(
    parts: &mut P,
    alloc: Global,
    server: u32,
    steps: &mut Steps<L>,
) -> Result<(), Memory>
    requires { IsServerNumber (P.state parts.old) server }
    ensures whole { OnOk result (ClusterStep (P.state parts.old) (event.Timeout server) (P.state parts.new) true) }
    ensures cut { OnErr result (FindsNoMemory (event.Timeout server) (P.state parts.old) (P.state parts.new)) }
    ensures counted { EvaluatesFor (event.Timeout server) result steps.old steps.new (P.state parts.old) (P.state parts.new) }
{
    impel(parts, alloc, server, Impulse::Timeout(server), steps)
}

/// The server sends a heartbeat, if it leads.
pub fn beat<P: Parts, L: Ledger>(
    parts: &mut P,
    alloc: Global,
    server: u32,
    steps: &mut Steps<L>,
) -> Result<(), Memory>
    requires { IsServerNumber (P.state parts.old) server }
    ensures whole { OnOk result (ClusterStep (P.state parts.old) (event.Beat server) (P.state parts.new) true) }
    ensures cut { OnErr result (FindsNoMemory (event.Beat server) (P.state parts.old) (P.state parts.new)) }
    ensures counted { EvaluatesFor (event.Beat server) result steps.old steps.new (P.state parts.old) (P.state parts.new) }
{
    impel(parts, alloc, server, Impulse::Beat(server), steps)
}

/// The message with this number reaches its receiver, and may do so again.
pub fn deliver<P: Parts, L: Ledger>(
    parts: &mut P,
    alloc: Global,
    number: u64,
    steps: &mut Steps<L>,
) -> Result<(), Memory>
    requires { IsUnderWay (P.state parts.old) number }
    ensures whole { OnOk result (ClusterStep (P.state parts.old) (event.Deliver number) (P.state parts.new) true) }
    ensures cut { OnErr result (FindsNoMemory (event.Deliver number) (P.state parts.old) (P.state parts.new)) }
    ensures counted { EvaluatesFor (event.Deliver number) result steps.old steps.new (P.state parts.old) (P.state parts.new) }
{
    let server = parts.receiver(number);
    impel(parts, alloc, server, Impulse::Deliver(number), steps)
}

/// The server restarts with what its durable store holds.
pub fn restart<P: Parts, L: Ledger>(
    parts: &mut P,
    alloc: Global,
    server: u32,
    steps: &mut Steps<L>,
) -> Result<(), Memory>
    requires { IsServerNumber (P.state parts.old) server }
    ensures whole { OnOk result (ClusterStep (P.state parts.old) (event.Restart server) (P.state parts.new) true) }
    ensures cut { OnErr result (FindsNoMemory (event.Restart server) (P.state parts.old) (P.state parts.new)) }
    ensures counted { EvaluatesFor (event.Restart server) result steps.old steps.new (P.state parts.old) (P.state parts.new) }
{
    impel(parts, alloc, server, Impulse::Restart(server), steps)
}

/// The n-th call from now on of the server's durable store is to fail, or none for 0.
pub fn fail_keep<P: Parts, L: Ledger>(
    parts: &mut P,
    alloc: Global,
    server: u32,
    nth: u32,
    steps: &mut Steps<L>,
) -> Result<(), Memory>
    requires { IsServerNumber (P.state parts.old) server }
    ensures whole { OnOk result (ClusterStep (P.state parts.old) (event.FailKeep server nth) (P.state parts.new) true) }
    ensures cut { OnErr result (FindsNoMemory (event.FailKeep server nth) (P.state parts.old) (P.state parts.new)) }
    ensures counted { EvaluatesFor (event.FailKeep server nth) result steps.old steps.new (P.state parts.old) (P.state parts.new) }
{
    impel(parts, alloc, server, Impulse::FailKeep(server, nth), steps)
}

/// The message with this number is lost.
pub fn lose<P: Parts>(parts: &mut P, number: u64)
    requires { IsUnderWay (P.state parts.old) number }
    ensures whole { ClusterStep (P.state parts.old) (event.Drop number) (P.state parts.new) true }
    ensures counted { Adds 0 (P.state parts.old) (P.state parts.new) }
{
    parts.note(&Event::Drop(number));
    parts.lose(number);
    parts.shelve();
}
