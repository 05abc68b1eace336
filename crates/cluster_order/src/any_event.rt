//! Any event that fits.

ghost use Rattle.std.specs.Prelude.{OnOk, OnErr, true};
ghost use Rattle.cluster_rules.specs.Reached.{Fits};
ghost use Rattle.cluster_rules.specs.Step.{ClusterStep};
ghost use Rattle.cluster_order.specs.Evaluations.{EvaluatesFor};
ghost use Rattle.cluster_order.specs.Turns.{FindsNoMemory, IsTaken};

use crate::agent_event::AgentEvent;
use crate::events::{beat, deliver, fail_keep, lose, restart, timeout};
use crate::parts::Parts;
use crate::requests::request;
use crate::syncs::happen;
use crate::ticks::tick;
use cat_model::{Event, Memory, Steps};
use std::alloc::Global;
use std::sync::ledger::Ledger;

/// Makes an event that fits.
pub fn make<P: Parts, L: Ledger>(
    parts: &mut P,
    alloc: Global,
    made: &Event,
    steps: &mut Steps<L>,
) -> Result<(), Memory>
    requires fits { Fits (P.state parts.old) made.now }
    requires taken { IsTaken P.takes made.now }
    ensures whole { OnOk result (ClusterStep (P.state parts.old) made.now (P.state parts.new) true) }
    ensures cut { OnErr result (FindsNoMemory made.now (P.state parts.old) (P.state parts.new)) }
    ensures counted { EvaluatesFor (made.now) result steps.old steps.new (P.state parts.old) (P.state parts.new) }
{
    match made {
        Event::Timeout(server) => timeout(parts, alloc, *server, steps),
        Event::Beat(server) => beat(parts, alloc, *server, steps),
        Event::Tick(server, ms) => tick(parts, alloc, *server, *ms, steps),
        Event::Deliver(number) => deliver(parts, alloc, *number, steps),
        Event::Drop(number) => {
            lose(parts, *number);
            Ok(())
        }
        Event::Restart(server) => restart(parts, alloc, *server, steps),
        Event::FailKeep(server, nth) => fail_keep(parts, alloc, *server, *nth, steps),
        Event::Ask { agent, asked, draw } => request(parts, alloc, *agent, asked, *draw, steps),
        Event::Sync(agent) => happen(parts, alloc, &AgentEvent::Sync { agent: *agent }, steps),
        Event::AgentTick(agent, ms) => happen(
            parts,
            alloc,
            &AgentEvent::Tick {
                agent: *agent,
                ms: *ms,
            },
            steps,
        ),
    }
}
