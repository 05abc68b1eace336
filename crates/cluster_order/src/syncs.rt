//! The events of agents: what an agent does by itself, and its sync with the leader's catalog.

ghost use Rattle.std.specs.Prelude.{◌≡◌, ℕ, Some, IfErr, OnOk, OnErr, true};
ghost use Rattle.cluster_rules.specs.Reached.{Fits, IsServerNumber};
ghost use Rattle.cluster_rules.specs.Proposals.{is_agents, sync_of};
ghost use Rattle.cluster_rules.specs.Requests.{Goes};
ghost use Rattle.cluster_rules.specs.Step.{ClusterStep, noted};
ghost use Rattle.cluster_order.specs.Evaluations.{Adds, EvaluatesFor};
ghost use Rattle.cluster_order.specs.Turns.{FindsNoMemory, IsTaken, way_of};
ghost use Rattle.cluster_order.specs.AgentEvents.{IsAlone, IsNoted, IsSynced, IsSyncedInPart, SyncsThere, agent_in, event_of_agent, sync_way};

use crate::agent_event::AgentEvent;
use crate::cut::Cut;
use crate::parts::{Parts, Way};
use crate::turns::{conclude, cut_after, finish, make_up};
use cat_model::{Event, Memory, Steps};
use std::alloc::Global;
use std::sync::ledger::Ledger;

// Makes the event of an agent that goes to no server.
#[tactic(none)]
fn stay<P: Parts>(
    parts: &mut P,
    alloc: Global,
    event: &AgentEvent,
    leaderless: bool,
) -> Result<(), Memory>
    requires fits { Fits (P.state parts.old) (event_of_agent event.now) }
    requires agents { is_agents (event_of_agent event.now) ≡ true }
    requires takes { IsTaken P.takes (event_of_agent event.now) }
    requires alone { IsAlone leaderless (event_of_agent event.now) (P.state parts.old) }
    ensures whole { OnOk result (ClusterStep (P.state parts.old) (event_of_agent event.now) (P.state parts.new) true) }
    ensures cut { OnErr result (FindsNoMemory (event_of_agent event.now) (P.state parts.old) (P.state parts.new)) }
    ensures counted { Adds 0 (P.state parts.old) (P.state parts.new) }
{
    parts.do_alone(alloc, event, leaderless)?;
    parts.shelve();
    Ok(())
}

// Marks an agent's event. A request gets its number later.
fn note<P: Parts>(parts: &mut P, event: &AgentEvent)
    requires { IsTaken P.takes (event_of_agent event.now) }
    ensures { P.state parts.new ≡ noted (event_of_agent event.now) (P.state parts.old) }
{
    match event {
        AgentEvent::Sync { agent } => parts.note(&Event::Sync(*agent)),
        AgentEvent::Tick { agent, ms } => parts.note(&Event::AgentTick(*agent, *ms)),
        AgentEvent::Ask { agent, asked, draw } => parts.note_request(*agent, asked, *draw),
    }
}

// What an agent's event that was noted makes its server do. The agent does its own part once it has caught up.
#[tactic(none)]
fn carry_out<P: Parts, L: Ledger>(
    parts: &mut P,
    alloc: Global,
    server: u32,
    event: &AgentEvent,
    steps: &mut Steps<L>,
) -> Result<(), Cut>
    requires server { IsServerNumber (P.state parts.old) server }
    requires fits { Fits (P.state parts.old) (event_of_agent event.now) }
    requires agents { is_agents (event_of_agent event.now) ≡ true }
    requires takes { IsTaken P.takes (event_of_agent event.now) }
    requires come { IsNoted (event_of_agent event.now) (P.state parts.old).past }
    requires goes { SyncsThere server (event_of_agent event.now) (P.state parts.old) }
    ensures whole { OnOk result (IsSynced server (event_of_agent event.now) (P.state parts.old) (P.state parts.new)) }
    ensures cut { IfErr result (λ cut. IsSyncedInPart server (event_of_agent event.now) cut (P.state parts.old) (P.state parts.new)) }
    ensures counted { EvaluatesFor (event_of_agent event.now) result steps.old steps.new (P.state parts.old) (P.state parts.new) }
{
    let was = match make_up(parts, alloc, server, steps) {
        Ok(was) => was,
        Err(cut) => return Err(cut),
    };
    match parts.sync_at(alloc, server, event) {
        Ok(()) => finish(parts, alloc, server, steps),
        Err(Cut::Before) => Err(cut_after(was)),
        Err(Cut::Within) => Err(Cut::Within),
    }
}

// Makes the event of an agent whose sync goes to a server.
#[tactic(none)]
fn sync<P: Parts, L: Ledger>(
    parts: &mut P,
    alloc: Global,
    server: u32,
    event: &AgentEvent,
    steps: &mut Steps<L>,
) -> Result<(), Memory>
    requires server { IsServerNumber (P.state parts.old) server }
    requires fits { Fits (P.state parts.old) (event_of_agent event.now) }
    requires agents { is_agents (event_of_agent event.now) ≡ true }
    requires takes { IsTaken P.takes (event_of_agent event.now) }
    requires goes { SyncsThere server (event_of_agent event.now) (P.state parts.old) }
    ensures whole { OnOk result (ClusterStep (P.state parts.old) (event_of_agent event.now) (P.state parts.new) true) }
    ensures cut { OnErr result (FindsNoMemory (event_of_agent event.now) (P.state parts.old) (P.state parts.new)) }
    ensures counted { EvaluatesFor (event_of_agent event.now) result steps.old steps.new (P.state parts.old) (P.state parts.new) }
{
    note(parts, event);
    let done = carry_out(parts, alloc, server, event, steps);
    conclude(parts, done)
}

// Makes the event of an agent whose sync goes this way.
#[tactic(none)]
fn sync_by<P: Parts, L: Ledger>(
    parts: &mut P,
    alloc: Global,
    way: Way,
    event: &AgentEvent,
    steps: &mut Steps<L>,
) -> Result<(), Memory>
    requires fits { Fits (P.state parts.old) (event_of_agent event.now) }
    requires agents { is_agents (event_of_agent event.now) ≡ true }
    requires takes { IsTaken P.takes (event_of_agent event.now) }
    requires syncs { sync_of (P.state parts.old) (event_of_agent event.now) ≡ Some (agent_in (event_of_agent event.now)) }
    requires way { way_of way ≡ sync_way (agent_in (event_of_agent event.now)) (P.state parts.old) }
    requires server { (server : ℕ) → way_of way ≡ Goes server → IsServerNumber (P.state parts.old) server }
    ensures whole { OnOk result (ClusterStep (P.state parts.old) (event_of_agent event.now) (P.state parts.new) true) }
    ensures cut { OnErr result (FindsNoMemory (event_of_agent event.now) (P.state parts.old) (P.state parts.new)) }
    ensures counted { EvaluatesFor (event_of_agent event.now) result steps.old steps.new (P.state parts.old) (P.state parts.new) }
{
    match way {
        Way::Answers(_why) => stay(parts, alloc, event, true),
        Way::Goes(server) => sync(parts, alloc, server, event, steps),
    }
}

/// Makes an agent's event. A sync that is a part of it goes to the leader, if the agent's server knows of one.
#[tactic(none)]
pub fn happen<P: Parts, L: Ledger>(
    parts: &mut P,
    alloc: Global,
    event: &AgentEvent,
    steps: &mut Steps<L>,
) -> Result<(), Memory>
    requires fits { Fits (P.state parts.old) (event_of_agent event.now) }
    requires agents { is_agents (event_of_agent event.now) ≡ true }
    requires takes { IsTaken P.takes (event_of_agent event.now) }
    ensures whole { OnOk result (ClusterStep (P.state parts.old) (event_of_agent event.now) (P.state parts.new) true) }
    ensures cut { OnErr result (FindsNoMemory (event_of_agent event.now) (P.state parts.old) (P.state parts.new)) }
    ensures counted { EvaluatesFor (event_of_agent event.now) result steps.old steps.new (P.state parts.old) (P.state parts.new) }
{
    match parts.sync_of(event) {
        None => stay(parts, alloc, event, false),
        Some(agent) => {
            let way = parts.leader_way(agent);
            sync_by(parts, alloc, way, event, steps)
        }
    }
}
