ghost use Rattle.std.specs.Prelude.{◌≡◌, ℕ, IfOk, IfErr, OnOk, OnErr, false, true};
ghost use Rattle.cat_model.specs.declared.request.Event.TheVariants as event;
ghost use Rattle.cluster_rules.specs.Reached.{IsServerNumber, IsAgentNumber};
ghost use Rattle.cluster_rules.specs.Requests.{Goes, Answers};
ghost use Rattle.cluster_rules.specs.Step.{ClusterStep};
ghost use Rattle.cluster_order.specs.AgentEvents.{is_for_agent};
ghost use Rattle.cluster_order.specs.Evaluations.{Adds, EvaluatesFor};
ghost use Rattle.cluster_order.specs.Turns.{FindsNoMemory, GoesBy, IsCome, IsServed, IsServedCut, way_of};

use crate::agent_event::{AgentEvent, is_for_agent};
use crate::cut::Cut;
use crate::parts::{Parts, Way};
use crate::syncs::happen;
use crate::turns::{conclude, cut_after, finish, make_up};
use cat_model::{Asked, Draw, Memory, Refusal, Shared, Steps};
use std::alloc::Global;
use std::sync::ledger::Ledger;

// What a request that was noted makes its server do. It takes its number once it has caught up.
#[tactic(none)]
fn serve<P: Parts, L: Ledger>(
    parts: &mut P,
    alloc: Global,
    server: u32,
    agent: u32,
    asked: &Shared<Asked>,
    draw: Draw,
    steps: &mut Steps<L>,
) -> Result<(), Cut>
    requires server { IsServerNumber (P.state parts.old) server }
    requires takes { P.takes asked.now }
    requires come { IsCome agent asked.now draw (P.state parts.old).past }
    requires goes { GoesBy agent asked.now (Goes server) (P.state parts.old) }
    ensures whole { OnOk result (IsServed server agent asked.now draw (P.state parts.old) (P.state parts.new)) }
    ensures cut { IfErr result (λ cut. IsServedCut server agent asked.now draw cut (P.state parts.old) (P.state parts.new)) }
    ensures counted { EvaluatesFor (event.Ask agent asked.now draw) result steps.old steps.new (P.state parts.old) (P.state parts.new) }
{
    let was = match make_up(parts, alloc, server, steps) {
        Ok(was) => was,
        Err(cut) => return Err(cut),
    };
    match parts.handle(alloc, server, agent, asked, draw) {
        Ok(()) => finish(parts, alloc, server, steps),
        Err(Memory) => Err(cut_after(was)),
    }
}

// Makes the event of a request that goes to a server.
#[tactic(none)]
fn ask_at<P: Parts, L: Ledger>(
    parts: &mut P,
    alloc: Global,
    server: u32,
    agent: u32,
    asked: &Shared<Asked>,
    draw: Draw,
    steps: &mut Steps<L>,
) -> Result<(), Memory>
    requires server { IsServerNumber (P.state parts.old) server }
    requires takes { P.takes asked.now }
    requires goes { GoesBy agent asked.now (Goes server) (P.state parts.old) }
    ensures whole { OnOk result (ClusterStep (P.state parts.old) (event.Ask agent asked.now draw) (P.state parts.new) true) }
    ensures cut { OnErr result (FindsNoMemory (event.Ask agent asked.now draw) (P.state parts.old) (P.state parts.new)) }
    ensures counted { EvaluatesFor (event.Ask agent asked.now draw) result steps.old steps.new (P.state parts.old) (P.state parts.new) }
{
    parts.note_request(agent, asked, draw);
    let done = serve(parts, alloc, server, agent, asked, draw, steps);
    conclude(parts, done)
}

// Makes the event of a request that is refused at once.
fn ask_none<P: Parts>(
    parts: &mut P,
    alloc: Global,
    agent: u32,
    asked: &Shared<Asked>,
    draw: Draw,
    why: Refusal,
) -> Result<(), Memory>
    requires takes { P.takes asked.now }
    requires answers { GoesBy agent asked.now (Answers why) (P.state parts.old) }
    ensures whole { OnOk result (ClusterStep (P.state parts.old) (event.Ask agent asked.now draw) (P.state parts.new) true) }
    ensures same { OnErr result (P.state parts.new ≡ P.state parts.old) }
    ensures counted { Adds 0 (P.state parts.old) (P.state parts.new) }
{
    parts.refuse(alloc, agent, asked, draw, why)?;
    parts.shelve();
    Ok(())
}

// Makes the event of a request that goes this way.
#[tactic(none)]
fn ask_by<P: Parts, L: Ledger>(
    parts: &mut P,
    alloc: Global,
    way: Way,
    agent: u32,
    asked: &Shared<Asked>,
    draw: Draw,
    steps: &mut Steps<L>,
) -> Result<(), Memory>
    requires takes { P.takes asked.now }
    requires way { GoesBy agent asked.now (way_of way) (P.state parts.old) }
    requires server { (server : ℕ) → way_of way ≡ Goes server → IsServerNumber (P.state parts.old) server }
    ensures whole { OnOk result (ClusterStep (P.state parts.old) (event.Ask agent asked.now draw) (P.state parts.new) true) }
    ensures cut { OnErr result (FindsNoMemory (event.Ask agent asked.now draw) (P.state parts.old) (P.state parts.new)) }
    ensures counted { EvaluatesFor (event.Ask agent asked.now draw) result steps.old steps.new (P.state parts.old) (P.state parts.new) }
{
    match way {
        Way::Answers(why) => ask_none(parts, alloc, agent, asked, draw, why),
        Way::Goes(server) => ask_at(parts, alloc, server, agent, asked, draw, steps),
    }
}

// Makes the event of a request that no agent answers.
#[tactic(none)]
fn ask_servers<P: Parts, L: Ledger>(
    parts: &mut P,
    alloc: Global,
    agent: u32,
    asked: &Shared<Asked>,
    draw: Draw,
    steps: &mut Steps<L>,
) -> Result<(), Memory>
    requires agent { IsAgentNumber (P.state parts.old) agent }
    requires takes { P.takes asked.now }
    requires plain { is_for_agent asked.now ≡ false }
    ensures whole { OnOk result (ClusterStep (P.state parts.old) (event.Ask agent asked.now draw) (P.state parts.new) true) }
    ensures cut { OnErr result (FindsNoMemory (event.Ask agent asked.now draw) (P.state parts.old) (P.state parts.new)) }
    ensures counted { EvaluatesFor (event.Ask agent asked.now draw) result steps.old steps.new (P.state parts.old) (P.state parts.new) }
{
    let way = parts.way(alloc, agent, asked)?;
    ask_by(parts, alloc, way, agent, asked, draw, steps)
}

/// Makes the event of a request. An agent's is answered by the agent itself.
#[tactic(none)]
pub fn request<P: Parts, L: Ledger>(
    parts: &mut P,
    alloc: Global,
    agent: u32,
    asked: &Shared<Asked>,
    draw: Draw,
    steps: &mut Steps<L>,
) -> Result<(), Memory>
    requires agent { IsAgentNumber (P.state parts.old) agent }
    requires takes { P.takes asked.now }
    ensures whole { OnOk result (ClusterStep (P.state parts.old) (event.Ask agent asked.now draw) (P.state parts.new) true) }
    ensures cut { OnErr result (FindsNoMemory (event.Ask agent asked.now draw) (P.state parts.old) (P.state parts.new)) }
    ensures counted { EvaluatesFor (event.Ask agent asked.now draw) result steps.old steps.new (P.state parts.old) (P.state parts.new) }
{
    if is_for_agent(asked) {
        happen(parts, alloc, &AgentEvent::Ask { agent, asked, draw }, steps)
    } else {
        ask_servers(parts, alloc, agent, asked, draw, steps)
    }
}

/// Makes the event of a request, and gives its number.
#[tactic(none)]
pub fn ask<P: Parts, L: Ledger>(
    parts: &mut P,
    alloc: Global,
    agent: u32,
    asked: &Shared<Asked>,
    draw: Draw,
    steps: &mut Steps<L>,
) -> Result<u64, Memory>
    requires agent { IsAgentNumber (P.state parts.old) agent }
    requires takes { P.takes asked.now }
    ensures whole { OnOk result (ClusterStep (P.state parts.old) (event.Ask agent asked.now draw) (P.state parts.new) true) }
    ensures number { IfOk result (λ number. number ≡ (P.state parts.new).asked) }
    ensures cut { OnErr result (FindsNoMemory (event.Ask agent asked.now draw) (P.state parts.old) (P.state parts.new)) }
    ensures counted { EvaluatesFor (event.Ask agent asked.now draw) result steps.old steps.new (P.state parts.old) (P.state parts.new) }
{
    request(parts, alloc, agent, asked, draw, steps)?;
    Ok(parts.asked())
}
