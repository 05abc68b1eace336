ghost use Rattle.std.specs.Prelude.{◌≡◌, ◌≢◌, ◌<◌, ℕ, None, Some, false, true, IfOk, IfErr, OnOk, OnErr, length};
ghost use Rattle.cat_model.specs.declared.request.Asked.{Asked as SpecAsked};
ghost use Rattle.cat_model.specs.declared.request.Event.{Event as SpecEvent};
ghost use Rattle.cat_model.specs.declared.request.Event.TheVariants as event;
ghost use Rattle.raft_model.specs.World.{numbered as packet};
ghost use Rattle.cluster_rules.specs.Cluster.{Cluster};
ghost use Rattle.cluster_rules.specs.Due.{due};
ghost use Rattle.cluster_rules.specs.Left.{left};
ghost use Rattle.cluster_rules.specs.Reached.{IsServerNumber, IsAgentNumber, IsUnderWay, Fits};
ghost use Rattle.cluster_rules.specs.Requests.{refused, Goes};
ghost use Rattle.cluster_rules.specs.Proposals.{Tends, is_agents, sync_of};
ghost use Rattle.cluster_rules.specs.Step.{goes_to, marked, noted, receiver, shelved};
ghost use Rattle.cluster_order.specs.Evaluations.{EvaluatesIn, lacking};
ghost use Rattle.cluster_order.specs.Turns.{Turned, Ticks, TendsInPart, ActsWhole, ActsCut, event_of, way_of, GoesBy, IsCome, HandlesNewest, IsTaken, Loses, newest};
ghost use Rattle.cluster_order.specs.AgentEvents.{IsAlone, IsNoted, SyncsAt, SyncsInPart, SyncsThere, alone, event_of_agent, is_for_agent, sync_way};
ghost use Rattle.cluster_order.specs.Pairs.{HasLowest, settled};

use crate::agent_event::AgentEvent;
use crate::cut::Cut;
use crate::impulse::Impulse;
use cat_model::{Asked, Draw, Event, Memory, Refusal, Shared, Steps};
use std::alloc::Global;
use std::sync::ledger::Ledger;

/// Where a request goes: it is answered at once, or a server handles it.
#[derive(Drop)]
pub enum Way {
    Answers(Refusal),
    Goes(u32),
}

/// What holds a cluster. Servers and agents are numbered from 1.
pub trait Parts {
    /// The cluster.
    ghost state: { Self → Cluster };

    /// The requests that it takes.
    ghost takes: { SpecAsked → Type 0 };

    /// Does one work that is due at a server, and says whether there was one. It lacks memory only where there is one.
    /// `steps` counts the queries of reads that it evaluates.
    fn turn<L: Ledger>(
        &mut self,
        alloc: Global,
        server: u32,
        steps: &mut Steps<L>,
    ) -> Result<bool, Memory>
        requires { IsServerNumber (state self.old) server }
        ensures turned { IfOk result (λ was. Turned server was (state self.old) (state self.new)) }
        ensures left { IfOk result (λ was. was ≡ true → left server (state self.new) < left server (state self.old)) }
        ensures same { OnErr result (state self.new ≡ state self.old) }
        ensures behind { OnErr result (due server (state self.old) ≢ None) }
        ensures counted { EvaluatesIn (lacking result) steps.old steps.new (state self.old) (state self.new) };

    /// Marks an event, whatever it is.
    fn note(&mut self, made: &Event)
        ensures { state self.new ≡ noted made.now (state self.old) };

    /// Marks an event that is a request, of which the number is still to be given.
    fn note_request(&mut self, agent: u32, asked: &Asked, draw: Draw)
        requires { takes asked.now }
        ensures { state self.new ≡ noted (event.Ask agent asked.now draw) (state self.old) };

    /// Takes the mark of an event back that has changed nothing.
    fn forget(&mut self)
        requires { (made : SpecEvent) × (c : Cluster) × (state self.old ≡ noted made c) }
        ensures { (made : SpecEvent) (c : Cluster) → state self.old ≡ noted made c → state self.new ≡ c };

    /// The server does what the event makes it do.
    fn act(&mut self, alloc: Global, server: u32, impulse: Impulse) -> Result<(), Cut>
        requires server { IsServerNumber (state self.old) server }
        requires goes { goes_to (state self.old) (event_of impulse) ≡ Some server }
        requires fits { Fits (state self.old) (event_of impulse) }
        ensures whole { OnOk result (ActsWhole server (event_of impulse) (state self.old) (state self.new)) }
        ensures cut { IfErr result (λ cut. ActsCut server (event_of impulse) cut (state self.old) (state self.new)) };

    /// The server's clock goes on by so many milliseconds.
    fn tick(&mut self, server: u32, ms: u64)
        requires { Fits (state self.old) (event.Tick server ms) }
        ensures { Ticks server ms (state self.old) (state self.new) };

    /// The server proposes what is due by its clock, if it leads. Where it lacks memory it did a first part of that, or
    /// nothing.
    fn tend(&mut self, alloc: Global, server: u32) -> Result<(), Memory>
        requires server { IsServerNumber (state self.old) server }
        requires made_up { due server (state self.old) ≡ None }
        ensures whole { OnOk result (Tends server (state self.old) (state self.new) true) }
        ensures cut { OnErr result (TendsInPart server (state self.old) (state self.new)) };

    /// Lets the event's outs join the tray.
    fn shelve(&mut self)
        ensures { state self.new ≡ shelved (state self.old) };

    /// The server to which a message goes.
    fn receiver(&self, number: u64) -> u32
        requires { IsUnderWay (state self.now) number }
        ensures receiver { receiver (packet number (state self.now).world.bag.packets) ≡ Some result }
        ensures server { IsServerNumber (state self.now) result };

    /// A message is lost.
    fn lose(&mut self, number: u64)
        requires { IsUnderWay (state self.old) number }
        ensures { Loses number (state self.old) (state self.new) };

    /// The lowest number of a message.
    fn lowest(&self) -> Option<u64>
        ensures { HasLowest result (state self.now) };

    /// Marks so many pairs of a delivery and the message's loss.
    fn settled(&mut self, pairs: u32)
        ensures { state self.new ≡ settled pairs (state self.old) };

    /// Where a request goes that no agent answers.
    fn way(&self, alloc: Global, agent: u32, asked: &Shared<Asked>) -> Result<Way, Memory>
        requires agent { IsAgentNumber (state self.now) agent }
        requires takes { takes asked.now }
        requires plain { is_for_agent asked.now ≡ false }
        ensures way { IfOk result (λ way. GoesBy agent asked.now (way_of way) (state self.now)) }
        ensures server { IfOk result (λ way. (server : ℕ) → way_of way ≡ Goes server → IsServerNumber (state self.now) server) };

    /// Marks a request with its number, and refuses it.
    fn refuse(
        &mut self,
        alloc: Global,
        agent: u32,
        asked: &Shared<Asked>,
        draw: Draw,
        why: Refusal,
    ) -> Result<(), Memory>
        requires { takes asked.now }
        ensures ok { OnOk result (let come = marked (event.Ask agent asked.now draw) (state self.old) in state self.new ≡ refused (newest agent asked.now draw come) why come) }
        ensures err { OnErr result (state self.new ≡ state self.old) };

    /// Gives the request that was marked last its number, and does the server's part for it.
    fn handle(
        &mut self,
        alloc: Global,
        server: u32,
        agent: u32,
        asked: &Shared<Asked>,
        draw: Draw,
    ) -> Result<(), Memory>
        requires server { IsServerNumber (state self.old) server }
        requires takes { takes asked.now }
        requires come { IsCome agent asked.now draw (state self.old).past }
        requires goes { GoesBy agent asked.now (Goes server) (state self.old) }
        requires made_up { due server (state self.old) ≡ None }
        ensures ok { OnOk result (HandlesNewest server agent asked.now draw (state self.old) (state self.new)) }
        ensures err { OnErr result (state self.new ≡ state self.old) };

    /// The agent whose sync is a part of the event.
    fn sync_of(&self, event: &AgentEvent) -> Option<u32>
        requires fits { Fits (state self.now) (event_of_agent event.now) }
        requires agents { is_agents (event_of_agent event.now) ≡ true }
        ensures { result ≡ sync_of (state self.now) (event_of_agent event.now) };

    /// Where an agent's sync goes: to the leader, or nowhere.
    fn leader_way(&self, agent: u32) -> Way
        requires { IsAgentNumber (state self.now) agent }
        ensures way { way_of result ≡ sync_way agent (state self.now) }
        ensures server { (server : ℕ) → way_of result ≡ Goes server → IsServerNumber (state self.now) server };

    /// Marks an agent's event that goes to no server, a request with its number, and does the agent's own part.
    /// `leaderless` says that a sync is a part of it, which finds no leader: its out says so.
    fn do_alone(
        &mut self,
        alloc: Global,
        event: &AgentEvent,
        leaderless: bool,
    ) -> Result<(), Memory>
        requires fits { Fits (state self.old) (event_of_agent event.now) }
        requires agents { is_agents (event_of_agent event.now) ≡ true }
        requires takes { IsTaken takes (event_of_agent event.now) }
        requires alone { IsAlone leaderless (event_of_agent event.now) (state self.old) }
        ensures ok { OnOk result (state self.new ≡ alone leaderless (event_of_agent event.now) (state self.old)) }
        ensures err { OnErr result (state self.new ≡ state self.old) };

    /// Gives an agent's request that was marked last its number, does the agent's own part, and then its sync at the
    /// server.
    fn sync_at(&mut self, alloc: Global, server: u32, event: &AgentEvent) -> Result<(), Cut>
        requires server { IsServerNumber (state self.old) server }
        requires fits { Fits (state self.old) (event_of_agent event.now) }
        requires agents { is_agents (event_of_agent event.now) ≡ true }
        requires takes { IsTaken takes (event_of_agent event.now) }
        requires come { IsNoted (event_of_agent event.now) (state self.old).past }
        requires goes { SyncsThere server (event_of_agent event.now) (state self.old) }
        requires made_up { due server (state self.old) ≡ None }
        ensures whole { OnOk result (SyncsAt server (event_of_agent event.now) (state self.old) (state self.new) true) }
        ensures cut { IfErr result (λ cut. SyncsInPart server (event_of_agent event.now) cut (state self.old) (state self.new)) };

    /// How many requests were asked.
    fn asked(&self) -> u64
        ensures { result ≡ (state self.now).asked };
}
