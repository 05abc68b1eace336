//! The agents of a cluster.

ghost use Rattle.std.specs.Prelude.{◌≡◌, ◌+◌, ◌<◌, ◌≤◌, IfOk, OnErr, OnOk, is_some, length, replicate, vec_len};
ghost use Rattle.cluster_rules.specs.Agents.{agent_body, change, local_of, new_agent, ticked, wants_sync};
ghost use Rattle.agent_state.specs.Own.{AreOwn};
ghost use Rattle.node_rows.specs.Tags.{all_tagged};
ghost use Rattle.raft_model.specs.Node.{set_server};
ghost use Rattle.cluster_works.specs.Agents.{IsThere, agent_at, agents_with};

use agent_state::{Agent, ChangeFault, OwnParts, own_parts};
use cat_model::{AgentOp, Bytes, Memory};
use node_rows::{OwnRows, Retag};
use std::alloc::Global;
use std::marker::Model;

/// The agents of a cluster, numbered from 1, of which there are at most 64.
#[derive(Drop)]
pub struct Agents {
    agents: Vec<Agent>,
    ghost few: { vec_len agents ≤ 64 },
}

impl Model for Agents {
    ghost use Rattle.std.specs.Prelude.{List};
    ghost use Rattle.cluster_rules.specs.Agents as rules;

    ghost Value = { List rules.Agent };

    ghost view = { λ a. a.agents.items };
}

// The place of an agent in the list.
fn place(number: u32) -> usize
    requires { 0 < number }
    ensures { result + 1 ≡ number }
{
    number as usize - 1
}

impl Agents {
    /// So many agents that nothing has happened to yet.
    pub fn new(alloc: Global, count: u32) -> Result<Agents, Memory>
        requires { count ≤ 64 }
        ensures { IfOk result (λ a. a ≡ replicate count new_agent) }
    {
        let mut agents = Vec::new(alloc);
        for _number in 0..count {
            agents.push(Agent::new(alloc))?;
        }
        Ok(Agents { agents })
    }

    /// How many there are.
    pub fn count(&self) -> u32
        ensures count { result ≡ length self.now }
        ensures few { result ≤ 64 }
    {
        self.agents.len() as u32
    }

    // An agent, whose number has two digits at most.
    #[tactic(auto, using(crate::proofs::AgentPlaces::at_place))]
    fn agent(&self, number: u32) -> &Agent
        requires { IsThere self.now number }
        ensures agent { result.now ≡ agent_at self.now number }
        ensures few { number < 100 }
    {
        &self.agents[place(number)]
    }

    /// The rows that an agent has without being asked for them.
    pub fn own_parts(&self, alloc: Global, number: u32) -> Result<OwnParts, Memory>
        requires { IsThere self.now number }
        ensures { IfOk result (AreOwn number) }
    {
        let _agent = self.agent(number);
        own_parts(alloc, number)
    }

    /// Once so many milliseconds are over, the time of an agent's next sync has come.
    pub fn wants_sync(&self, number: u32, ms: u64) -> bool
        requires { IsThere self.now number }
        ensures { result ≡ wants_sync ms (agent_at self.now number) }
    {
        self.agent(number).wants_sync(ms)
    }

    /// Whether an agent does what it is asked.
    pub fn can_change(&self, number: u32, op: &AgentOp) -> bool
        requires { IsThere self.now number }
        ensures { result ≡ is_some (change number op.now (agent_at self.now number)) }
    {
        self.agent(number).can_change(number, op)
    }

    /// The body of an agent's answer. That to a change is empty.
    pub fn body(&self, alloc: Global, number: u32, op: &AgentOp) -> Result<Bytes, Memory>
        requires { IsThere self.now number }
        ensures { IfOk result (λ body. body ≡ agent_body number op.now (agent_at self.now number)) }
    {
        self.agent(number).body(alloc, number, op)
    }

    /// An agent's rows, which its syncs make those of the catalog, beside those that it has without being asked.
    pub fn own_rows<'a>(
        &'a self,
        alloc: Global,
        number: u32,
        own: &'a OwnParts,
    ) -> Result<OwnRows<'a>, Memory>
        requires there { IsThere self.now number }
        requires own { AreOwn number own.now }
        ensures { IfOk result (λ rows. rows ≡ local_of number (agent_at self.now number)) }
    {
        self.agent(number).own_rows(alloc, own)
    }

    /// An agent does what it is asked. Where it can't, all stays as it is.
    pub fn change(&mut self, alloc: Global, number: u32, op: &AgentOp) -> Result<(), Memory>
        requires { IsThere self.old number }
        ensures ok { OnOk result (self.new ≡ agents_with number (change number op.now (agent_at self.old number)) self.old) }
        ensures err { OnErr result (self.new ≡ self.old) }
    {
        let at = place(number);
        let agent = &mut self.agents[at];
        match agent.change(alloc, number, op) {
            Ok(()) | Err(ChangeFault::Unknown) => Ok(()),
            Err(ChangeFault::Memory) => Err(Memory),
        }
    }

    /// An agent's clock goes on by so many milliseconds. It answers Memory also where the clock would pass 2^64
    /// milliseconds.
    pub fn tick(&mut self, alloc: Global, number: u32, ms: u64) -> Result<(), Memory>
        requires { IsThere self.old number }
        ensures ok { OnOk result (self.new ≡ set_server self.old number (ticked ms (agent_at self.old number))) }
        ensures err { OnErr result (self.new ≡ self.old) }
    {
        let at = place(number);
        let agent = &mut self.agents[at];
        if ms > u64::MAX - agent.clock() {
            return Err(Memory);
        }
        agent.tick(alloc, ms)
    }

    /// An agent's services take over these tags.
    pub fn retag(&mut self, number: u32, tags: Vec<Retag>)
        requires { IsThere self.old number }
        ensures { self.new ≡ set_server self.old number (record (agent_at self.old number) { services = all_tagged tags.items (agent_at self.old number).services }) }
    {
        let at = place(number);
        let agent = &mut self.agents[at];
        agent.retag(tags);
    }
}
