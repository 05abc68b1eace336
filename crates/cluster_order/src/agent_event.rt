ghost use Rattle.std.specs.Prelude.{◌≡◌};
ghost use Rattle.cluster_order.specs.AgentEvents.{agent_in, event_of_agent, is_for_agent};

use cat_model::{Asked, Draw, Request, Shared};

/// An agent's event. Agents are numbered from 1.
#[derive(Clone, Copy, Debug)]
pub enum AgentEvent<'a> {
    /// The agent makes the catalog's rows of its node equal to its own.
    Sync {
        agent: u32,
    },
    /// The agent's clock goes on by so many milliseconds.
    Tick {
        agent: u32,
        ms: u64,
    },
    /// A request that the agent itself answers.
    Ask {
        agent: u32,
        asked: &'a Shared<Asked>,
        draw: Draw,
    },
}

impl AgentEvent<'_> {
    pub fn agent(&self) -> u32
        ensures { result ≡ agent_in (event_of_agent self.now) }
    {
        match self {
            AgentEvent::Sync { agent } => *agent,
            AgentEvent::Tick { agent, .. } => *agent,
            AgentEvent::Ask { agent, .. } => *agent,
        }
    }
}

/// The agent itself answers the request.
pub fn is_for_agent(asked: &Asked) -> bool
    ensures { result ≡ is_for_agent asked.now }
{
    matches!(asked, Asked::Good(Request::Agent(_)))
}
