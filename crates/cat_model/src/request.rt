use crate::{Command, List, Query, Refusal, Shared, Status, Text, Texts};

/// How fresh a read is to be.
#[derive(Clone, Copy, Debug, PartialEq, Eq)]
pub enum Mode {
    /// By a server that leads.
    Default,
    /// By a server that a majority has since confirmed as the leader.
    Consistent,
    /// By the asked server as it stands.
    Stale,
}

/// A service as an agent's client gives it.
#[derive(Debug, PartialEq, Eq, Drop)]
pub struct ServiceDef {
    pub id: Text,
    pub name: Text,
    pub tags: Texts,
    pub address: Text,
    pub port: u16,
    pub tag_override: bool,
}

/// A check with a TTL, in milliseconds, as an agent's client gives it.
#[derive(Debug, PartialEq, Eq, Drop)]
pub struct TtlDef {
    pub id: Text,
    pub name: Text,
    pub notes: Text,
    pub service: Text,
    pub status: Status,
    pub ttl_ms: u64,
}

/// What an agent is asked to do with its own rows.
#[derive(Debug, PartialEq, Eq, Drop)]
pub enum AgentOp {
    Services,
    Checks,
    AddService {
        service: ServiceDef,
        checks: List<TtlDef>,
    },
    DropService {
        id: Text,
    },
    AddCheck {
        check: TtlDef,
    },
    DropCheck {
        id: Text,
    },
    Mark {
        id: Text,
        status: Status,
        output: Text,
    },
}

/// A request as HTTP means it.
#[derive(Debug, PartialEq, Eq, Drop)]
pub enum Request {
    /// Answers once the query's index is above `min`, or `wait_ms` are over. A wait of 0 is five minutes, and the
    /// longest is ten. `raw` asks for a key's value alone.
    Read {
        query: Shared<Query>,
        mode: Mode,
        min: u64,
        wait_ms: u64,
        raw: bool,
    },
    /// Executes the prepared query with this identifier or name. A limit of 0 is none.
    Execute {
        name: Text,
        limit: u64,
        mode: Mode,
    },
    Write {
        command: Shared<Command>,
    },
    /// Restarts a session's TTL.
    Renew {
        id: u128,
    },
    Agent(Shared<AgentOp>),
}

/// A request, or the refusal of what is none.
#[derive(Debug, PartialEq, Eq, Drop)]
pub enum Asked {
    Good(Request),
    Bad(Refusal),
}

/// The random words that a request is given, of which an identifier is made.
#[derive(Clone, Copy, Debug, PartialEq, Eq)]
pub struct Draw {
    pub hi: u64,
    pub lo: u64,
}

impl Draw {
    ghost use Rattle.std.specs.Prelude.{◌≡◌, ◌/◌, ◌%◌, ◌^◌};
    ghost use Rattle.cat_model.specs.Identifiers.{identifier};

    /// The identifier that the two words make: a UUID of version 4 (RFC 9562, section 5.4).
    #[tactic(auto, unfolding(crate::specs::Identifiers::identifier))]
    pub fn identifier(self) -> u128
        ensures value { result ≡ identifier self.hi self.lo }
        ensures version { result / 2 ^ 76 % 16 ≡ 4 }
        ensures variant { result / 2 ^ 62 % 4 ≡ 2 }
    {
        let high = self.hi / 65536 * 65536 + 16384 + self.hi % 4096;
        let low = 9_223_372_036_854_775_808 + self.lo % 4_611_686_018_427_387_904;
        u128::from(high) * 18_446_744_073_709_551_616 + u128::from(low)
    }
}

/// What may happen to a cluster in one step. Servers and agents are numbered from 1, and times are milliseconds.
#[derive(Debug, Drop)]
pub enum Event {
    /// The server's election timeout is over.
    Timeout(u32),
    /// The server sends a heartbeat, if it leads.
    Beat(u32),
    /// The server's clock goes on by so much.
    Tick(u32, u64),
    /// The message with this number reaches its receiver, and may do so again.
    Deliver(u64),
    /// The message with this number is lost.
    Drop(u64),
    /// The server restarts with what its durable store holds.
    Restart(u32),
    /// The n-th call from now on of the server's durable store is to fail, or none for 0.
    FailKeep(u32, u32),
    Ask {
        agent: u32,
        asked: Shared<Asked>,
        draw: Draw,
    },
    /// The agent makes the catalog's rows of its node equal to its own.
    Sync(u32),
    /// The agent's clock goes on by so much.
    AgentTick(u32, u64),
}
