use crate::{Asked, Bytes, Draw, Entry, Event, Mode, Shared, Text, Texts};

/// What a server is in its term.
#[derive(Clone, Copy, Debug, PartialEq, Eq)]
pub enum Role {
    Follower,
    Candidate,
    Leader,
}

impl Role {
    ghost use Rattle.std.specs.Prelude.{◌≡◌};
    ghost use Rattle.cat_model.specs.Role.{leads};

    pub fn leads(self) -> bool
        ensures { result ≡ leads self }
    {
        matches!(self, Role::Leader)
    }
}

/// A server that another one holds for leader.
#[derive(Clone, Copy, Debug, PartialEq, Eq)]
pub struct Held {
    pub server: u32,
    pub term: u64,
    pub role: Role,
}

/// Why a request is refused.
#[derive(Clone, Debug, PartialEq, Eq, Drop)]
pub enum Refusal {
    /// A field of the request is wrong.
    Invalid {
        field: Text,
    },
    /// There is no such route, row or member of an agent.
    NotFound {
        what: Text,
    },
    /// The path takes these methods alone.
    Method {
        allow: Texts,
    },
    TooLarge,
    /// The asked server doesn't lead, and holds no server for leader, or one that doesn't lead.
    NoLeader {
        asked_term: u64,
        asked_role: Role,
        held: Option<Held>,
    },
    /// The leading server has applied no entry of its term yet.
    NotReady {
        term: u64,
        applied_term: u64,
    },
    /// The server entered the request in a term that another one has ended.
    Lost {
        entered: u64,
        found: u64,
    },
    TooMany {
        waiting: u32,
    },
    /// The log would then have so many entries and command bytes.
    LogFull {
        entries: u64,
        bytes: u64,
    },
    Unsupported,
    Memory,
    /// The server's durable store failed, and it has not restarted since.
    Halted {
        server: u32,
    },
    HeadTooLarge,
    NoWorker,
}

/// The form of a reply's body.
#[derive(Clone, Copy, Debug, PartialEq, Eq)]
pub enum Form {
    Json,
    Plain,
    Octets,
}

/// What a reply rests on.
#[derive(Clone, Debug, Drop)]
pub enum Kind {
    /// The catalog's answer to the write at this position of the agreed log.
    Acked {
        position: u64,
    },
    /// The catalog's answer at this prefix of the agreed log, with the query's index there. It came at `clock` of
    /// the answering server, in milliseconds, where the wait is over at `deadline`.
    At {
        mode: Mode,
        prefix: u64,
        index: u64,
        clock: u64,
        deadline: u64,
    },
    /// An execution, or a session's row, at this prefix of the agreed log.
    Seen {
        mode: Mode,
        prefix: u64,
    },
    /// An agent's answer.
    Local {
        body: Bytes,
    },
    /// The key's lock delay is not over: it is `now`, and it is over at `until`.
    Delayed {
        key: Text,
        until: u64,
        now: u64,
    },
    Refused(Refusal),
}

/// A reply to the request with this number. `last_contact` is in milliseconds.
#[derive(Debug, Drop)]
pub struct Reply {
    pub number: u64,
    pub status: u16,
    pub index: Option<u64>,
    pub body: Bytes,
    pub form: Form,
    pub known_leader: bool,
    pub last_contact: u64,
    pub kind: Kind,
}

/// What an event gives to the outside.
#[derive(Debug, Drop)]
pub enum Out {
    Reply(Reply),
    /// The server that held the request restarted in the event with this number.
    Closed { number: u64, event: u64 },
    /// An agent's sync proposed so many commands, or found no leader.
    Synced { agent: u32, count: Option<u32> },
}

/// What has happened in a cluster, one thing after the other.
#[derive(Debug, Drop)]
pub enum Mark {
    Asked {
        number: u64,
        agent: u32,
        asked: Shared<Asked>,
        draw: Draw,
    },
    /// An event other than a request.
    Made(Event),
    /// So many events by which each clock went on by `ms`.
    Advanced {
        ms: u64,
        made: u32,
    },
    /// So many messages that were delivered and then lost, the lowest first, and whether memory sufficed.
    Settled {
        pairs: u32,
        whole: bool,
    },
    Halted {
        server: u32,
    },
    /// An entry that joined the agreed log.
    Entry(Entry),
    Answered {
        number: u64,
        kind: Kind,
        known_leader: bool,
        last_contact: u64,
    },
    /// The request's out was taken.
    Taken {
        number: u64,
    },
}
