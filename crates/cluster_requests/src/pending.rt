ghost use Rattle.std.specs.Prelude.{◌≡◌, ◌==◌, ℕ, IfNone, IfSome, false};
ghost use Rattle.cluster_rules.specs.Due.{waits};
ghost use Rattle.cluster_rules.specs.Step.{ended};
ghost use Rattle.cluster_requests.specs.Contents.{stand_of};
ghost use Rattle.cluster_requests.specs.Requests.{restood};
ghost use Rattle.cluster_requests.specs.Taking.{awaits_of};

use crate::collected::Awaits;
use crate::question::Question;
use cat_model::Entry;
use raft_model::Round;
use std::marker::Model;

/// What a held request waits for. Deadlines are milliseconds of the server's clock.
#[derive(Clone, Copy, Debug)]
pub enum Stand {
    /// That the server applies this position. It was entered in this term.
    AtPlace { index: u64, term: u64 },
    /// That its round is confirmed.
    InRound { round: Round, deadline: u64 },
    /// An index above the one given. It was `looked` for and was not there, or is to be looked for yet.
    ForIndex { deadline: u64, looked: bool },
    /// To be closed, since its server restarted in the event with this number.
    Ended { event: u64 },
}

/// What the act of a request's asking did, for the record alone. Nothing of it is kept at run time.
#[derive(Debug, Drop)]
pub enum Start {
    Proposed {
        index: u64,
        entry: Entry,
    },
    Probed {
        number: u64,
        server: u32,
        round: Round,
    },
    Looked {
        number: u64,
        server: u32,
        applied: u64,
    },
}

/// A request that a server holds.
#[derive(Drop)]
pub struct Pending {
    question: Question,
    server: u32,
    stand: Stand,
}

impl Model for Pending {
    ghost use Rattle.cluster_rules.specs.Cluster as rules;

    ghost Value = { rules.Pending };

    ghost use Rattle.cluster_requests.specs.Contents.{stand_of};

    ghost view = { λ p. record { question = p.question; server = p.server; stand = stand_of p.stand } };
}

impl Pending {
    pub fn new(question: Question, server: u32, stand: Stand) -> Pending
        ensures { result ≡ record { question = question; server = server; stand = stand_of stand } }
    {
        Pending {
            question,
            server,
            stand,
        }
    }

    pub fn question(&self) -> &Question
        ensures { result.now ≡ self.now.question }
    {
        &self.question
    }

    pub fn number(&self) -> u64
        ensures { result ≡ self.now.question.number }
    {
        self.question.number()
    }

    pub fn server(&self) -> u32
        ensures { result ≡ self.now.server }
    {
        self.server
    }

    pub fn stand(&self) -> Stand
        ensures { stand_of result ≡ self.now.stand }
    {
        self.stand
    }

    /// The server at which it waits for an index, which was looked for and was not there.
    pub fn waits_at(&self) -> Option<u32>
        ensures some { IfSome result (λ server. (i : ℕ) → waits i self.now ≡ (server == i)) }
        ensures none { IfNone result ((i : ℕ) → waits i self.now ≡ false) }
    {
        match self.stand {
            Stand::ForIndex { looked: true, .. } => Some(self.server),
            _ => None,
        }
    }

    /// What it waits for.
    pub fn awaits(&self) -> Awaits
        ensures { result ≡ awaits_of self.now.question.asked self.now.stand }
    {
        match self.stand {
            Stand::AtPlace { index, .. } => Awaits::Position(index),
            Stand::InRound { round, .. } => Awaits::Round(round.number),
            Stand::ForIndex { deadline, .. } => Awaits::Index {
                min: self.question.least(),
                deadline,
            },
            Stand::Ended { .. } => Awaits::Closing,
        }
    }

    /// Waits for something else, where it has this number.
    pub fn restand(&mut self, number: u64, stand: Stand)
        ensures { self.new ≡ restood number (stand_of stand) self.old }
    {
        if self.question.number() == number {
            self.stand = stand;
        }
    }

    /// Is to be closed, where this server holds it, which restarted in the event with this number.
    pub fn end(&mut self, server: u32, event: u64)
        ensures { self.new ≡ ended server event self.old }
    {
        if self.server == server {
            self.stand = Stand::Ended { event };
        }
    }
}
