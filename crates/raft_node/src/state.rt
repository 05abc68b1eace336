//! What a node knows beside its log and its store, and what a step plans of all three.

ghost use Rattle.std.specs.Prelude.{◌≡◌, true, false, None, IfOk};
ghost use Rattle.cat_model.specs.declared.reply.Role.TheVariants.{Follower};
ghost use Rattle.raft_node.specs.Nodes.{IsSame};

use cat_model::{Entry, List, Memory, Role};
use raft_model::Sent;
use std::alloc::Global;

/// What a node knows beside its log and its store (extended Raft paper, figure 2, "State").
#[derive(Drop)]
pub struct State {
    pub id: u32,
    pub servers: u32,
    pub term: u64,
    pub vote: Option<u32>,
    pub commit: u64,
    pub role: Role,
    /// The known leader.
    pub leader: Option<u32>,
    pub halted: bool,
    /// A candidate's: who voted for it.
    pub votes: Vec<u32>,
    /// A leader's, as the three below, which are by server.
    pub round: u64,
    pub next: Vec<u64>,
    pub matched: Vec<u64>,
    /// The round that it acknowledged.
    pub acked: Vec<u64>,
}

/// Entries in place of those of a log behind its first `keep`.
#[derive(Drop)]
pub struct Tail {
    pub keep: usize,
    pub entries: List<Entry>,
}

/// What a step makes of a node where its store works. All that takes memory is in it already.
#[derive(Drop)]
pub struct Planned {
    pub state: State,
    /// What the log changes, where it does.
    pub tail: Option<Tail>,
    pub sent: List<Sent>,
}

// A copy of the servers' numbers.
fn copied(alloc: Global, numbers: &[u64]) -> Result<Vec<u64>, Memory>
    ensures { IfOk result (λ copy. copy.items ≡ numbers.now) }
{
    let copy = Vec::from_clones(alloc, numbers)?;
    Ok(copy)
}

// A copy of the voters.
fn copied_votes(alloc: Global, votes: &[u32]) -> Result<Vec<u32>, Memory>
    ensures { IfOk result (λ copy. copy.items ≡ votes.now) }
{
    let copy = Vec::from_clones(alloc, votes)?;
    Ok(copy)
}

impl State {
    /// A copy, from which a step plans what it becomes.
    pub fn copy(&self, alloc: Global) -> Result<State, Memory>
        ensures { IfOk result (λ copy. IsSame copy self.now) }
    {
        Ok(State {
            votes: copied_votes(alloc, &self.votes)?,
            next: copied(alloc, &self.next)?,
            matched: copied(alloc, &self.matched)?,
            acked: copied(alloc, &self.acked)?,
            ..*self
        })
    }

    /// A store call failed: no step is made until a restart.
    pub fn halt(&mut self)
        ensures { self.new ≡ record self.old { role = Follower; leader = None; halted = true } }
    {
        self.role = Role::Follower;
        self.leader = None;
        self.halted = true;
    }

    /// A restart read this term and vote.
    pub fn begin(&mut self, term: u64, vote: Option<u32>)
        ensures { self.new ≡ record self.old { term = term; vote = vote; commit = 0; role = Follower; leader = None; halted = false } }
    {
        self.term = term;
        self.vote = vote;
        self.commit = 0;
        self.role = Role::Follower;
        self.leader = None;
        self.halted = false;
    }

    /// Term and vote were saved, and then there was no memory.
    pub fn forget(&mut self, term: u64, vote: Option<u32>)
        ensures { self.new ≡ record self.old { term = term; vote = vote; role = Follower; leader = None } }
    {
        self.term = term;
        self.vote = vote;
        self.role = Role::Follower;
        self.leader = None;
    }
}
