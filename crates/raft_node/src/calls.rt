//! The steps of a server, but for those on messages.

ghost use Rattle.std.specs.Prelude.{◌≡◌, ◌≢◌, ◌↔◌, ◌⊎◌, ◌+◌, ◌-◌, ◌^◌, ◌<◌, ℕ, true, false, ◌∷◌, ◌++◌, [], Err, IfErr, IfOk, OnOk, OnErr, IsErrOf};
ghost use Rattle.cat_model.specs.declared.reply.Role.TheVariants.{Follower, Leader};
ghost use Rattle.cat_model.specs.LogLimits.{keeps_limits};
ghost use Rattle.raft_model.specs.Node.{last};
ghost use Rattle.raft_model.specs.Rules.{Beat, Probe, Propose, Timeout, is_confirmed, is_leader};
ghost use Rattle.raft_model.specs.Step.{LogFails, NodeStep, Works};
ghost use Rattle.raft_node.specs.Counts.{bytes_of};
ghost use Rattle.raft_node.specs.Nodes.{may_stand};
ghost use Rattle.raft_node.specs.Steps.{FindsNoMemory, MayPropose, Proposes, Steps};

use crate::counted::{bytes_in_log, counted_at, fits};
use crate::elections::elects;
use crate::fault::{ProbeFault, ProposeFault};
use crate::leader::appends;
use crate::node::Node;
use crate::outbox::append_all;
use crate::quorum::have_reached;
use cat_model::{Command, Entry, List, Memory, Role, Shared};
use outside::Keeper;
use raft_model::{Place, Round, Sent};
use std::alloc::Global;

impl<K: Keeper + Drop> Node<K> {
    // A halted node follows.
    fn leads(&self) -> bool
        ensures leads { result ≡ is_leader self.now.role }
        ensures halted { self.now.halted ≡ true → self.now.role ≡ Follower }
    {
        self.state.role == Role::Leader
    }

    // Whether a timeout makes it a candidate.
    fn may_stand(&self) -> bool
        ensures { result ≡ may_stand self.now }
    {
        !self.state.halted && self.state.role != Role::Leader && self.state.term < u64::MAX
    }

    /// The election timeout is over: a server that doesn't lead stands for the next term. Gives what it sends.
    pub fn timeout(&mut self, alloc: Global) -> Result<List<Sent>, Memory>
        ensures ok { IfOk result (Steps self.old Timeout self.new) }
        ensures memory { OnErr result (FindsNoMemory self.old Timeout self.new) }
    {
        if !self.may_stand() {
            return Ok(List::new(alloc));
        }
        let planned = elects(alloc, &self.state, self.log.as_slice())?;
        self.make(alloc, planned)
    }

    /// A leader's heartbeat. Gives what it sends.
    pub fn beat(&mut self, alloc: Global) -> Result<List<Sent>, Memory>
        ensures ok { IfOk result (NodeStep Works self.old Beat self.new) }
        ensures memory { OnErr result (self.new ≡ self.old) }
    {
        if !self.leads() {
            return Ok(List::new(alloc));
        }
        append_all(alloc, &self.state, self.log.as_slice(), &[])
    }

    /// How many bytes the commands of the log have, Noops' not counted, and 2^64 - 1 where they have more. Entries that
    /// a proposal counted are not read again.
    pub fn log_bytes(&self) -> u64
        ensures { result ≡ bytes_of self.now.log }
    {
        let last = self.log.len();
        let counted = counted_at(self.log.as_slice(), self.counted, last);
        counted.bytes
    }

    // Whether the log has room for this command.
    fn has_room(&mut self, command: &Command) -> bool
        ensures room { (term number : ℕ) → result ≡ keeps_limits (self.old.log ++ record { term = term; number = number; command = command.now } ∷ []) }
        ensures same { self.new ≡ self.old }
    {
        let last = self.log.len();
        let counted = counted_at(self.log.as_slice(), self.counted, last);
        self.counted = counted;
        fits(last, counted.bytes, bytes_in_log(command))
    }

    // Whether a proposal of this command may be made.
    fn admits(&mut self, command: &Command) -> Result<(), ProposeFault>
        ensures ok { OnOk result ((number : ℕ) → MayPropose self.old number command.now) }
        ensures fault { IfErr result (λ fault. (number : ℕ) → Proposes self.old number command.now self.new (Err fault)) }
        ensures same { self.new ≡ self.old }
    {
        if self.halted() {
            return Err(ProposeFault::Halted);
        }
        if !self.leads() {
            return Err(ProposeFault::NotLeader);
        }
        if !self.has_room(command) {
            return Err(ProposeFault::Full);
        }
        Ok(())
    }

    /// Puts a command with this number into a leader's log. Gives its place and what is sent.
    pub fn propose(
        &mut self,
        alloc: Global,
        number: u64,
        command: Shared<Command>,
    ) -> Result<(Place, List<Sent>), ProposeFault>
        ensures { Proposes self.old number command self.new result }
    {
        if let Err(fault) = self.admits(&command) {
            return Err(fault);
        }
        self.enter(alloc, number, command)
    }

    // Appends the entry of a proposal that may be made.
    fn enter(
        &mut self,
        alloc: Global,
        number: u64,
        command: Shared<Command>,
    ) -> Result<(Place, List<Sent>), ProposeFault>
        requires { MayPropose self.old number command }
        ensures ok { IfOk result (λ done. NodeStep Works self.old (Propose number command) self.new done.1) }
        ensures place { IfOk result (λ done. done.0 ≡ record { index = last self.new; term = self.new.term }) }
        ensures runs { OnOk result (self.new.halted ≡ false) }
        ensures halts { IsErrOf result ProposeFault.Halted → NodeStep LogFails self.old (Propose number command) self.new [] }
        ensures err { OnErr result (IsErrOf result ProposeFault.Halted ⊎ IsErrOf result ProposeFault.Memory) }
        ensures memory { IsErrOf result ProposeFault.Memory → self.new ≡ self.old }
    {
        let entry = Entry {
            term: self.state.term,
            number,
            command,
        };
        let state = self.state.copy(alloc)?;
        let planned = appends(alloc, state, self.log.as_slice(), entry)?;
        let sent = self.make(alloc, planned)?;
        if self.state.halted {
            return Err(ProposeFault::Halted);
        }
        let place = Place {
            index: self.last(),
            term: self.state.term,
        };
        Ok((place, sent))
    }

    /// Begins the next round of acknowledgements. Gives it and what is sent.
    pub fn probe(&mut self, alloc: Global) -> Result<(Round, List<Sent>), ProbeFault>
        requires { self.old.round < 2 ^ 64 - 1 }
        ensures ok { IfOk result (λ done. (self.old.role ≡ Leader) × NodeStep Works self.old Probe self.new done.1) }
        ensures round { IfOk result (λ done. done.0 ≡ record { term = self.new.term; number = self.new.round; commit = self.new.commit }) }
        ensures not_leader { IsErrOf result ProbeFault.NotLeader ↔ (self.old.role ≢ Leader) }
        ensures as_before { OnErr result (self.new ≡ self.old) }
    {
        if !self.leads() {
            return Err(ProbeFault::NotLeader);
        }
        let mut state = self.state.copy(alloc)?;
        state.round = self.state.round + 1;
        let sent = append_all(alloc, &state, self.log.as_slice(), &[])?;
        let round = Round {
            term: state.term,
            number: state.round,
            commit: state.commit,
        };
        self.state = state;
        Ok((round, sent))
    }

    /// The node leads in the round's term, and more than half of the servers, itself counted, have acknowledged that
    /// round or a later one.
    pub fn confirmed(&self, round: &Round) -> bool
        ensures { result ≡ is_confirmed self.now round.now }
    {
        if !self.leads() {
            return false;
        }
        if self.state.term != round.term {
            return false;
        }
        let state = &self.state;
        have_reached(state.id, state.servers, &state.acked, round.number)
    }
}
