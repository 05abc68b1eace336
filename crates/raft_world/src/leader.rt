//! What a leader is asked: proposals and rounds of acknowledgements.

ghost use Rattle.std.specs.Prelude.{◌≡◌, ◌-◌, ◌^◌, ◌<◌, ◌↔◌, ℕ, IfOk, IsErrOf, OnErr};
ghost use Rattle.raft_model.specs.Node as model;
ghost use Rattle.raft_model.specs.Rules.{Propose};
ghost use Rattle.raft_model.specs.World.{IsNew, IsServer};
ghost use Rattle.raft_world.specs.Steps.{Begun, IsNumber, KeepsAgreement, Leads, Places, Proposes, Shows, counted};

use crate::steps::{place, settle};
use crate::world::World;
use cat_model::{Command, Shared};
use outside::Keeper;
use raft_model::{Place, Round};
use raft_node::{ProbeFault, ProposeFault};
use std::alloc::Global;

// The number of a refused proposal counts too, but not where there was no memory.
fn counted(fault: ProposeFault, number: u64, greatest: u64) -> u64
    ensures { result ≡ counted fault number greatest }
{
    match fault {
        ProposeFault::Memory => greatest,
        ProposeFault::NotLeader | ProposeFault::Halted | ProposeFault::Full => greatest.max(number),
    }
}

impl<K: Keeper + Drop> World<K> {
    /// Proposes a command at a server, with a number that is 0 or above all proposed before. Gives the place of its
    /// entry. The number counts as proposed, also where the proposal is refused; only where there is no memory the
    /// world is as before.
    pub fn propose(
        &mut self,
        alloc: Global,
        s: u32,
        number: u64,
        command: Shared<Command>,
    ) -> Result<Place, ProposeFault>
        requires server { IsNumber s self.old }
        requires fresh { IsNew self.old (Propose number command) }
        ensures answer { Proposes self.old s number command self.new result }
        ensures placed { IfOk result (Places self.old s number command self.new) }
        ensures agreement { KeepsAgreement self.old self.new }
    {
        let at = place(s);
        match self.nodes[at].propose(alloc, number, command) {
            Ok((place, sent)) => {
                self.greatest = self.greatest.max(number);
                settle(
                    &self.nodes,
                    &self.clocks,
                    &mut self.contacts,
                    &mut self.bag,
                    &mut self.agreed,
                    at,
                    sent,
                );
                Ok(place)
            }
            Err(fault) => {
                self.greatest = counted(fault, number, self.greatest);
                Err(fault)
            }
        }
    }

    /// Begins the next round of acknowledgements at a server that runs and leads. After an error the world is as
    /// before.
    pub fn probe(&mut self, alloc: Global, s: u32) -> Result<Round, ProbeFault>
        requires server { IsNumber s self.old }
        requires rounds { (n : model.Node) → IsServer self.old s n → n.round < 2 ^ 64 - 1 }
        ensures ok { IfOk result (Begun self.old s self.new) }
        ensures shows { IfOk result (Shows self.old s) }
        ensures not_leader { IsErrOf result ProbeFault.NotLeader ↔ (¬ Leads self.old s) }
        ensures err { OnErr result (self.new ≡ self.old) }
        ensures agreement { KeepsAgreement self.old self.new }
    {
        let at = place(s);
        if self.nodes[at].halted() {
            return Err(ProbeFault::NotLeader);
        }
        let (round, sent) = self.nodes[at].probe(alloc)?;
        settle(
            &self.nodes,
            &self.clocks,
            &mut self.contacts,
            &mut self.bag,
            &mut self.agreed,
            at,
            sent,
        );
        Ok(round)
    }
}
