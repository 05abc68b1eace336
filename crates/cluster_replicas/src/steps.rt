//! The steps of the servers' world. None but a restart changes what a server has applied.

ghost use Rattle.std.specs.Prelude.{◌≡◌, ◌-◌, ◌+◌, ◌^◌, ◌<◌, ◌↔◌, ℕ, true, IfOk, IsErrOf, OnErr, OnOk, is_some};
ghost use Rattle.raft_model.specs.Node as model;
ghost use Rattle.raft_model.specs.Node.{set_server};
ghost use Rattle.raft_model.specs.Rules.{Beat, Propose, Timeout};
ghost use Rattle.raft_model.specs.World.{Arms, Drops, IsNew, IsServer, Restarts, Ticks, WorldStep, numbered};
ghost use Rattle.raft_world.specs.Steps.{Begun, Delivers, FindsNoMemory, IsNumber, KeepsAgreement, Leads, Places, Proposes, Shows, StepsWhole, StepsWorking};
ghost use Rattle.cluster_rules.specs.Cluster.{clock_of, no_server};

use crate::servers::{Servers, place};
use applied_state::Replica;
use cat_model::{Command, Memory, Shared};
use outside::Keeper;
use raft_model::{Place, Round};
use raft_node::{ProbeFault, ProposeFault};
use std::alloc::Global;
use std::mem;

impl<K: Keeper + Drop> Servers<K> {
    /// The election timeout of a server is over.
    pub fn timeout(&mut self, alloc: Global, s: u32) -> Result<(), Memory>
        requires { IsNumber s self.old.world }
        ensures ok { OnOk result (StepsWhole self.old.world s Timeout self.new.world) }
        ensures memory { OnErr result (FindsNoMemory self.old.world s Timeout self.new.world) }
        ensures agreement { KeepsAgreement self.old.world self.new.world }
        ensures servers { self.new.servers ≡ self.old.servers }
    {
        self.world.timeout(alloc, s)
    }

    /// A server that leads sends its heartbeat.
    pub fn beat(&mut self, alloc: Global, s: u32) -> Result<(), Memory>
        requires { IsNumber s self.old.world }
        ensures ok { OnOk result (StepsWorking self.old.world s Beat self.new.world) }
        ensures memory { OnErr result (self.new.world ≡ self.old.world) }
        ensures agreement { KeepsAgreement self.old.world self.new.world }
        ensures servers { self.new.servers ≡ self.old.servers }
    {
        self.world.beat(alloc, s)
    }

    /// The message of this number reaches its receiver. It stays in the bag, and may come again.
    pub fn deliver(&mut self, alloc: Global, k: u64) -> Result<(), Memory>
        requires { is_some (numbered k self.old.world.bag.packets) ≡ true }
        ensures ok { OnOk result (Delivers StepsWhole self.old.world k self.new.world) }
        ensures memory { OnErr result (Delivers FindsNoMemory self.old.world k self.new.world) }
        ensures agreement { KeepsAgreement self.old.world self.new.world }
        ensures servers { self.new.servers ≡ self.old.servers }
    {
        self.world.deliver(alloc, k)
    }

    /// The clock of a server goes on by so many milliseconds. It takes no memory.
    pub fn tick(&mut self, s: u32, d: u64)
        requires number { IsNumber s self.old.world }
        requires fits { clock_of self.old.world s + d < 2 ^ 64 }
        ensures step { WorldStep self.old.world (Ticks s d) self.new.world }
        ensures agreement { KeepsAgreement self.old.world self.new.world }
        ensures servers { self.new.servers ≡ self.old.servers }
    {
        self.world.tick(s, d);
    }

    /// The message of this number is lost. It takes no memory.
    pub fn lose(&mut self, k: u64)
        requires { is_some (numbered k self.old.world.bag.packets) ≡ true }
        ensures step { WorldStep self.old.world (Drops k) self.new.world }
        ensures agreement { KeepsAgreement self.old.world self.new.world }
        ensures servers { self.new.servers ≡ self.old.servers }
    {
        self.world.lose(k);
    }

    /// Makes the call number `nth` of a server's store from now on fail, in place of what was armed before. It takes no
    /// memory.
    pub fn fail_keep(&mut self, s: u32, nth: u32)
        requires { IsNumber s self.old.world }
        ensures step { WorldStep self.old.world (Arms s nth) self.new.world }
        ensures agreement { KeepsAgreement self.old.world self.new.world }
        ensures servers { self.new.servers ≡ self.old.servers }
    {
        self.world.fail_keep(s, nth);
    }

    /// Proposes a command at a server, with a number that is 0 or above all proposed before. Gives the place of its
    /// entry. The number counts as proposed, also where the proposal is refused; only where there is no memory the
    /// world is as before.
    pub fn propose(
        &mut self,
        alloc: Global,
        s: u32,
        number: u64,
        command: Shared<Command>,
    ) -> Result<Place, ProposeFault>
        requires server { IsNumber s self.old.world }
        requires fresh { IsNew self.old.world (Propose number command) }
        ensures answer { Proposes self.old.world s number command self.new.world result }
        ensures placed { IfOk result (Places self.old.world s number command self.new.world) }
        ensures agreement { KeepsAgreement self.old.world self.new.world }
        ensures servers { self.new.servers ≡ self.old.servers }
    {
        self.world.propose(alloc, s, number, command)
    }

    /// Begins the next round of acknowledgements at a server that runs and leads. After an error the world is as
    /// before.
    pub fn probe(&mut self, alloc: Global, s: u32) -> Result<Round, ProbeFault>
        requires server { IsNumber s self.old.world }
        requires rounds { (n : model.Node) → IsServer self.old.world s n → n.round < 2 ^ 64 - 1 }
        ensures ok { IfOk result (Begun self.old.world s self.new.world) }
        ensures shows { IfOk result (Shows self.old.world s) }
        ensures not_leader { IsErrOf result ProbeFault.NotLeader ↔ (¬ Leads self.old.world s) }
        ensures err { OnErr result (self.new.world ≡ self.old.world) }
        ensures agreement { KeepsAgreement self.old.world self.new.world }
        ensures servers { self.new.servers ≡ self.old.servers }
    {
        self.world.probe(alloc, s)
    }

    /// A server stops and begins again with what its store holds, and has applied nothing. Where the store fails it
    /// halts, and where there is no memory all is as before.
    pub fn restart(&mut self, alloc: Global, s: u32) -> Result<(), Memory>
        requires { IsNumber s self.old.world }
        ensures ok { OnOk result (WorldStep self.old.world (Restarts s) self.new.world) }
        ensures begins { OnOk result (self.new.servers ≡ set_server self.old.servers s no_server) }
        ensures memory { OnErr result (self.new ≡ self.old) }
        ensures agreement { KeepsAgreement self.old.world self.new.world }
    {
        let anew = Replica::new(alloc)?;
        match self.world.restart(alloc, s) {
            Ok(()) => {
                let at = place(s);
                drop(mem::replace(&mut self.replicas[at], anew));
                Ok(())
            }
            Err(Memory) => {
                drop(anew);
                Err(Memory)
            }
        }
    }
}
