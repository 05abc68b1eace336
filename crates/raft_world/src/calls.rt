//! The steps of a world, but for proposals and probes.

ghost use Rattle.std.specs.Prelude.{◌≡◌, ◌+◌, ◌^◌, ◌<◌, true, OnErr, OnOk, is_some};
ghost use Rattle.raft_model.specs.Node.{of_server};
ghost use Rattle.raft_model.specs.Rules.{Beat, Timeout};
ghost use Rattle.raft_model.specs.World.{Arms, Drops, Restarts, Ticks, WorldStep, numbered};
ghost use Rattle.raft_world.specs.Steps.{Delivers, FindsNoMemory, IsNumber, KeepsAgreement, StepsWhole, StepsWorking};

use crate::steps::{place, settle};
use crate::world::World;
use cat_model::Memory;
use outside::Keeper;
use std::alloc::Global;

impl<K: Keeper + Drop> World<K> {
    /// The election timeout of a server is over.
    pub fn timeout(&mut self, alloc: Global, s: u32) -> Result<(), Memory>
        requires { IsNumber s self.old }
        ensures ok { OnOk result (StepsWhole self.old s Timeout self.new) }
        ensures memory { OnErr result (FindsNoMemory self.old s Timeout self.new) }
        ensures agreement { KeepsAgreement self.old self.new }
    {
        let at = place(s);
        let sent = self.nodes[at].timeout(alloc)?;
        settle(
            &self.nodes,
            &self.clocks,
            &mut self.contacts,
            &mut self.bag,
            &mut self.agreed,
            at,
            sent,
        );
        Ok(())
    }

    /// A server that leads sends its heartbeat.
    pub fn beat(&mut self, alloc: Global, s: u32) -> Result<(), Memory>
        requires { IsNumber s self.old }
        ensures ok { OnOk result (StepsWorking self.old s Beat self.new) }
        ensures memory { OnErr result (self.new ≡ self.old) }
        ensures agreement { KeepsAgreement self.old self.new }
    {
        let at = place(s);
        let sent = self.nodes[at].beat(alloc)?;
        settle(
            &self.nodes,
            &self.clocks,
            &mut self.contacts,
            &mut self.bag,
            &mut self.agreed,
            at,
            sent,
        );
        Ok(())
    }

    /// The message of this number reaches its receiver. It stays in the bag, and may come again.
    pub fn deliver(&mut self, alloc: Global, k: u64) -> Result<(), Memory>
        requires { is_some (numbered k self.old.bag.packets) ≡ true }
        ensures ok { OnOk result (Delivers StepsWhole self.old k self.new) }
        ensures memory { OnErr result (Delivers FindsNoMemory self.old k self.new) }
        ensures agreement { KeepsAgreement self.old self.new }
    {
        let Some(packet) = self.bag.find(k) else {
            unreachable!()
        };
        let from = packet.from();
        let at = place(packet.to());
        let sent = self.nodes[at].receive(alloc, from, packet.message())?;
        settle(
            &self.nodes,
            &self.clocks,
            &mut self.contacts,
            &mut self.bag,
            &mut self.agreed,
            at,
            sent,
        );
        Ok(())
    }

    /// The clock of a server goes on by so many milliseconds. It takes no memory.
    pub fn tick(&mut self, s: u32, d: u64)
        requires number { IsNumber s self.old }
        requires fits { of_server self.old.clocks s + d < 2 ^ 64 }
        ensures step { WorldStep self.old (Ticks s d) self.new }
        ensures agreement { KeepsAgreement self.old self.new }
    {
        self.clocks[place(s)] += d;
    }

    /// The message of this number is lost. It takes no memory.
    pub fn lose(&mut self, k: u64)
        requires { is_some (numbered k self.old.bag.packets) ≡ true }
        ensures step { WorldStep self.old (Drops k) self.new }
        ensures agreement { KeepsAgreement self.old self.new }
    {
        self.bag.remove(k);
    }

    /// Makes the call number `nth` of a server's store from now on fail, in place of what was armed before. It takes no
    /// memory.
    pub fn fail_keep(&mut self, s: u32, nth: u32)
        requires { IsNumber s self.old }
        ensures step { WorldStep self.old (Arms s nth) self.new }
        ensures agreement { KeepsAgreement self.old self.new }
    {
        self.nodes[place(s)].fail_keep(nth);
    }

    /// A server stops and begins again with what its store holds. Where the store fails it halts, and where there is no
    /// memory the world is as before.
    pub fn restart(&mut self, alloc: Global, s: u32) -> Result<(), Memory>
        requires { IsNumber s self.old }
        ensures ok { OnOk result (WorldStep self.old (Restarts s) self.new) }
        ensures memory { OnErr result (self.new ≡ self.old) }
        ensures agreement { KeepsAgreement self.old self.new }
    {
        let at = place(s);
        let node = &mut self.nodes[at];
        self.agreed.leave(alloc, at, node.log().as_slice())?;
        node.restart(alloc)?;
        self.contacts[at] = None;
        Ok(())
    }
}
