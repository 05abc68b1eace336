//! The messages on their way.

ghost use Rattle.std.specs.Prelude.{◌≡◌, IfSome, None};
ghost use Rattle.std.specs.Option.{option_map};
ghost use Rattle.raft_model.specs.World.{numbered};
ghost use Rattle.raft_world.specs.Steps.{IsNumber};
ghost use Rattle.cluster_rules.specs.Cluster.{item_of};
ghost use Rattle.cluster_rules.specs.Reached.{lowest};
ghost use Rattle.cluster_rules.specs.Step.{receiver};

use crate::servers::Servers;
use outside::Keeper;

impl<K: Keeper> Servers<K> {
    /// The server that is to receive the message of this number, if that is on its way.
    pub fn receiver(&self, k: u64) -> Option<u32>
        ensures receiver { result ≡ receiver (numbered k self.now.world.bag.packets) }
        ensures server { IfSome result (λ s. IsNumber s self.now.world) }
    {
        self.world.receiver(k)
    }

    /// The lowest number of a message on its way.
    pub fn lowest(&self) -> Option<u64>
        ensures { result ≡ option_map (λ p. p.number) (lowest self.now.world.bag.packets) }
    {
        match self.world.first() {
            Some(packet) => Some(packet.number()),
            None => None,
        }
    }

    /// The clock of a server when it last accepted an Append since it began or began again, in milliseconds.
    pub fn contact(&self, s: u32) -> Option<u64>
        requires { IsNumber s self.now.world }
        ensures { result ≡ item_of None self.now.world.contacts s }
    {
        self.world.contact(s)
    }
}
