//! What the events do at their servers that are no requests.

ghost use Rattle.std.specs.Prelude.{◌≡◌, IfErr, OnOk, Some};
ghost use Rattle.cat_model.specs.declared.request.Event.TheVariants as event;
ghost use Rattle.raft_model.specs.World.{numbered};
ghost use Rattle.cluster_rules.specs.Reached.{IsServerNumber};
ghost use Rattle.cluster_rules.specs.Step.{receiver};
ghost use Rattle.cluster_order.specs.Turns.{ActsCut, ActsWhole};

use crate::cluster::Cluster;
use cluster_order::Cut;
use cluster_works::{beat, deliver, fail_keep, restart, time_out, wake_held};
use outside::Keeper;
use std::alloc::Global;

impl<K: Keeper + Drop> Cluster<K> {
    /// The election timeout of a server is over.
    pub(crate) fn time_out(&mut self, alloc: Global, server: u32) -> Result<(), Cut>
        requires { IsServerNumber self.old server }
        ensures whole { OnOk result (ActsWhole server (event.Timeout server) self.old self.new) }
        ensures cut { IfErr result (λ cut. ActsCut server (event.Timeout server) cut self.old self.new) }
    {
        time_out(&mut self.servers, &mut self.requests, alloc, server)
    }

    /// A server that leads sends its heartbeat.
    pub(crate) fn beat(&mut self, alloc: Global, server: u32) -> Result<(), Cut>
        requires { IsServerNumber self.old server }
        ensures whole { OnOk result (ActsWhole server (event.Beat server) self.old self.new) }
        ensures cut { IfErr result (λ cut. ActsCut server (event.Beat server) cut self.old self.new) }
    {
        beat(&mut self.servers, &mut self.requests, alloc, server)
    }

    /// A message reaches the server to which it goes.
    pub(crate) fn deliver(&mut self, alloc: Global, server: u32, number: u64) -> Result<(), Cut>
        requires server { IsServerNumber self.old server }
        requires goes { receiver (numbered number self.old.world.bag.packets) ≡ Some server }
        ensures whole { OnOk result (ActsWhole server (event.Deliver number) self.old self.new) }
        ensures cut { IfErr result (λ cut. ActsCut server (event.Deliver number) cut self.old self.new) }
    {
        deliver(&mut self.servers, &mut self.requests, alloc, server, number)
    }

    /// A call of a server's durable store is to fail.
    pub(crate) fn fail_keep(&mut self, server: u32, nth: u32)
        requires { IsServerNumber self.old server }
        ensures { ActsWhole server (event.FailKeep server nth) self.old self.new }
    {
        fail_keep(&mut self.servers, &mut self.requests, server, nth);
    }

    /// A server stops and begins again. Its store failed exactly where it is halted then, also where it was before.
    pub(crate) fn restart(&mut self, alloc: Global, server: u32) -> Result<(), Cut>
        requires { IsServerNumber self.old server }
        ensures whole { OnOk result (ActsWhole server (event.Restart server) self.old self.new) }
        ensures cut { IfErr result (λ cut. ActsCut server (event.Restart server) cut self.old self.new) }
    {
        wake_held(&self.requests, &mut self.watch, server);
        restart(
            &mut self.servers,
            &mut self.requests,
            &self.watch,
            alloc,
            server,
        )
    }
}
