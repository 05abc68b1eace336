//! Writes that lock a key whose lock delay is not over.

ghost use Rattle.std.specs.Prelude.{◌≡◌, IfOk, OnErr, OnOk, Some, true};
ghost use Rattle.std.specs.Option.{option_copied};
ghost use Rattle.cat_model.specs.declared.request.Asked.TheVariants.{Good};
ghost use Rattle.cat_model.specs.declared.request.Request.TheVariants.{Write as Writes};
ghost use Rattle.cluster_rules.specs.Cluster.{until_at};
ghost use Rattle.cluster_rules.specs.Reached.{IsServerNumber};
ghost use Rattle.cluster_rules.specs.Requests.{delayed_at, is_ready};
ghost use Rattle.cluster_order.specs.Turns.{HandlesNewest, IsCome};

use crate::cluster::Cluster;
use cat_model::{Asked, Command, Draw, Memory, Shared};
use cluster_works::{answer_newest, deferred};
use outside::Keeper;
use std::alloc::Global;

impl<K: Keeper + Drop> Cluster<K> {
    // When the lock delay of a key is over at a server. It answers Memory also above 2^64 milliseconds, which no
    // request's delay reaches.
    #[tactic(auto, using(crate::proofs::Numbers::is_number))]
    fn until(&self, server: u32, key: &str) -> Result<u64, Memory>
        requires { IsServerNumber self.now server }
        ensures { IfOk result (λ until. until ≡ until_at self.now server key.now) }
    {
        match u64::try_from(self.servers.delay_over(server, key)) {
            Ok(until) => Ok(until),
            Err(_) => Err(Memory),
        }
    }

    /// The first key that a command locks whose lock delay is not over at the server.
    #[tactic(auto, using(crate::proofs::Numbers::is_number))]
    pub(crate) fn delayed<'a>(&self, server: u32, command: &'a Command) -> Option<&'a str>
        requires { IsServerNumber self.now server }
        ensures { option_copied result ≡ delayed_at self.now server command.now }
    {
        self.servers.delayed(server, command)
    }

    /// Answers a write that its lock delay refuses, with the key.
    #[tactic(auto, using(crate::proofs::Numbers::is_number))]
    pub(crate) fn defer(
        &mut self,
        alloc: Global,
        server: u32,
        agent: u32,
        asked: &Asked,
        draw: Draw,
        command: &Shared<Command>,
        key: &str,
    ) -> Result<(), Memory>
        requires server { IsServerNumber self.old server }
        requires asked { asked.now ≡ Good (Writes command.now) }
        requires come { IsCome agent asked.now draw self.old.past }
        requires ready { is_ready self.old server ≡ true }
        requires delayed { delayed_at self.old server command.now ≡ Some key.now }
        ensures ok { OnOk result (HandlesNewest server agent asked.now draw self.old self.new) }
        ensures err { OnErr result (self.new ≡ self.old) }
    {
        let number = self.requests.asked().checked_add(1).ok_or(Memory)?;
        let until = self.until(server, key)?;
        let now = self.servers.clock(server);
        let reply = deferred(alloc, number, command, key, until, now)?;
        answer_newest(&mut self.requests, agent, asked, draw, reply)
    }
}
