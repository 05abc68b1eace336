//! A server that is handed a message.

ghost use Rattle.std.specs.Prelude.{IfOk, OnErr};
ghost use Rattle.raft_model.specs.Rules.{Receive};
ghost use Rattle.raft_node.specs.Receiving.{IsOther, CarriesAllowed};
ghost use Rattle.raft_node.specs.Steps.{Steps, FindsNoMemory};

use crate::messages::received;
use crate::node::Node;
use cat_model::{List, Memory};
use outside::Keeper;
use raft_model::{Message, Sent};
use std::alloc::Global;

impl<K: Keeper + Drop> Node<K> {
    /// Takes a message of another server, and gives what is to be sent. Term, vote and log are kept before that. Where a
    /// store call fails the node halts, and gives nothing.
    pub fn receive(
        &mut self,
        alloc: Global,
        from: u32,
        message: &Message,
    ) -> Result<List<Sent>, Memory>
        requires other { IsOther self.old from }
        requires entries { CarriesAllowed message.now }
        ensures ok { IfOk result (λ sent. Steps self.old (Receive from message.now) self.new sent) }
        ensures memory { OnErr result (FindsNoMemory self.old (Receive from message.now) self.new) }
    {
        if self.state.halted {
            return Ok(List::new(alloc));
        }
        let log = self.log.as_slice();
        let planned = received(alloc, &self.state, log, &mut self.counted, from, message)?;
        self.make(alloc, planned)
    }
}
