//! What a server does with a request that was just noted.

ghost use Rattle.std.specs.Prelude.{◌≡◌, ◌≢◌, ◌||◌, IfOk, None, OnErr, OnOk, Some, false, true};
ghost use Rattle.cat_model.specs.declared.command.Command.{Command as SpecCommand};
ghost use Rattle.cat_model.specs.declared.request.Asked.TheVariants.{Good};
ghost use Rattle.cat_model.specs.declared.request.Mode.{Mode as SpecMode};
ghost use Rattle.cat_model.specs.declared.request.Mode.TheVariants as modes;
ghost use Rattle.cat_model.specs.declared.request.Request.TheVariants.{Write as Writes};
ghost use Rattle.cat_model.specs.Taken.{IsTakenAsked};
ghost use Rattle.cluster_rules.specs.Cluster.{runs_leading};
ghost use Rattle.cluster_rules.specs.Reached.{IsServerNumber};
ghost use Rattle.cluster_rules.specs.Requests.{delayed_at, is_ready, is_stale_read, look_of};
ghost use Rattle.cluster_order.specs.Turns.{HandlesNewest, IsCome};
ghost use Rattle.cluster_works.specs.Asking.{IsCopied, IsTakenWrite};

use crate::cluster::Cluster;
use cat_model::{Asked, Command, Draw, Memory, Mode, Shared};
use cluster_requests::Plain;
use cluster_works::{
    Write, copied_question, end_write, hold_newest, is_stale_read, refuse_newest, see, wait_of,
    with_question,
};
use outside::Keeper;
use std::alloc::Global;

impl<K: Keeper + Drop> Cluster<K> {
    /// The server has applied an entry of its term.
    #[tactic(auto, using(crate::proofs::Numbers::is_number))]
    pub(crate) fn is_ready(&self, server: u32) -> bool
        requires { IsServerNumber self.now server }
        ensures { result ≡ is_ready self.now server }
    {
        let applied = self.servers.last_term(server);
        !(applied < self.servers.node(server).term())
    }

    /// A request goes on at a server that is ready, and a stale read anywhere.
    pub(crate) fn may_go(&self, server: u32, asked: &Asked) -> bool
        requires { IsServerNumber self.now server }
        ensures { result ≡ (is_stale_read asked.now || is_ready self.now server) }
    {
        is_stale_read(asked) || self.is_ready(server)
    }

    // The copies of a write that a server is to enter.
    #[tactic(auto, using(crate::proofs::Numbers::is_number))]
    fn copies(
        &self,
        alloc: Global,
        server: u32,
        agent: u32,
        asked: &Shared<Asked>,
        draw: Draw,
        command: &Shared<Command>,
    ) -> Result<Write, Memory>
        requires server { IsServerNumber self.now server }
        ensures { IfOk result (IsCopied self.now server agent asked.now draw command.now) }
    {
        let number = self.requests.asked().checked_add(1).ok_or(Memory)?;
        let node = self.servers.node(server);
        let term = node.term();
        let before = node.log_bytes();
        let entries = node.last().checked_add(1).ok_or(Memory)?;
        let question = copied_question(number, agent, asked, draw)?;
        with_question(alloc, question, term, command, entries, before)
    }

    /// Refuses a request at a server that is not ready.
    #[tactic(auto, using(crate::proofs::Numbers::is_number))]
    pub(crate) fn refuse_unready(
        &mut self,
        server: u32,
        agent: u32,
        asked: &Asked,
        draw: Draw,
    ) -> Result<(), Memory>
        requires server { IsServerNumber self.old server }
        requires taken { IsTakenAsked asked.now }
        requires come { IsCome agent asked.now draw self.old.past }
        requires unready { (is_stale_read asked.now || is_ready self.old server) ≡ false }
        ensures ok { OnOk result (HandlesNewest server agent asked.now draw self.old self.new) }
        ensures err { OnErr result (self.new ≡ self.old) }
    {
        let why = Plain::NotReady {
            term: self.servers.node(server).term(),
            applied_term: self.servers.last_term(server),
        };
        refuse_newest(&mut self.requests, agent, asked, draw, why)
    }

    // Holds a read that needs no round, to be looked for at once.
    #[tactic(auto, using(crate::proofs::Numbers::is_number))]
    fn hold_read(
        &mut self,
        server: u32,
        agent: u32,
        asked: &Shared<Asked>,
        draw: Draw,
        wait_ms: u64,
    ) -> Result<(), Memory>
        requires server { IsServerNumber self.old server }
        requires taken { IsTakenAsked asked.now }
        requires look { (mode : SpecMode) × (look_of asked.now ≡ Some (mode, wait_ms)) × (mode ≢ modes.Consistent) }
        requires come { IsCome agent asked.now draw self.old.past }
        requires go { (is_stale_read asked.now || is_ready self.old server) ≡ true }
        ensures ok { OnOk result (HandlesNewest server agent asked.now draw self.old self.new) }
        ensures err { OnErr result (self.new ≡ self.old) }
    {
        let applied = self.servers.applied(server);
        let now = self.servers.clock(server);
        let deadline = now.checked_add(wait_of(wait_ms)).ok_or(Memory)?;
        hold_newest(
            &mut self.requests,
            server,
            agent,
            asked,
            draw,
            deadline,
            applied,
        )
    }

    /// Begins with a read: a consistent one waits for a round first.
    pub(crate) fn begin_read(
        &mut self,
        alloc: Global,
        server: u32,
        agent: u32,
        asked: &Shared<Asked>,
        draw: Draw,
        mode: Mode,
        wait_ms: u64,
    ) -> Result<(), Memory>
        requires server { IsServerNumber self.old server }
        requires taken { IsTakenAsked asked.now }
        requires look { look_of asked.now ≡ Some (mode, wait_ms) }
        requires come { IsCome agent asked.now draw self.old.past }
        requires go { (is_stale_read asked.now || is_ready self.old server) ≡ true }
        ensures ok { OnOk result (HandlesNewest server agent asked.now draw self.old self.new) }
        ensures err { OnErr result (self.new ≡ self.old) }
    {
        match mode {
            Mode::Consistent => self.begin_round(alloc, server, agent, asked, draw, wait_ms),
            Mode::Default | Mode::Stale => self.hold_read(server, agent, asked, draw, wait_ms),
        }
    }

    // Proposes a write with its entry's command at a server that leads and is ready.
    #[tactic(auto, using(crate::proofs::Numbers::is_number))]
    fn propose(
        &mut self,
        alloc: Global,
        server: u32,
        write: Write,
        command: Shared<Command>,
    ) -> Result<(), Memory>
        requires server { IsServerNumber self.old server }
        requires write { IsTakenWrite self.old server write }
        requires command { command ≡ write.entry.command }
        requires come { IsCome write.question.agent write.question.asked write.question.draw self.old.past }
        requires leads { runs_leading self.old.world server ≡ true }
        requires ready { is_ready self.old server ≡ true }
        requires free { (asks : SpecCommand) → write.question.asked ≡ Good (Writes asks) → delayed_at self.old server asks ≡ None }
        ensures ok { OnOk result (HandlesNewest server write.question.agent write.question.asked write.question.draw self.old self.new) }
        ensures err { OnErr result (self.new ≡ self.old) }
    {
        if self.requests.prepare().is_err() {
            drop(write);
            drop(command);
            return Err(Memory);
        }
        let number = write.question.number();
        self.servers.stays_behind(server);
        let before = see(&self.servers, server);
        let proposed = self.servers.propose(alloc, server, number, command);
        let now = see(&self.servers, server);
        end_write(
            &mut self.requests,
            server,
            before,
            now,
            self.servers.agreed(),
            write,
            proposed,
        )
    }

    // Enters a write at a server that leads and is ready.
    fn enter(
        &mut self,
        alloc: Global,
        server: u32,
        agent: u32,
        asked: &Shared<Asked>,
        draw: Draw,
        command: &Shared<Command>,
    ) -> Result<(), Memory>
        requires server { IsServerNumber self.old server }
        requires taken { IsTakenAsked asked.now }
        requires asked { asked.now ≡ Good (Writes command.now) }
        requires come { IsCome agent asked.now draw self.old.past }
        requires leads { runs_leading self.old.world server ≡ true }
        requires ready { is_ready self.old server ≡ true }
        requires free { delayed_at self.old server command.now ≡ None }
        ensures ok { OnOk result (HandlesNewest server agent asked.now draw self.old self.new) }
        ensures err { OnErr result (self.new ≡ self.old) }
    {
        let write = self.copies(alloc, server, agent, asked, draw, command)?;
        match write.entry.command.share() {
            Ok(copy) => self.propose(alloc, server, write, copy),
            Err(Memory) => {
                drop(write);
                Err(Memory)
            }
        }
    }

    /// Enters a write, or answers that a lock delay refuses it.
    pub(crate) fn write(
        &mut self,
        alloc: Global,
        server: u32,
        agent: u32,
        asked: &Shared<Asked>,
        draw: Draw,
        command: &Shared<Command>,
    ) -> Result<(), Memory>
        requires server { IsServerNumber self.old server }
        requires taken { IsTakenAsked asked.now }
        requires asked { asked.now ≡ Good (Writes command.now) }
        requires come { IsCome agent asked.now draw self.old.past }
        requires leads { runs_leading self.old.world server ≡ true }
        requires ready { is_ready self.old server ≡ true }
        ensures ok { OnOk result (HandlesNewest server agent asked.now draw self.old self.new) }
        ensures err { OnErr result (self.new ≡ self.old) }
    {
        match self.delayed(server, command) {
            Some(key) => self.defer(alloc, server, agent, asked, draw, command, key),
            None => self.enter(alloc, server, agent, asked, draw, command),
        }
    }
}
