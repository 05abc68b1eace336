//! What a server does that is due by its clock.

ghost use Rattle.std.specs.Prelude.{◌≡◌, ◌&&◌, [], ◌∷◌, IfOk, OnErr, OnOk, false, map, true};
ghost use Rattle.cat_model.specs.declared.command.Command.TheVariants.{Reap};
ghost use Rattle.cluster_rules.specs.Cluster.{runs_leading};
ghost use Rattle.cluster_rules.specs.Proposals.{Proposals, looked, over_rows};
ghost use Rattle.cluster_rules.specs.Reached.{IsServerNumber};
ghost use Rattle.session_ttl.specs.Endings.{ending_of};
ghost use Rattle.cluster.specs.Tending.{EndsProposed, ReapsProposed, is_reap_due};
ghost use Rattle.cluster_works.specs.Ending.{end_command};

use crate::cluster::Cluster;
use cat_model::{Command, Memory};
use cluster_works::{Proposed, ends_of, runs_leading};
use outside::Keeper;
use session_ttl::Ending;
use std::alloc::Global;

impl<K: Keeper + Drop> Cluster<K> {
    /// The server runs and leads.
    #[tactic(auto, using(crate::proofs::Numbers::is_number))]
    pub(crate) fn runs_leading(&self, server: u32) -> bool
        requires { IsServerNumber self.now server }
        ensures { result ≡ runs_leading self.now.world server }
    {
        runs_leading(&self.servers, server)
    }

    // A server that leads has a reap to propose.
    #[tactic(auto, using(crate::proofs::Numbers::is_number))]
    fn is_reap_due(&self, server: u32) -> bool
        requires { IsServerNumber self.now server }
        ensures { result ≡ is_reap_due self.now server }
    {
        self.servers.is_reap_due(server)
    }

    // Notes that the ends of these sessions are proposed, proposes them, and notes no more those that were not entered.
    #[tactic(auto, using(crate::proofs::Numbers::is_number))]
    fn propose_ends(
        &mut self,
        alloc: Global,
        server: u32,
        endings: &[Ending],
        commands: &[Command],
    ) -> Result<bool, Memory>
        requires server { IsServerNumber self.old server }
        requires leads { runs_leading self.old.world server ≡ true }
        requires over { endings.now ≡ map ending_of (over_rows self.old server) }
        requires commands { commands.now ≡ map end_command endings.now }
        ensures told { IfOk result (λ whole. EndsProposed server self.old whole self.new) }
        ensures same { OnErr result (self.new ≡ self.old) }
    {
        self.servers.end(server, endings)?;
        let proposed = self.propose_all(alloc, server, commands);
        self.servers.keep_first(server, endings, proposed.entered);
        Ok(proposed.whole)
    }

    /// Proposes the ends of the sessions that are over by the clock of a server that leads, and says whether memory
    /// sufficed. They are not proposed again unless they are renewed.
    #[tactic(auto, using(crate::proofs::Numbers::is_number))]
    pub(crate) fn end_sessions(&mut self, alloc: Global, server: u32) -> Result<bool, Memory>
        requires server { IsServerNumber self.old server }
        requires leads { runs_leading self.old.world server ≡ true }
        ensures told { IfOk result (λ whole. EndsProposed server self.old whole self.new) }
        ensures same { OnErr result (self.new ≡ self.old) }
    {
        let endings = self.servers.over(alloc, server)?;
        match ends_of(alloc, endings.as_slice()) {
            Ok(commands) => {
                let told = self.propose_ends(
                    alloc,
                    server,
                    endings.as_slice(),
                    commands.as_slice(),
                );
                drop(endings);
                drop(commands);
                told
            }
            Err(Memory) => {
                drop(endings);
                Err(Memory)
            }
        }
    }

    // A server that leads has a reap to propose.
    fn reaps_now(&self, server: u32) -> bool
        requires { IsServerNumber self.now server }
        ensures { result ≡ (runs_leading self.now.world server && is_reap_due self.now server) }
    {
        self.runs_leading(server) && self.is_reap_due(server)
    }

    // A server looks for the next reap later, and proposes a reap.
    #[tactic(auto, using(crate::proofs::Numbers::is_number))]
    fn propose_reap(&mut self, alloc: Global, server: u32) -> Proposed
        requires server { IsServerNumber self.old server }
        requires leads { runs_leading self.old.world server ≡ true }
        ensures { Proposals server (Reap ∷ []) (looked server self.old) result.entered self.new result.whole }
    {
        self.servers.look(server);
        self.propose_all(alloc, server, &[Command::Reap])
    }

    /// A server proposes the reap that is due, if it leads, and looks for the next one later.
    #[tactic(auto, using(crate::proofs::Numbers::is_number))]
    pub(crate) fn reap(&mut self, alloc: Global, server: u32) -> Result<(), Memory>
        requires { IsServerNumber self.old server }
        ensures whole { OnOk result (ReapsProposed server self.old true self.new) }
        ensures cut { OnErr result (ReapsProposed server self.old false self.new) }
    {
        if self.reaps_now(server) {
            if self.propose_reap(alloc, server).whole {
                return Ok(());
            }
            return Err(Memory);
        }
        self.servers.look(server);
        Ok(())
    }
}
