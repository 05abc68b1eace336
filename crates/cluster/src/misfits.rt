//! Whether an event fits.

ghost use Rattle.std.specs.Prelude.{◌≡◌, None, Some, MatchResult};
ghost use Rattle.run_rules.specs.Lines.{agent_misfit, clock_misfit, message_misfit, misfit, server_misfit};
ghost use Rattle.cluster.specs.Fitting.{time_misfit};
ghost use Rattle.cluster_rules.specs.Reached.{IsServerNumber};

use crate::cluster::Cluster;
use cat_model::Event;
use outside::Keeper;
use run_rules::Misfit;

// The most milliseconds of a clock.
const MOST_MS: u64 = 9_007_199_254_740_992;

impl<K: Keeper> Cluster<K> {
    /// Whether the event fits: what it names is there, and no clock passes 2^53 milliseconds.
    #[tactic(auto, unfolding(run_rules::specs::Lines::misfit))]
    pub fn fits(&self, event: &Event) -> Result<(), Misfit>
        ensures { MatchResult result (λ _. misfit self.now event.now ≡ None) (λ why. misfit self.now event.now ≡ Some why) }
    {
        match event {
            Event::Timeout(server)
            | Event::Beat(server)
            | Event::Restart(server)
            | Event::FailKeep(server, _) => self.has_server(*server),
            Event::Tick(server, ms) => self.has_time(*server, *ms),
            Event::Deliver(number) | Event::Drop(number) => self.has_message(*number),
            Event::Ask { agent, .. } | Event::Sync(agent) | Event::AgentTick(agent, _) => {
                self.has_agent(*agent)
            }
        }
    }

    fn has_server(&self, server: u32) -> Result<(), Misfit>
        ensures { MatchResult result (λ _. server_misfit self.now server ≡ None) (λ why. server_misfit self.now server ≡ Some why) }
    {
        if 0 < server && server <= self.count() {
            Ok(())
        } else {
            Err(Misfit::NoServer)
        }
    }

    fn has_agent(&self, agent: u32) -> Result<(), Misfit>
        ensures { MatchResult result (λ _. agent_misfit self.now agent ≡ None) (λ why. agent_misfit self.now agent ≡ Some why) }
    {
        if 0 < agent && agent <= self.agents() {
            Ok(())
        } else {
            Err(Misfit::NoAgent)
        }
    }

    fn has_message(&self, number: u64) -> Result<(), Misfit>
        ensures { MatchResult result (λ _. message_misfit self.now number ≡ None) (λ why. message_misfit self.now number ≡ Some why) }
    {
        match self.servers.receiver(number) {
            Some(_) => Ok(()),
            None => Err(Misfit::NoMessage),
        }
    }

    // Whether the server's clock can go on by so many milliseconds.
    fn has_time(&self, server: u32, ms: u64) -> Result<(), Misfit>
        ensures { MatchResult result (λ _. time_misfit self.now server ms ≡ None) (λ why. time_misfit self.now server ms ≡ Some why) }
    {
        match self.has_server(server) {
            Err(why) => Err(why),
            Ok(()) => self.can_go_on(server, ms),
        }
    }

    #[tactic(auto, using(crate::proofs::Numbers::is_number))]
    fn can_go_on(&self, server: u32, ms: u64) -> Result<(), Misfit>
        requires { IsServerNumber self.now server }
        ensures { MatchResult result (λ _. clock_misfit self.now server ms None ≡ None) (λ why. clock_misfit self.now server ms None ≡ Some why) }
    {
        match self.servers.clock(server).checked_add(ms) {
            Some(then) if then <= MOST_MS => Ok(()),
            _ => Err(Misfit::Clock),
        }
    }
}
