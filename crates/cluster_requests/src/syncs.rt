//! The outs of agents' syncs.

ghost use Rattle.std.specs.Prelude.{◌≡◌, ◌<◌, None, Some};
ghost use Rattle.cluster_requests.specs.Requests.{Requests as Value, told_sync, used};

use crate::out::{Given, Out};
use crate::outs;
use crate::requests::Requests;

impl Requests {
    /// Tells how many commands an agent's sync proposed, or that it found no leader. There is room for it, so that it
    /// takes no memory.
    pub fn tell_sync(&mut self, agent: u32, count: Option<u32>)
        requires { 0 < self.old.room }
        ensures { self.new ≡ used (told_sync agent count self.old) }
    {
        outs::put(&mut self.fresh, Out::new(Given::Synced { agent, count }));
        self.room -= 1;
    }

    /// Takes back what was told last of an agent's sync: that it found no leader. It takes no memory.
    #[tactic(auto, using(crate::proofs::LastOut::told_last))]
    pub fn take_sync_back(&mut self, agent: u32)
        requires { (r : Value) × (self.old ≡ told_sync agent None r) }
        ensures { (r : Value) → self.old ≡ told_sync agent None r → self.new ≡ r }
    {
        let _agent = agent;
        outs::take_back(&mut self.fresh);
    }

    /// Tells how many commands an agent's sync proposed in the place of what was told last of it: that it found no
    /// leader. It takes no memory.
    #[tactic(auto, using(crate::proofs::LastOut::told_last))]
    pub fn count_sync(&mut self, agent: u32, count: u32)
        requires { (r : Value) × (self.old ≡ told_sync agent None r) }
        ensures { (r : Value) → self.old ≡ told_sync agent None r → self.new ≡ told_sync agent (Some count) r }
    {
        outs::take_back(&mut self.fresh);
        let count = Some(count);
        outs::put(&mut self.fresh, Out::new(Given::Synced { agent, count }));
    }
}
