//! Renewals of sessions.

ghost use Rattle.std.specs.Prelude.{◌≡◌, OnErr, OnOk, true};
ghost use Rattle.cat_model.specs.declared.request.Asked.TheVariants.{Good};
ghost use Rattle.cat_model.specs.declared.request.Request.TheVariants.{Renew as Renews};
ghost use Rattle.cluster_rules.specs.Reached.{IsServerNumber};
ghost use Rattle.cluster_rules.specs.Requests.{is_ready};
ghost use Rattle.cluster_order.specs.Turns.{HandlesNewest, IsCome};

use crate::cluster::Cluster;
use cat_model::{Asked, Draw, Memory};
use cluster_works::renew_newest;
use outside::Keeper;

impl<K: Keeper + Drop> Cluster<K> {
    /// Renews a session, if it is there, so that its TTL begins anew, and answers with its row.
    #[tactic(auto, using(crate::proofs::Numbers::is_number))]
    pub(crate) fn renew(
        &mut self,
        server: u32,
        agent: u32,
        asked: &Asked,
        draw: Draw,
        id: u128,
    ) -> Result<(), Memory>
        requires server { IsServerNumber self.old server }
        requires asked { asked.now ≡ Good (Renews id) }
        requires come { IsCome agent asked.now draw self.old.past }
        requires ready { is_ready self.old server ≡ true }
        ensures ok { OnOk result (HandlesNewest server agent asked.now draw self.old self.new) }
        ensures err { OnErr result (self.new ≡ self.old) }
    {
        renew_newest(
            &mut self.servers,
            &mut self.requests,
            server,
            agent,
            asked,
            draw,
            id,
        )
    }
}
