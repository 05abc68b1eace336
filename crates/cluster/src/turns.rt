//! One turn of a server's catching up.

ghost use Rattle.std.specs.Prelude.{◌≡◌, ◌≢◌, ◌<◌, None, true, IfOk, OnErr};
ghost use Rattle.cluster_rules.specs.Due.{due};
ghost use Rattle.cluster_rules.specs.Left.{left};
ghost use Rattle.cluster_rules.specs.Reached.{IsServerNumber};
ghost use Rattle.cluster_order.specs.Evaluations.{EvaluatesIn, lacking};
ghost use Rattle.cluster_order.specs.Turns.{Turned};

use crate::cluster::Cluster;
use cat_model::{Memory, Steps};
use cluster_works::turn;
use outside::Keeper;
use std::alloc::Global;
use std::sync::ledger::Ledger;

impl<K: Keeper + Drop> Cluster<K> {
    /// Does something that is due at a server, and says whether there was something. It lacks memory only where there is.
    /// `steps` counts the queries of reads that it evaluates.
    #[tactic(auto, using(crate::proofs::Numbers::is_number))]
    pub(crate) fn turn<L: Ledger>(
        &mut self,
        alloc: Global,
        server: u32,
        steps: &mut Steps<L>,
    ) -> Result<bool, Memory>
        requires { IsServerNumber self.old server }
        ensures turned { IfOk result (λ was. Turned server was self.old self.new) }
        ensures left { IfOk result (λ was. was ≡ true → left server self.new < left server self.old) }
        ensures same { OnErr result (self.new ≡ self.old) }
        ensures behind { OnErr result (due server self.old ≢ None) }
        ensures counted { EvaluatesIn (lacking result) steps.old steps.new self.old self.new }
    {
        turn(
            &mut self.servers,
            &mut self.requests,
            &mut self.watch,
            alloc,
            server,
            steps,
        )
    }
}
