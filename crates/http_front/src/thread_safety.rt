//! That a viewed cluster may go to another thread, as clauses name it.

ghost use denote.Param.Send.{IsSend};
ghost use Rattle.http_front.specs.contracts.views.ViewedCluster as viewed;

use crate::cluster::ClusterSize;
use crate::views::ViewedCluster;
use cluster_interface::ClusterInterface;
use outside::Keeper;
use stale_view::{PairName, parts_cross};
use std::sync::Wait;

// What may go to another thread, as clauses name it.
fn sends<T: Send + 'static>()
    ensures { IsSend T.row }
{}

/// A law, which does nothing: where a cluster may go to another thread, it may go there with what shows viewers its log.
pub fn clusters_send<
    J: ClusterSize + PairName + Send + Sync + 'static,
    S: ClusterInterface + Send + 'static,
    R: Wait + Drop + Send + 'static,
>()
where
    S::K: Send + 'static,
    ensures { IsSend (viewed.the_row J.row S.row R.row S.K.row ⟦<J as ClusterSize>⟧ ⟦<J as PairName>⟧ ⟦<S as ClusterInterface>⟧ ⟦<S::K as Keeper>⟧) }
{
    parts_cross();
    sends::<ViewedCluster<J, S, R>>();
}
