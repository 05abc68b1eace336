//! What held requests wait for.

ghost use Rattle.std.specs.Prelude.{◌≡◌, ◌||◌, ℕ, Bool, IfSome, nat_le, nat_lt, true};
ghost use Rattle.cat_model.specs.declared.request.Asked.TheVariants.{Good};
ghost use Rattle.cat_model.specs.declared.request.Mode.{Mode as SpecMode};
ghost use Rattle.cat_model.specs.declared.request.Request.TheVariants.{Read};
ghost use Rattle.cluster_rules.specs.Cluster.{ForIndex};
ghost use Rattle.cluster_rules.specs.Due.{is_ended};
ghost use Rattle.cluster_requests.specs.Contents.{stand_of};

use cat_model::{Asked, Query, Request};
use cluster_requests::{Pending, Stand};
use std::ops::Deref;

/// It was ended, since its server restarted.
pub fn is_ended(stand: Stand) -> bool
    ensures { result ≡ is_ended (stand_of stand) }
{
    matches!(stand, Stand::Ended { .. })
}

/// A query is answered now: its index is above the one given, or its time is over.
pub fn is_answered(least: u64, index: u64, deadline: u64, clock: u64) -> bool
    ensures { result ≡ (nat_lt least index || nat_le deadline clock) }
{
    least < index || deadline <= clock
}

/// The query of a read that waits for an index, and when its time is over.
pub fn waits_for(held: &Pending) -> Option<(&Query, u64)>
    ensures { IfSome result (λ wait. (mode : SpecMode) × (least : ℕ) × (ms : ℕ) × (raw : Bool) × (held.now.question.asked ≡ Good (Read wait.0.now mode least ms raw)) × (held.now.stand ≡ ForIndex wait.1 true)) }
{
    match (held.question().asked(), held.stand()) {
        (
            Asked::Good(Request::Read { query, .. }),
            Stand::ForIndex {
                deadline,
                looked: true,
            },
        ) => Some((query.deref(), deadline)),
        _ => None,
    }
}
