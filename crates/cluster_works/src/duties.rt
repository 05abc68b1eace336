//! What is due of a held request, as the program's work.

ghost use Rattle.std.specs.Prelude.{◌≡◌, ℕ, true};
ghost use Rattle.cat_model.specs.declared.reply.Kind.TheVariants as kinds;
ghost use Rattle.cat_model.specs.declared.reply.Refusal.TheVariants as refusals;
ghost use Rattle.raft_model.specs.Log.{Log};
ghost use Rattle.cluster_rules.specs.Cluster as rules;
ghost use Rattle.cluster_rules.specs.Due.{Replies, late_work};
ghost use Rattle.cluster_rules.specs.Replies as replies;
ghost use Rattle.cluster_works.specs.Evaluating.{evaluations, evaluations_of};
ghost use Rattle.cluster_works.specs.Looking.{is_late, servers_of};
ghost use Rattle.cluster_works.specs.Working.{IsFound, IsWork};

use crate::work::Work;
use cat_model::{Kind, Refusal};
use cluster_requests::{Content, Pending, Stand};

/// A halted server refuses a request.
#[tactic(auto, unfolding(cluster_rules::specs::Replies::shown))]
pub fn halted(number: u64, server: u32) -> Work
    ensures work { (log : Log) (q : replies.Question) → number ≡ q.number → IsWork log result (Replies q (kinds.Refused (refusals.Halted server))) }
    ensures evaluated { evaluations result ≡ 0 }
{
    Work::Answer {
        number,
        kind: Kind::Refused(Refusal::Halted { server }),
        content: Content::Says(Refusal::Halted { server }),
    }
}

/// Another entry stands where a write was proposed, or another term came while a read waited for its round.
#[tactic(auto, unfolding(cluster_rules::specs::Replies::shown))]
pub fn lost(number: u64, entered: u64, found: u64) -> Work
    ensures work { (log : Log) (q : replies.Question) → number ≡ q.number → IsWork log result (Replies q (kinds.Refused (refusals.Lost entered found))) }
    ensures evaluated { evaluations result ≡ 0 }
{
    Work::Answer {
        number,
        kind: Kind::Refused(Refusal::Lost { entered, found }),
        content: Content::Says(Refusal::Lost { entered, found }),
    }
}

/// So many wait already.
#[tactic(auto, unfolding(cluster_rules::specs::Replies::shown))]
pub fn too_many(number: u64, waiting: u32) -> Work
    ensures work { (log : Log) (q : replies.Question) → number ≡ q.number → IsWork log result (Replies q (kinds.Refused (refusals.TooMany waiting))) }
    ensures evaluated { evaluations result ≡ 1 }
{
    Work::Answer {
        number,
        kind: Kind::Refused(Refusal::TooMany { waiting }),
        content: Content::Says(Refusal::TooMany { waiting }),
    }
}

/// A request whose round is over is looked for from now on.
pub fn past_round(held: &Pending) -> Option<Work>
    ensures found { (c : rules.Cluster) (i : ℕ) → is_late (servers_of c) i held.now ≡ true → IsFound (rules.applied_of c i) (late_work c i held.now) result }
    ensures evaluated { evaluations_of result ≡ 0 }
{
    match held.stand() {
        Stand::InRound { deadline, .. } => Some(Work::Hold {
            number: held.number(),
            stand: Stand::ForIndex {
                deadline,
                looked: false,
            },
        }),
        _ => None,
    }
}
