//! Laws of a run over the stores that an earlier run left, each the contract of a function with an empty body.

ghost use Rattle.std.specs.Prelude.{◌≡◌, ℕ, ◌≤◌, Bool, None, length, min, take, true};
ghost use Rattle.cat_model.specs.declared.reply.Kind.TheVariants.{Acked};
ghost use Rattle.cat_model.specs.declared.reply.Mark.TheVariants.{Answered};
ghost use Rattle.raft_model.specs.Facts.{IsReady};
ghost use Rattle.raft_model.specs.Node.{Node, committed};
ghost use Rattle.raft_model.specs.World.{HoldAll, IsReached, IsServer, World};
ghost use Rattle.cluster_rules.specs.Cluster.{Cluster, applied_of, runs_leading};
ghost use Rattle.cluster_rules.specs.Due.{due};
ghost use Rattle.cluster_rules.specs.Lasting.{IsEntered, IsWrite};
ghost use Rattle.cluster_rules.specs.Replies.{Question, came, entered};
ghost use Rattle.cluster_rules.specs.Requests.{is_ready};
ghost use Rattle.cluster_rules.specs.Sound.{IsAmong, Sound};
ghost use Rattle.run_rules.specs.Serving.{Serves, Size};
ghost use Rattle.rerun_rules.specs.Follows.{Follows};

/// The agreed logs of both are fronts of one log.
pub fn runs_have_one_log()
    ensures { (v w : World) → IsReached v → Follows v w → take (min (length v.agreed) (length w.agreed)) v.agreed ≡ take (min (length v.agreed) (length w.agreed)) w.agreed }
{}

/// A leader of the later run that has committed an entry of its own term has committed all that the earlier run agreed.
pub fn ready_leaders_have_what_was_agreed()
    ensures { (v w : World) → IsReached v → Follows v w → (i : ℕ) (n : Node) → IsServer w i n → IsReady n → take (length v.agreed) (committed n) ≡ v.agreed }
{}

/// A cluster that serves over stores that hold what an earlier one's hold is of a later run.
pub fn serving_follows()
    ensures { (size : Size) (earlier later : Cluster) → Sound earlier → HoldAll size.stores earlier.world.nodes → Serves size later → Follows earlier.world later.world }
{}

/// A write that the earlier run acknowledged stands at its position in the later one's agreed log, once that is so long.
pub fn acknowledged_writes_outlive_their_run()
    ensures { (earlier later : Cluster) → Sound earlier → Follows earlier.world later.world → (number position : ℕ) (known : Bool) (contact : ℕ) → IsAmong (Answered number (Acked position) known contact) earlier.past → position ≤ length later.world.agreed →
        (q : Question) × IsAmong (came q) earlier.past × (q.number ≡ number) × IsWrite q.asked (λ command. IsEntered position number (entered q command) later.world.agreed) }
{}

/// A leading server of the later run that is ready, where nothing is due, has applied all that the earlier run agreed.
/// Only such a server takes on a default or a consistent read, so each of these sees it.
pub fn ready_servers_show_what_was_agreed()
    ensures { (earlier later : Cluster) → Sound earlier → Sound later → Follows earlier.world later.world → (i : ℕ) → runs_leading later.world i ≡ true → is_ready later i ≡ true → due i later ≡ None →
        take (length earlier.world.agreed) (applied_of later i) ≡ earlier.world.agreed }
{}
