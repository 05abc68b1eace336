//! How the requests' calls are steps of the rules' cluster, where that is more than to compute: each is the contract of a
//! function with an empty body.

ghost use Rattle.std.specs.Prelude.{List, None, Option, Some, map, ℕ, ◌≡◌, ◌∷◌, ◌++◌};
ghost use Rattle.cat_model.specs.declared.request.Asked.{Asked};
ghost use Rattle.cat_model.specs.declared.request.Draw.{Draw};
ghost use Rattle.cat_model.specs.declared.request.Event.TheVariants as event;
ghost use Rattle.cat_model.specs.declared.reply.Mark.TheVariants as mark;
ghost use Rattle.cluster_rules.specs.Agents.{Agent};
ghost use Rattle.raft_model.specs.World.{World};
ghost use Rattle.cluster_rules.specs.Replies.{Out, number_of};
ghost use Rattle.cluster_rules.specs.Cluster.{Pending, Server, Stand};
ghost use Rattle.cluster_rules.specs.Due.{with_held};
ghost use Rattle.cluster_rules.specs.Sound.{Ascends, IsAmong};
ghost use Rattle.cluster_rules.specs.Step.{marked};
ghost use Rattle.cluster_requests.specs.Requests.{Requests, came_with, cluster_of, restood};
ghost use Rattle.cluster_requests.specs.Taking.{Takes};

/// A request that comes with its number is marked as the rules mark it.
pub fn coming_lifts()
    ensures { (w : World) (servers : List Server) (agents : List Agent) (r : Requests) (agent : ℕ) (asked : Asked) (draw : Draw) → cluster_of w servers agents (came_with agent asked draw r) ≡ marked (event.Ask agent asked draw) (cluster_of w servers agents r) }
{}

/// A held request that waits for something else does so by the rules.
pub fn stands_lift()
    ensures { (h : Pending) (stand : Stand) (held : List Pending) → Ascends held → IsAmong h held → map (restood h.question.number stand) held ≡ with_held (record h { stand = stand }) held }
{}

/// The taking of a request's out is one of the rules' moves, as is that of a sync's, which has no mark.
pub fn takings_lift()
    ensures request { (w : World) (servers : List Server) (agents : List Agent) (old new : Requests) (out : Out) (number : ℕ) → number_of out ≡ Some number → (t : Takes out old new) → let c = cluster_of w servers agents old in cluster_of w servers agents new ≡ record c { tray = t.before ++ t.after; past = mark.Taken number ∷ c.past } }
    ensures sync { (w : World) (servers : List Server) (agents : List Agent) (old new : Requests) (out : Out) → number_of out ≡ None → (t : Takes out old new) → let c = cluster_of w servers agents old in cluster_of w servers agents new ≡ record c { tray = t.before ++ t.after } }
{}
