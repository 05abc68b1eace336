//! Laws of clusters that serve, each the contract of a function with an empty body.

ghost use Rattle.std.specs.Prelude.{Bool, List, true, length, ℕ, ◌≡◌, ◌++◌, ◌∷◌, Some};
ghost use Rattle.cat_model.specs.declared.request.Asked.{Asked};
ghost use Rattle.cat_model.specs.declared.request.Draw.{Draw};
ghost use Rattle.cat_model.specs.declared.request.Event.TheVariants as event;
ghost use Rattle.cat_model.specs.declared.reply.Mark.TheVariants as mark;
ghost use Rattle.cluster_rules.specs.Booked.{Booked};
ghost use Rattle.cluster_rules.specs.Cluster.{Cluster};
ghost use Rattle.cluster_rules.specs.Reached.{Fits, IsBegun, MayBegin, Settling};
ghost use Rattle.cluster_rules.specs.Replies.{Closed, Out, number_of};
ghost use Rattle.cluster_rules.specs.Step.{ClusterStep};
ghost use Rattle.cluster_order.specs.Pairs.{IsPartlySettled, settled};
ghost use Rattle.run_rules.specs.Plays.{of_requests};
ghost use Rattle.run_rules.specs.Holding.{Holds};
ghost use Rattle.run_rules.specs.Serving.{Serves, Size};

/// Servers that begin over whatever stores serve once server 1 has stood for election.
pub fn elections_serve()
    ensures { (size : Size) (c c' : Cluster) (whole : Bool) → IsBegun size.stores c → length c.agents ≡ size.agents → Fits c (event.Timeout 1) → ClusterStep c (event.Timeout 1) c' whole → Serves size c' }
{}

/// A request leaves a cluster that serves serving, whole or cut short.
pub fn requests_serve()
    ensures { (size : Size) (c c' : Cluster) (agent : ℕ) (asked : Asked) (draw : Draw) (whole : Bool) → Serves size c → Fits c (event.Ask agent asked draw) → ClusterStep c (event.Ask agent asked draw) c' whole → Serves size c' }
{}

/// So does a tick of a server's clock or of an agent's.
pub fn ticks_serve()
    ensures servers { (size : Size) (c c' : Cluster) (server ms : ℕ) (whole : Bool) → Serves size c → Fits c (event.Tick server ms) → ClusterStep c (event.Tick server ms) c' whole → Serves size c' }
    ensures agents { (size : Size) (c c' : Cluster) (agent ms : ℕ) (whole : Bool) → Serves size c → Fits c (event.AgentTick agent ms) → ClusterStep c (event.AgentTick agent ms) c' whole → Serves size c' }
{}

/// So do deliveries, each followed by that message's loss.
pub fn deliveries_serve()
    ensures whole { (size : Size) (pairs : ℕ) (c mid c' : Cluster) → Serves size c → Settling pairs c mid → c' ≡ settled pairs mid → Serves size c' }
    ensures cut { (size : Size) (most : ℕ) (c c' : Cluster) → Serves size c → IsPartlySettled most c c' → Serves size c' }
{}

/// So does the taking of a request's out.
pub fn takings_serve()
    ensures { (size : Size) (number : ℕ) (c : Cluster) (out : Out) (before after : List Out) → Serves size c → number_of out ≡ Some number → c.tray ≡ before ++ out ∷ after → Serves size (record c { tray = before ++ after; past = mark.Taken number ∷ c.past }) }
{}

/// So does dropping the outs of syncs.
pub fn handings_serve()
    ensures { (size : Size) (c : Cluster) → Serves size c → Serves size (record c { tray = of_requests c.tray }) }
{}

/// The books of a cluster that serves hold, whatever its stores held: no number is asked twice, no request is answered
/// twice, and only what was asked is taken.
pub fn serving_is_booked()
    ensures { (size : Size) (c : Cluster) → Serves size c → Booked c }
{}

/// All that holds of every run holds of a cluster that serves, if its stores were empty or such as an earlier run left.
pub fn serving_holds()
    ensures { (size : Size) (c : Cluster) → Serves size c → MayBegin size.stores → Holds size.stores c }
{}

/// No request is closed, since no server restarts, whatever the stores held.
pub fn nothing_is_closed()
    ensures { (size : Size) (c : Cluster) → Serves size c → (before after : List Out) (number at : ℕ) → c.tray ≡ before ++ Closed number at ∷ after → ⊥ }
{}
