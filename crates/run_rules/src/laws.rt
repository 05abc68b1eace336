//! Laws of a script's runs, each the contract of a function with an empty body.

ghost use Rattle.std.specs.Prelude.{◌≡◌, ℕ, List, Option, None, true};
ghost use Rattle.cat_model.specs.declared.request.Event.{Event};
ghost use Rattle.cluster_rules.specs.Cluster.{Cluster};
ghost use Rattle.cluster_rules.specs.Replies.{Out};
ghost use Rattle.cluster_rules.specs.Reached.{Fits, IsStart, Move, Reached};
ghost use Rattle.run_rules.specs.Lines.{Said, misfit};
ghost use Rattle.run_rules.specs.Plays.{Ending, Plays};
ghost use Rattle.run_rules.specs.Holds.{Holds, IsFirstStart};
ghost use Rattle.run_rules.specs.Legal.{RunIsLegal};
ghost use Rattle.cluster_rules.specs.Sound.{Sound};
ghost use Rattle.run_rules.specs.Reads.{ReadsAreFresh, ReadsWait};

/// An event without a misfit fits.
pub fn events_fit()
    ensures { (c : Cluster) (made : Event) → misfit c made ≡ None → Fits c made }
{}

/// Whatever the lines say, and however they end, this holds of the run.
pub fn runs_hold()
    ensures { (says : ℕ → List ℕ → Said) (number : ℕ) (lines : List (List ℕ)) (start c : Cluster) (outs : List Out) (end : Ending) →
        IsFirstStart start → Plays says number lines start outs end c → Holds start outs c }
{}

/// Each reply and each closing of a run is legal in the cluster in which it is made.
pub fn runs_are_legal()
    ensures { (says : ℕ → List ℕ → Said) (number : ℕ) (lines : List (List ℕ)) (start c : Cluster) (outs : List Out) (end : Ending) → IsFirstStart start → (played : Plays says number lines start outs end c) → RunIsLegal says number lines start outs end c played }
{}

/// A read is answered with an index above the one given, or once its full wait is over: so long by the clock of the server
/// that held it, counted from when it was asked.
#[tactic(auto, using(crate::proofs::Waiting::run_waits))]
pub fn reads_wait()
    ensures { (start : Cluster) → IsStart start → (moves : List Move) (c : Cluster) → Reached start true moves c → ReadsWait c.starts c.past }
{}

/// A consistent read shows no less than what was agreed when it was asked, a default or stale one no less than what its
/// server had applied then.
#[tactic(auto, using(crate::proofs::Fresh::reads_fresh))]
pub fn reads_are_fresh()
    ensures { (c : Cluster) → Sound c → ReadsAreFresh c }
{}
