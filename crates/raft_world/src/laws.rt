//! Laws of the definitions, each the contract of a function with an empty body.

ghost use Rattle.std.specs.Prelude.{◌≡◌, ◌<◌, ℕ, List, length, min, get_or, set};
ghost use Rattle.raft_model.specs.declared.message.Sent.{Sent};
ghost use Rattle.raft_model.specs.Log.{Log};
ghost use Rattle.raft_model.specs.Node.{Node, committed};
ghost use Rattle.raft_model.specs.Rules.{Input};
ghost use Rattle.raft_model.specs.Step.{Outcome, NodeStep};
ghost use Rattle.raft_model.specs.World.{longer};
ghost use Rattle.raft_world.specs.declared.agreed.Agreed.{Agreed};
ghost use Rattle.raft_world.specs.Agreeing.{grown, shown, Stands};
ghost use Rattle.raft_world.specs.Fronts.{HasFront};

/// No step of a server changes what it has committed, whatever its store does.
pub fn committed_entries_stay()
    ensures { (front : Log) (outcome : Outcome) (old : Node) (input : Input) (new : Node) (sent : List Sent) → NodeStep outcome old input new sent → HasFront front old → HasFront front new }
{}

/// So no step of a server changes the agreed log where that stands in a server's log.
pub fn agreed_list_stays()
    ensures { (agreed : Agreed) (nodes : List Node) (at : ℕ) (outcome : Outcome) (old : Node) (input : Input) (new : Node) (sent : List Sent) → at < length nodes → get_or nodes at old ≡ old → NodeStep outcome old input new sent → Stands agreed nodes → (shown agreed (set nodes at new) ≡ shown agreed nodes) × Stands agreed (set nodes at new) }
{}

/// Once a server's commit is counted, the agreed log is the longer of what it was and what that server has committed.
pub fn agreed_list_grows()
    ensures { (agreed : Agreed) (nodes : List Node) (at : ℕ) (n : Node) → at < length nodes → get_or nodes at n ≡ n → Stands agreed nodes → let now = grown agreed at (min n.commit (length n.log)) in (shown now nodes ≡ longer (shown agreed nodes) (committed n)) × Stands now nodes }
{}
