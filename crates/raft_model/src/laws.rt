//! Laws of the definitions, each the contract of a function with an empty body. They hold of each world that is
//! reached from empty stores, or from the stores of an earlier run, whatever is lost, repeated, reordered or
//! restarted, and whichever store calls fail.

ghost use Rattle.std.specs.Prelude.{List, ◌≡◌, ◌≤◌, ℕ, length, take, false};
ghost use Rattle.cat_model.specs.declared.command.Entry.{Entry};
ghost use Rattle.cat_model.specs.Log.{IsWellFormed, IsEnteredOnce};
ghost use Rattle.raft_model.specs.Log.{entry_at, last_term};
ghost use Rattle.raft_model.specs.Node.{Node};
ghost use Rattle.raft_model.specs.declared.message.Sent.{Sent};
ghost use Rattle.raft_model.specs.Rules.{Input};
ghost use Rattle.raft_model.specs.Step.{Works, NodeStep};
ghost use Rattle.raft_model.specs.Runs.{ElectionRow, CountsRow, fresh};
ghost use Rattle.raft_model.specs.World.{World, Move, WorldStep, Reaches, IsReached, IsOfFirstRun, IsServer, Agrees};
ghost use Rattle.raft_model.specs.Facts.{HasOneLeader, HasMatchingLogs, KeepsVotes, IsLeading, IsReady, IsPlaced, ShowsAgreed, StandsOnce, next_round};

/// Agreement: each server has committed a front of the agreed log.
#[tactic(auto, using(crate::proofs::Theorems::agrees))]
pub fn servers_agree()
    ensures { (w : World) → IsReached w → Agrees w }
{}

/// No step shortens or changes the agreed log.
#[tactic(auto, using(crate::proofs::Theorems::grows))]
pub fn agreed_only_grows()
    ensures { (w w' : World) (move : Move) → IsReached w → WorldStep w move w' → take (length w.agreed) w'.agreed ≡ w.agreed }
{}

/// Nor do many steps.
#[tactic(auto, using(crate::proofs::Theorems::grows_far))]
pub fn agreed_only_grows_on()
    ensures { (w w' : World) → IsReached w → Reaches w w' → take (length w.agreed) w'.agreed ≡ w.agreed }
{}

/// A confirmed round shows all that was agreed when it was begun, where its leader had committed an entry of its
/// own term.
#[tactic(auto, using(crate::proofs::Theorems::shows))]
pub fn reads_are_fresh()
    ensures { (w : World) → IsReached w → (i : ℕ) (n : Node) → IsServer w i n → IsReady n → ShowsAgreed w (next_round n) }
{}

/// An entry of a running server's log, as one that it has just been given, keeps its place.
#[tactic(auto, using(crate::proofs::Theorems::placed))]
pub fn entries_keep_their_places()
    ensures { (w : World) → IsReached w → (i : ℕ) (n : Node) → IsServer w i n → n.halted ≡ false → (m : ℕ) (e : Entry) → entry_at m n.log ≡ Some e → IsPlaced w m e }
{}

/// An entry of one term with a number other than 0 stands at one index wherever it stands.
pub fn numbers_stand_once()
    ensures { (w w' : World) → IsReached w → Reaches w w' → StandsOnce w w' }
{}

/// The log of a leader whose term is not below that of the last agreed entry begins with the agreed log.
#[tactic(auto, using(crate::proofs::Theorems::begins))]
pub fn leaders_begin_with_agreed()
    ensures { (w : World) → IsReached w → (i : ℕ) (n : Node) → IsServer w i n → IsLeading n → last_term w.agreed ≤ n.term → take (length w.agreed) n.log ≡ w.agreed }
{}

/// The agreed log is well formed: it begins with a Noop of number 0, terms never fall, and no two entries of one term
/// have the same number other than 0.
#[tactic(auto, using(crate::proofs::Theorems::well_formed))]
pub fn agreed_is_well_formed()
    ensures { (w : World) → IsReached w → IsWellFormed w.agreed }
{}

/// In a run from empty stores no two agreed entries at all have the same number other than 0.
#[tactic(auto, using(crate::proofs::Theorems::first_run))]
pub fn numbers_of_a_first_run()
    ensures { (w : World) → IsOfFirstRun w → IsEnteredOnce w.agreed }
{}

/// A term has one leader.
pub fn a_term_has_one_leader()
    ensures { (w : World) → IsReached w → HasOneLeader w }
{}

/// Logs that have one term at one index are the same up to it.
pub fn logs_match()
    ensures { (w : World) → IsReached w → HasMatchingLogs w }
{}

/// A server's kept term never falls, and its vote in a term stays, also over restarts.
pub fn votes_are_kept()
    ensures { (w w' : World) → IsReached w → Reaches w w' → KeepsVotes w w' }
{}

/// Where nothing is armed, each input has a step in which the store works.
#[tactic(auto, using(crate::proofs::Deciding::has_step))]
pub fn inputs_have_steps()
    ensures { (old : Node) (input : Input) → old.store.armed ≡ 0 → (new : Node) × (sent : List Sent) × NodeStep Works old input new sent }
{}

/// Servers that begin with empty stores make a reached world.
#[tactic(auto, using(crate::proofs::Reaching::fresh_reached))]
pub fn fresh_worlds_are_reached()
    ensures { (servers : ℕ) → IsReached (fresh servers) }
{}

/// The first election of three servers, as node 1 sees it.
#[tactic(auto, using(crate::proofs::Examples::election))]
pub fn first_election()
    ensures { ElectionRow }
{}

/// The first election of three servers with all its deliveries: messages 1 to 12, and index 1 committed everywhere.
#[tactic(auto, using(crate::proofs::Examples::counts))]
pub fn first_election_settled()
    ensures { CountsRow }
{}
