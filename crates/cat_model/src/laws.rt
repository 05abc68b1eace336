//! Laws of the definitions, each the contract of a function with an empty body.

ghost use Rattle.std.specs.Prelude.{◌≡◌, List, [], ◌∷◌, Some, ℕ, ◌+◌, ◌++◌, length};
ghost use Rattle.cat_model.specs.declared.query.Query.{Query};
ghost use Rattle.cat_model.specs.declared.command.Command.{Command};
ghost use Rattle.cat_model.specs.declared.command.Entry.{Entry};
ghost use Rattle.cat_model.specs.Log.{commands_of, IsWellFormed};
ghost use Rattle.cat_model.specs.Machine.{catalog_at};
ghost use Rattle.cat_model.specs.Indexes.{BeginsWithNoop, IndexLaw};
ghost use Rattle.std.specs.Bool.{Decides};
ghost use Rattle.cat_model.specs.Catalog.{Catalog, InOrder};
ghost use Rattle.cat_model.specs.Channels.{CoveringLaw, Reaches};
ghost use Rattle.cat_model.specs.Reach.{reaches, ReadsLaw, HitLaw};
ghost use Rattle.cat_model.specs.declared.query.Chan.{Chan};
ghost use Rattle.cat_model.specs.Views.{Kept, StandsFor, ViewLaw, NamePositions, NamesAfter, kept_after, nothing_kept};
ghost use Rattle.cat_model.specs.Syncs.{HasRemote, IsSyncable, IsOfNode, Synced, PlanLaw, MergeLaw, all_applied, plan};
ghost use Rattle.cat_model.specs.declared.row.NodeRow.{NodeRow};
ghost use Rattle.cat_model.specs.declared.fired.Local.{Local};
ghost use Rattle.cat_model.specs.declared.fired.Remote.{Remote};
ghost use Rattle.cat_model.specs.Kv.{operate};
ghost use Rattle.cat_model.specs.Locks.{LockLaw, IfDone};
ghost use Rattle.cat_model.specs.declared.row.KvRow.{KvRow};
ghost use Rattle.cat_model.specs.declared.row.SessionRow.{SessionRow};
ghost use Rattle.cat_model.specs.declared.command.TxnOp.{TxnOp};
ghost use Rattle.cat_model.specs.declared.command.Verb.{Verb};

/// Indexes never fall. Where two answers differ, the longer log has the greater index, which is above the shorter
/// log's length.
#[tactic(auto, using(crate::proofs::IndexLaw::index_law))]
pub fn index_law()
    ensures { (query : Query) (log more : List Command) → BeginsWithNoop (log ++ more) → IndexLaw query log more }
{}

/// The same of logs of entries, where the longer one is well formed.
#[tactic(auto, using(crate::proofs::Logs::entry_index_law))]
pub fn entry_index_law()
    ensures { (query : Query) (log more : List Entry) → IsWellFormed (log ++ more) → IndexLaw query (commands_of log) (commands_of more) }
{}

/// The front of a well-formed log is well formed.
pub fn front_law()
    ensures { (log more : List Entry) → IsWellFormed (log ++ more) → IsWellFormed log }
{}

/// A command that touches a query fires a channel that reaches one on which the query hung before it.
#[tactic(auto, using(crate::proofs::Covering::covering_law))]
pub fn covering_law()
    ensures { (query : Query) (log : List Command) (command : Command) → CoveringLaw query log command }
{}

/// After every log each holder is a session that is there and none is broken. Each command but a transaction, of each
/// row that it leaves, keeps holder and lock index, or gives a row that nobody held a holder and raises its lock index
/// by one (from 0 where the row is new), or takes the holder away and keeps the lock index. A transaction leaves the
/// keys that its operations made.
pub fn lock_law()
    ensures { (log : List Command) → LockLaw log }
{}

/// The same of each operation of a transaction that does not fail.
#[tactic(auto, using(crate::proofs::LockSteps::operate_step))]
pub fn operation_law()
    ensures { (version position : ℕ) (sessions : List SessionRow) (verb : Verb) (op : TxnOp) (rows : List KvRow) → IfDone rows (operate version position sessions verb op rows) }
{}

/// In the catalog after any log each list is in the order of its keys, with at most one row for a key.
pub fn key_order()
    ensures { (log : List Command) → InOrder (catalog_at log) }
{}

/// Equal reads give equal answers and equal channels.
pub fn reads_law()
    ensures { (query : Query) (before after : Catalog) → ReadsLaw query before after }
{}

/// The test of what a fired channel reaches says what the relation does.
#[tactic(auto, using(crate::proofs::Reaching::reach_law))]
pub fn reach_law()
    ensures { (fired chan : Chan) → Decides (reaches fired chan) (Reaches fired chan) }
{}

/// The covering law over the list of what a command fires.
#[tactic(auto, using(crate::proofs::Reaching::hit_law))]
pub fn hit_law()
    ensures { (query : Query) (log : List Command) (command : Command) (fired : List Chan) → HitLaw query log command fired }
{}

/// What the tables of a store keep gives the index, the answer and the channels of every query.
pub fn view_law()
    ensures { (query : Query) (kept : Kept) (log : List Command) → StandsFor kept log → ViewLaw query kept log }
{}

/// What the tables keep before the first command stands for the empty log.
pub fn first_view_law()
    ensures { StandsFor nothing_kept [] }
{}

/// What the tables keep goes on standing for the log, whatever the command: what the command fires moves to its
/// position, and the keys that it removes get tombstones.
pub fn view_step_law()
    ensures { (kept : Kept) (log : List Command) (command : Command) (names : NamePositions) → StandsFor kept log → NamesAfter (length log + 1) command kept names → StandsFor (kept_after (length log + 1) command names kept) (log ++ command ∷ []) }
{}

/// The plan of a sync, applied by itself to a catalog with the remote rows, makes it synced.
pub fn sync_law()
    ensures { (position : ℕ) (node : NodeRow) (local : Local) (remote : Remote) (before : Catalog) → local.node ≡ Some node → HasRemote node.node remote before → InOrder before → IsSyncable node local remote → Synced node local (all_applied position (plan local remote) before) }
{}

/// A plan is empty where the catalog is synced already, and only there.
pub fn plan_law()
    ensures { (node : NodeRow) (local : Local) (remote : Remote) (before : Catalog) → local.node ≡ Some node → HasRemote node.node remote before → IsOfNode node local → PlanLaw node local remote before }
{}

/// The tags that an agent takes over from the catalog leave its rows such that the sync law speaks of them.
pub fn merge_law()
    ensures { (node : NodeRow) (local : Local) (remote : Remote) → MergeLaw node local remote }
{}
