//! The store calls of a step.

ghost use Rattle.std.specs.Prelude.{◌≡◌, ◌+◌, ◌^◌, ◌<◌, ◌≤◌, ℕ, true, false, ◌++◌, length, take, OnOk, IfOk, OnErr, IsErrOf};
ghost use Rattle.std.specs.Option.{ForSome};
ghost use Rattle.outside.specs.Keepers.{MayStore};
ghost use Rattle.raft_node.specs.Nodes.{Fits, MayReplace, after, planned_of, seen};
ghost use Rattle.raft_node.specs.Steps.{Makes, Remains, VoteKept, VoteFailed, IsStored, IsFailed, stored};

use crate::node::Node;
use crate::state::{Planned, State, Tail};
use cat_model::{Entry, List, Memory};
use outside::{KeepFail, Keeper};
use raft_model::Sent;
use std::alloc::Global;
use std::mem;

// Why a step was not kept.
enum Unkept {
    // A store call failed.
    Failed,
    // There was no memory, and nothing was saved.
    Memory,
    // There was no memory for the log, after the vote was saved.
    Forgets,
}

// Saves term and vote where they changed, and tells whether they did.
fn keep_vote<K: Keeper>(
    keeper: &mut K,
    alloc: Global,
    old: &State,
    new: &State,
) -> Result<bool, KeepFail>
    ensures ok { IfOk result (λ saved. VoteKept saved old.now new.now (stored (K.held keeper.old) (K.armed keeper.old) (K.faults keeper.old) (K.sure keeper.old)) (stored (K.held keeper.new) (K.armed keeper.new) (K.faults keeper.new) (K.sure keeper.new))) }
    ensures failed { IsErrOf result KeepFail.Failed → VoteFailed old.now new.now (stored (K.held keeper.old) (K.armed keeper.old) (K.faults keeper.old) (K.sure keeper.old)) (stored (K.held keeper.new) (K.armed keeper.new) (K.faults keeper.new) (K.sure keeper.new)) }
    ensures memory { IsErrOf result KeepFail.Memory → stored (K.held keeper.new) (K.armed keeper.new) (K.faults keeper.new) (K.sure keeper.new) ≡ stored (K.held keeper.old) (K.armed keeper.old) (K.faults keeper.old) (K.sure keeper.old) }
{
    if new.term == old.term && new.vote == old.vote {
        return Ok(false);
    }
    keeper.save_vote(alloc, new.term, new.vote)?;
    Ok(true)
}

// The store calls of a step that changes the log from behind its first `keep` entries on.
fn keep<K: Keeper>(
    keeper: &mut K,
    alloc: Global,
    old: &State,
    new: &State,
    keep: usize,
    entries: &List<Entry>,
) -> Result<(), Unkept>
    requires fits { keep < 2 ^ 63 }
    requires may { ForSome (K.held keeper.old) (MayStore (keep + 1) entries.now) }
    ensures ok { OnOk result (IsStored old.now new.now keep entries.now (stored (K.held keeper.old) (K.armed keeper.old) (K.faults keeper.old) (K.sure keeper.old)) (stored (K.held keeper.new) (K.armed keeper.new) (K.faults keeper.new) (K.sure keeper.new))) }
    ensures failed { IsErrOf result Unkept.Failed → IsFailed old.now new.now keep entries.now (stored (K.held keeper.old) (K.armed keeper.old) (K.faults keeper.old) (K.sure keeper.old)) (stored (K.held keeper.new) (K.armed keeper.new) (K.faults keeper.new) (K.sure keeper.new)) }
    ensures forgets { IsErrOf result Unkept.Forgets → VoteKept true old.now new.now (stored (K.held keeper.old) (K.armed keeper.old) (K.faults keeper.old) (K.sure keeper.old)) (stored (K.held keeper.new) (K.armed keeper.new) (K.faults keeper.new) (K.sure keeper.new)) }
    ensures memory { IsErrOf result Unkept.Memory → stored (K.held keeper.new) (K.armed keeper.new) (K.faults keeper.new) (K.sure keeper.new) ≡ stored (K.held keeper.old) (K.armed keeper.old) (K.faults keeper.old) (K.sure keeper.old) }
{
    let saved = match keep_vote(keeper, alloc, old, new) {
        Ok(saved) => saved,
        Err(KeepFail::Failed) => return Err(Unkept::Failed),
        Err(KeepFail::Memory) => return Err(Unkept::Memory),
    };
    match keeper.store_from(alloc, keep as u64 + 1, entries) {
        Ok(()) => Ok(()),
        Err(KeepFail::Failed) => Err(Unkept::Failed),
        Err(KeepFail::Memory) if saved => Err(Unkept::Forgets),
        Err(KeepFail::Memory) => Err(Unkept::Memory),
    }
}

// Takes room in the log, makes the store calls, and then changes the log.
fn store_log<K: Keeper>(
    keeper: &mut K,
    alloc: Global,
    old: &State,
    new: &State,
    log: &mut List<Entry>,
    tail: Tail,
) -> Result<(), Unkept>
    requires within { tail.keep ≤ length log.old }
    requires may { ForSome (K.held keeper.old) (MayStore (tail.keep + 1) tail.entries) }
    ensures ok { OnOk result (IsStored old.now new.now tail.keep tail.entries (stored (K.held keeper.old) (K.armed keeper.old) (K.faults keeper.old) (K.sure keeper.old)) (stored (K.held keeper.new) (K.armed keeper.new) (K.faults keeper.new) (K.sure keeper.new))) }
    ensures failed { IsErrOf result Unkept.Failed → IsFailed old.now new.now tail.keep tail.entries (stored (K.held keeper.old) (K.armed keeper.old) (K.faults keeper.old) (K.sure keeper.old)) (stored (K.held keeper.new) (K.armed keeper.new) (K.faults keeper.new) (K.sure keeper.new)) }
    ensures forgets { IsErrOf result Unkept.Forgets → VoteKept true old.now new.now (stored (K.held keeper.old) (K.armed keeper.old) (K.faults keeper.old) (K.sure keeper.old)) (stored (K.held keeper.new) (K.armed keeper.new) (K.faults keeper.new) (K.sure keeper.new)) }
    ensures memory { IsErrOf result Unkept.Memory → stored (K.held keeper.new) (K.armed keeper.new) (K.faults keeper.new) (K.sure keeper.new) ≡ stored (K.held keeper.old) (K.armed keeper.old) (K.faults keeper.old) (K.sure keeper.old) }
    ensures log { OnOk result (log.new ≡ take tail.keep log.old ++ tail.entries) }
    ensures unchanged { OnErr result (log.new ≡ log.old) }
{
    let mut items = mem::replace(log, List::new(alloc)).into_vec();
    if items.reserve(tail.entries.len()).is_err() {
        *log = List::from(items);
        return Err(Unkept::Memory);
    }
    let kept = keep(keeper, alloc, old, new, tail.keep, &tail.entries);
    if kept.is_ok() {
        items.truncate(tail.keep);
        let Ok(()) = items.append(&mut tail.entries.into_vec()) else {
            unreachable!()
        };
    }
    *log = List::from(items);
    kept
}

impl<K: Keeper + Drop> Node<K> {
    // A planned step that leaves the log.
    fn make_state(
        &mut self,
        alloc: Global,
        state: State,
        sent: List<Sent>,
    ) -> Result<List<Sent>, Memory>
        requires running { self.old.halted ≡ false }
        requires still { state.halted ≡ false }
        requires commit { state.commit ≤ length self.old.log }
        ensures ok { IfOk result (λ out. Makes self.old (record { node = seen self.old.store state self.old.log; sent = sent }) self.new out) }
        ensures memory { OnErr result (self.new ≡ self.old) }
    {
        match keep_vote(&mut self.keeper, alloc, &self.state, &state) {
            Ok(_) => {
                self.state = state;
                Ok(sent)
            }
            Err(KeepFail::Failed) => {
                self.state.halt();
                Ok(List::new(alloc))
            }
            Err(KeepFail::Memory) => Err(Memory),
        }
    }

    // A planned step that changes the log.
    fn make_log(
        &mut self,
        alloc: Global,
        state: State,
        tail: Tail,
        sent: List<Sent>,
    ) -> Result<List<Sent>, Memory>
        requires running { self.old.halted ≡ false }
        requires still { state.halted ≡ false }
        requires fits { MayReplace self.old.log tail }
        requires commit { state.commit ≤ length (take tail.keep self.old.log ++ tail.entries) }
        ensures ok { IfOk result (λ out. Makes self.old (record { node = seen self.old.store state (take tail.keep self.old.log ++ tail.entries); sent = sent }) self.new out) }
        ensures memory { OnErr result (Remains self.old (record { node = seen self.old.store state (take tail.keep self.old.log ++ tail.entries); sent = sent }) self.new) }
    {
        let keep = tail.keep;
        match store_log(
            &mut self.keeper,
            alloc,
            &self.state,
            &state,
            &mut self.log,
            tail,
        ) {
            Ok(()) => {
                self.counted.cut(keep);
                self.state = state;
                Ok(sent)
            }
            Err(Unkept::Failed) => {
                self.state.halt();
                Ok(List::new(alloc))
            }
            Err(Unkept::Memory) => Err(Memory),
            Err(Unkept::Forgets) => {
                self.state.forget(state.term, state.vote);
                Err(Memory)
            }
        }
    }

    /// Makes a planned step: takes room in the log, calls the store, and then becomes what was planned and gives what
    /// is to be sent. Where a store call fails the node halts instead, and gives nothing.
    pub(crate) fn make(&mut self, alloc: Global, planned: Planned) -> Result<List<Sent>, Memory>
        requires running { self.old.halted ≡ false }
        requires still { planned.state.halted ≡ false }
        requires fits { Fits self.old.log planned.tail }
        requires commit { planned.state.commit ≤ length (after self.old.log planned.tail) }
        ensures ok { IfOk result (λ sent. Makes self.old (planned_of self.old.store self.old.log planned) self.new sent) }
        ensures memory { OnErr result (Remains self.old (planned_of self.old.store self.old.log planned) self.new) }
    {
        let Planned { state, tail, sent } = planned;
        match tail {
            None => self.make_state(alloc, state, sent),
            Some(tail) => self.make_log(alloc, state, tail, sent),
        }
    }
}
