//! The publisher.

ghost use Rattle.std.specs.Prelude.{◌≡◌, ◌⊎◌, ◌<◌, ◌-◌, ◌^◌, [], ◌∷◌, ◌++◌, length, drop, fold, IfOk, OnOk, OnErr, MatchBool, MatchResult};
ghost use mathlib.Core.List.{IsPrefix};
ghost use Rattle.cat_model.specs.Log.{commands_of};
ghost use Rattle.stale_view.specs.declared.side.Op.TheVariants.{Apply, Stamp};
ghost use Rattle.stale_view.specs.Sides.{Stands, all_of, after_op};
ghost use Rattle.left_right.specs.Sides.{view as view_of};

use crate::history::{Front, Head};
use crate::names::PairName;
use crate::rule::{Shows, SideWriter};
use crate::side::Op;
use cat_model::{Command, Entry, Memory, Shared};
use core::mem::replace_with;
use std::alloc::AllocError;
use std::marker::Model;
use std::sync::Wait;

/// What shows viewers a log. Its drop waits for those that are reading.
pub struct Publisher<J: PairName, R: Wait + Drop> {
    pub(crate) writer: SideWriter<J>,
    // How many commands are shown or pending.
    pub(crate) taken: u64,
    // The history as far as it has come, and its word.
    pub(crate) front: Front,
    pub(crate) head: Head,
    pub(crate) rt: R,
}

impl<J: PairName, R: Wait + Drop> Drop for Publisher<J, R> {
    fn drop(self) {
        let Self {
            writer,
            taken: _,
            front: _,
            head: _,
            rt,
        } = self;
        drop(writer.take(&rt));
    }
}

impl<J: PairName, R: Wait + Drop> Model for Publisher<J, R> {
    ghost use Rattle.std.specs.Prelude.{◌≡◌, drop, length};
    ghost use mathlib.Core.List.{IsPrefix};
    ghost use Rattle.left_right.specs.Sides.{view as view_of};
    ghost use Rattle.stale_view.specs.Sides.{Stands, all_of};
    ghost use Rattle.stale_view.specs.Published.{Published};

    ghost Value = { Published };

    ghost view = { λ p. record { list = p.writer.desk.shown.value.store; taken = all_of p.writer.desk.shown.value (drop p.writer.behind p.writer.log.items) } };

    ghost invariant = { λ p. (view_of p.writer.desk.place ≡ p.writer.desk.shown.value.store)
        × Stands J.book p.writer.desk.shown.value
        × (p.taken ≡ length (all_of p.writer.desk.shown.value (drop p.writer.behind p.writer.log.items)))
        × IsPrefix p.front.list (all_of p.writer.desk.shown.value (drop p.writer.behind p.writer.log.items))
        × (p.front.book ≡ J.book)
        × (p.head.word.book ≡ J.book) };
}

// Puts a command behind those that are shown or pending.
fn file<J: PairName>(writer: &mut SideWriter<J>, command: &Shared<Command>) -> Result<(), Memory>
    ensures desk { writer.new.desk ≡ writer.old.desk }
    ensures ok { OnOk result (drop writer.new.behind writer.new.log.items ≡ drop writer.old.behind writer.old.log.items ++ Apply command.now ∷ []) }
    ensures err { OnErr result (drop writer.new.behind writer.new.log.items ≡ drop writer.old.behind writer.old.log.items) }
{
    let owner = command.share()?;
    match writer.append(Op::Apply(owner)) {
        Ok(()) => Ok(()),
        Err(op) => {
            drop(op);
            Err(Memory)
        }
    }
}

// Puts a stamp behind what is pending.
fn stamp<J: PairName>(writer: &mut SideWriter<J>, front: &Front) -> Result<(), Memory>
    ensures desk { writer.new.desk ≡ writer.old.desk }
    ensures ok { OnOk result (drop writer.new.behind writer.new.log.items ≡ drop writer.old.behind writer.old.log.items ++ Stamp front.now ∷ []) }
    ensures err { OnErr result (drop writer.new.behind writer.new.log.items ≡ drop writer.old.behind writer.old.log.items) }
{
    match writer.append(Op::Stamp(front.again())) {
        Ok(()) => Ok(()),
        Err(op) => {
            drop(op);
            Err(Memory)
        }
    }
}

// Puts a command behind those that are shown or pending, with which the history goes on.
fn take_one<J: PairName>(
    writer: &mut SideWriter<J>,
    taken: &mut u64,
    front: &mut Front,
    head: &Head,
    command: &Shared<Command>,
) -> Result<(), Memory>
    requires count { taken.old ≡ length (all_of writer.old.desk.shown.value (drop writer.old.behind writer.old.log.items)) }
    requires room { taken.old < 2 ^ 64 - 1 }
    requires whole { front.old.list ≡ all_of writer.old.desk.shown.value (drop writer.old.behind writer.old.log.items) }
    requires one { head.now.word.book ≡ front.old.book }
    ensures desk { writer.new.desk ≡ writer.old.desk }
    ensures count { taken.new ≡ length (all_of writer.new.desk.shown.value (drop writer.new.behind writer.new.log.items)) }
    ensures front { IsPrefix front.new.list (all_of writer.new.desk.shown.value (drop writer.new.behind writer.new.log.items)) }
    ensures book { front.new.book ≡ front.old.book }
    ensures taken { (all_of writer.new.desk.shown.value (drop writer.new.behind writer.new.log.items) ≡ all_of writer.old.desk.shown.value (drop writer.old.behind writer.old.log.items)) ⊎ (all_of writer.new.desk.shown.value (drop writer.new.behind writer.new.log.items) ≡ all_of writer.old.desk.shown.value (drop writer.old.behind writer.old.log.items) ++ command.now ∷ []) }
    ensures ok { OnOk result ((all_of writer.new.desk.shown.value (drop writer.new.behind writer.new.log.items) ≡ all_of writer.old.desk.shown.value (drop writer.old.behind writer.old.log.items) ++ command.now ∷ []) × (front.new.list ≡ all_of writer.new.desk.shown.value (drop writer.new.behind writer.new.log.items))) }
{
    file(writer, command)?;
    *taken += 1;
    if front.add(head, command) {
        Ok(())
    } else {
        Err(Memory)
    }
}

// Takes the commands of the log that stand behind as many as were taken, with which the history goes on. Where that once
// could not go on, none is taken any more.
fn take_all<J: PairName>(
    writer: &mut SideWriter<J>,
    taken: &mut u64,
    front: &mut Front,
    head: &Head,
    log: &[Entry],
) -> Result<(), Memory>
    requires count { taken.old ≡ length (all_of writer.old.desk.shown.value (drop writer.old.behind writer.old.log.items)) }
    requires history { IsPrefix front.old.list (all_of writer.old.desk.shown.value (drop writer.old.behind writer.old.log.items)) }
    requires one { head.now.word.book ≡ front.old.book }
    ensures desk { writer.new.desk ≡ writer.old.desk }
    ensures count { taken.new ≡ length (all_of writer.new.desk.shown.value (drop writer.new.behind writer.new.log.items)) }
    ensures front { IsPrefix (all_of writer.old.desk.shown.value (drop writer.old.behind writer.old.log.items)) (commands_of log.now) → IsPrefix (all_of writer.new.desk.shown.value (drop writer.new.behind writer.new.log.items)) (commands_of log.now) }
    ensures grown { IsPrefix (all_of writer.old.desk.shown.value (drop writer.old.behind writer.old.log.items)) (all_of writer.new.desk.shown.value (drop writer.new.behind writer.new.log.items)) }
    ensures history { IsPrefix front.new.list (all_of writer.new.desk.shown.value (drop writer.new.behind writer.new.log.items)) }
    ensures book { front.new.book ≡ front.old.book }
    ensures ok { OnOk result ((front.new.list ≡ all_of writer.new.desk.shown.value (drop writer.new.behind writer.new.log.items)) × (IsPrefix (all_of writer.old.desk.shown.value (drop writer.old.behind writer.old.log.items)) (commands_of log.now) → all_of writer.new.desk.shown.value (drop writer.new.behind writer.new.log.items) ≡ commands_of log.now)) }
{
    if front.count() != *taken {
        return Err(Memory);
    }
    while *taken < log.len() as u64 {
        take_one(writer, taken, front, head, &log[*taken as usize].command)?;
    }
    Ok(())
}

// Shows viewers what is pending. It waits for those that are reading.
fn show<J: PairName, R: Wait>(writer: SideWriter<J>, rt: &R) -> (SideWriter<J>, Result<(), Memory>)
    requires knows { view_of writer.desk.place ≡ writer.desk.shown.value.store }
    requires stands { Stands J.book writer.desk.shown.value }
    requires stamped { Stands J.book (fold after_op writer.desk.shown.value (drop writer.behind writer.log.items)) }
    ensures knows { view_of result.0.desk.place ≡ result.0.desk.shown.value.store }
    ensures stands { Stands J.book result.0.desk.shown.value }
    ensures shown { MatchResult result.1
        (λ _. (result.0.desk.shown.value.store ≡ all_of writer.desk.shown.value (drop writer.behind writer.log.items)) × (drop result.0.behind result.0.log.items ≡ []))
        (λ _. (result.0.desk.shown.value ≡ writer.desk.shown.value) × (drop result.0.behind result.0.log.items ≡ drop writer.behind writer.log.items)) }
{
    let (writer, shown) = writer.publish_as::<Shows<J>, R>(rt);
    match shown {
        Ok(()) => (writer, Ok(())),
        Err(AllocError) => (writer, Err(Memory)),
    }
}

// The same, in place.
fn show_all<J: PairName, R: Wait>(writer: &mut SideWriter<J>, rt: &R) -> Result<(), Memory>
    requires knows { view_of writer.old.desk.place ≡ writer.old.desk.shown.value.store }
    requires stands { Stands J.book writer.old.desk.shown.value }
    requires stamped { Stands J.book (fold after_op writer.old.desk.shown.value (drop writer.old.behind writer.old.log.items)) }
    ensures knows { view_of writer.new.desk.place ≡ writer.new.desk.shown.value.store }
    ensures stands { Stands J.book writer.new.desk.shown.value }
    ensures all { all_of writer.new.desk.shown.value (drop writer.new.behind writer.new.log.items) ≡ all_of writer.old.desk.shown.value (drop writer.old.behind writer.old.log.items) }
    ensures ok { OnOk result (writer.new.desk.shown.value.store ≡ all_of writer.old.desk.shown.value (drop writer.old.behind writer.old.log.items)) }
    ensures err { OnErr result (writer.new.desk.shown.value.store ≡ writer.old.desk.shown.value.store) }
{
    replace_with(writer, rt, show)
}

// Puts a stamp behind what is pending. Says whether anything was.
fn prepare<J: PairName>(writer: &mut SideWriter<J>, front: &Front) -> Result<bool, Memory>
    requires whole { front.now.list ≡ all_of writer.old.desk.shown.value (drop writer.old.behind writer.old.log.items) }
    ensures desk { writer.new.desk ≡ writer.old.desk }
    ensures all { all_of writer.new.desk.shown.value (drop writer.new.behind writer.new.log.items) ≡ all_of writer.old.desk.shown.value (drop writer.old.behind writer.old.log.items) }
    ensures some { IfOk result (λ some. MatchBool some (Stands front.now.book (fold after_op writer.new.desk.shown.value (drop writer.new.behind writer.new.log.items))) (all_of writer.new.desk.shown.value (drop writer.new.behind writer.new.log.items) ≡ writer.new.desk.shown.value.store)) }
{
    if !writer.has_pending_operations() {
        return Ok(false);
    }
    match stamp(writer, front) {
        Ok(()) => Ok(true),
        Err(Memory) => Err(Memory),
    }
}

impl<J: PairName, R: Wait + Drop> Publisher<J, R> {
    /// Takes what stands in the log behind as many commands as were taken, and shows viewers all that was taken: the whole
    /// log, if it begins with what was taken before. It may wait for those that are reading. After lack of memory they see
    /// what they saw, and the next call goes on.
    pub fn publish(&mut self, log: &[Entry]) -> Result<(), Memory>
        ensures taken { IsPrefix self.old.taken (commands_of log.now) → IsPrefix self.new.taken (commands_of log.now) }
        ensures grown { IsPrefix self.old.taken self.new.taken }
        ensures ok { OnOk result ((self.new.list ≡ self.new.taken) × (IsPrefix self.old.taken (commands_of log.now) → self.new.taken ≡ commands_of log.now)) }
        ensures err { OnErr result (self.new.list ≡ self.old.list) }
    {
        take_all(
            &mut self.writer,
            &mut self.taken,
            &mut self.front,
            &self.head,
            log,
        )?;
        if !prepare(&mut self.writer, &self.front)? {
            return Ok(());
        }
        show_all(&mut self.writer, &self.rt)
    }

    /// The stamp of what viewers see.
    pub(crate) fn shown(&self) -> &Front
        ensures list { result.now.list ≡ self.now.list }
        ensures book { result.now.book ≡ J.book }
    {
        &self.writer.published().stamp
    }
}
