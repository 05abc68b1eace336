//! The requests that are held, in the order of their numbers.

ghost use Rattle.std.specs.Prelude.{◌≡◌, ◌==◌, ◌+◌, ◌<◌, ◌≤◌, ◌++◌, ◌∷◌, [], IfOk, OnOk, List, filter, is_some, length, map, set, slice_index_or, true, vec_len, vec_capacity};
ghost use Rattle.std.specs.List.{AllByRecursion as Each, filter_map, find};
ghost use Rattle.std.specs.Option.{option_copied};
ghost use Rattle.cluster_rules.specs.Due.{waiting, without};
ghost use Rattle.cluster_rules.specs.Step.{ended};
ghost use Rattle.cluster_requests.specs.Contents.{stand_of};
ghost use Rattle.cluster_requests.specs.Counts.{AreCounts};
ghost use Rattle.cluster_requests.specs.Held.{IsPlace, NumbersAll, Rises, ended_numbered, held_in, none_held, number_held, pending_of, slot_ended, slot_number, slot_restood};
ghost use Rattle.cluster_requests.specs.Requests.{restood};
ghost use Rattle.cluster_requests.specs.declared.slot.HeldSlot.{HeldSlot as SpecSlot};

use crate::counts::{COUNTED, count_in, count_none, count_of, count_out, count_slots};
use crate::pending::{Pending, Stand};
use crate::slot::HeldSlot;
use cat_model::Memory;
use std::alloc::Global;
use std::marker::Model;

/// Held requests. One is found by its number in a logarithm of how many are held. The slot of one that is dropped
/// stays empty, and is swept out together with the others once they may be half of all, so that none is moved for each.
#[derive(Drop)]
pub struct HeldRequests {
    slots: Vec<HeldSlot>,
    // how many were dropped since slots were swept out
    gone: usize,
    // how many wait for an index, by the numbers of servers
    waiting: [usize; COUNTED],
}

impl Model for HeldRequests {
    ghost use Rattle.std.specs.Prelude.{◌-◌, vec_len, vec_capacity};
    ghost use Rattle.cluster_requests.specs.Counts.{AreCounts};
    ghost use Rattle.cluster_requests.specs.Held as spec;

    ghost Value = { spec.HeldRequests };

    ghost view = { λ r. record { requests = spec.held_in r.slots.items; room = vec_capacity r.slots - vec_len r.slots } };

    ghost invariant = { λ r. spec.Rises r.slots.items × AreCounts r.waiting (spec.held_in r.slots.items) };
}

// Where the slot of a number stands.
fn place(slots: &[HeldSlot], number: u64) -> Option<usize>
    requires { Rises slots.now }
    ensures { IsPlace number slots.now result }
{
    let at = slots.partition_point(|s| s.number() < number);
    if at < slots.len() && slots[at].number() == number {
        Some(at)
    } else {
        None
    }
}

// Puts an item in the place of another. This is of any type, so that its proof has no parts of one.
fn set_at<T: Drop>(items: &mut Vec<T>, at: usize, item: T)
    requires { at < vec_len items.old }
    ensures items { items.new.items ≡ set items.old.items at item }
    ensures len { vec_len items.new ≡ vec_len items.old }
    ensures capacity { vec_capacity items.new ≡ vec_capacity items.old }
{
    items[at] = item;
}

// Sweeps out the slots of requests that were dropped.
fn sweep(slots: &mut Vec<HeldSlot>)
    ensures items { slots.new.items ≡ filter (λ s. is_some (pending_of s)) slots.old.items }
    ensures fewer { vec_len slots.new ≤ vec_len slots.old }
    ensures capacity { vec_capacity slots.new ≡ vec_capacity slots.old }
{
    slots.retain(|s| s.is_held());
}

// The number is above those of all slots.
fn is_last(slots: &[HeldSlot], number: u64) -> bool
    requires { Rises slots.now }
    ensures { result ≡ true → Each (λ s. slot_number s < number) slots.now }
{
    match slots.last() {
        Some(slot) => slot.number() < number,
        None => true,
    }
}

// Sweeps out the slots of requests that were dropped, where one of them hinders that one of this number stands last.
fn make_last(slots: &mut Vec<HeldSlot>, number: u64)
    requires rises { Rises slots.old.items }
    requires last { Each (λ h. h.question.number < number) (held_in slots.old.items) }
    ensures items { (held_in slots.new.items ≡ held_in slots.old.items) × Rises slots.new.items }
    ensures last { Each (λ s. slot_number s < number) slots.new.items }
    ensures fewer { vec_len slots.new ≤ vec_len slots.old }
    ensures capacity { vec_capacity slots.new ≡ vec_capacity slots.old }
{
    if !is_last(slots.as_slice(), number) {
        sweep(slots);
    }
}

// The request of the slot at a place waits for something else, where it has this number.
fn restand_at(slots: &mut [HeldSlot], counts: &mut [usize], at: usize, number: u64, stand: Stand)
    requires within { at < length slots.old }
    requires counts { AreCounts counts.old (held_in slots.old) }
    ensures slots { (d : SpecSlot) → slots.new ≡ set slots.old at (slot_restood number (stand_of stand) (slice_index_or slots.old at d)) }
    ensures counts { AreCounts counts.new (held_in slots.new) }
{
    let slot = &mut slots[at];
    count_out(counts, slot);
    slot.restand(number, stand);
    count_in(counts, slot);
}

// The request of a number waits for something else.
fn restand_in(slots: &mut [HeldSlot], counts: &mut [usize], number: u64, stand: Stand)
    requires rises { Rises slots.old }
    requires counts { AreCounts counts.old (held_in slots.old) }
    ensures held { held_in slots.new ≡ map (restood number (stand_of stand)) (held_in slots.old) }
    ensures rises { Rises slots.new }
    ensures counts { AreCounts counts.new (held_in slots.new) }
{
    if let Some(at) = place(slots, number) {
        restand_at(slots, counts, at, number, stand);
    }
}

// Each request of a server is to be closed, since the server restarted in the event with this number.
fn end_each(slots: &mut [HeldSlot], server: u32, event: u64)
    requires { Rises slots.old }
    ensures held { held_in slots.new ≡ map (ended server event) (held_in slots.old) }
    ensures rises { Rises slots.new }
{
    for slot in slots.iter_mut() {
        slot.end(server, event);
    }
}

// The request of the slot at a place is to be closed, where this server holds it, which restarted in the event with this
// number.
fn end_at(slots: &mut [HeldSlot], at: usize, server: u32, event: u64)
    requires { at < length slots.old }
    ensures { (d : SpecSlot) → slots.new ≡ set slots.old at (slot_ended server event (slice_index_or slots.old at d)) }
{
    slots[at].end(server, event);
}

// The request of a number is to be closed, where this server holds it, which restarted in the event with this number.
fn end_one(slots: &mut [HeldSlot], server: u32, event: u64, number: u64)
    requires { Rises slots.old }
    ensures held { held_in slots.new ≡ map (ended_numbered number server event) (held_in slots.old) }
    ensures rises { Rises slots.new }
{
    if let Some(at) = place(slots, number) {
        end_at(slots, at, server, event);
    }
}

// Each request of a server is to be closed, as `end_each` does it, where these are the numbers of all of them.
fn end_among(slots: &mut [HeldSlot], server: u32, event: u64, numbers: &[u64])
    requires rises { Rises slots.old }
    requires numbers { NumbersAll server numbers.now (held_in slots.old) }
    ensures held { held_in slots.new ≡ map (ended server event) (held_in slots.old) }
    ensures rises { Rises slots.new }
{
    for number in numbers {
        end_one(slots, server, event, *number);
    }
}

// The numbers of the requests that are held.
fn numbers_of(alloc: Global, slots: &[HeldSlot]) -> Result<Vec<u64>, Memory>
    ensures { IfOk result (λ numbers. numbers.items ≡ filter_map number_held slots.now) }
{
    let mut numbers = Vec::new(alloc);
    for slot in slots {
        if let Some(number) = slot.held_number() {
            numbers.push(number)?;
        }
    }
    Ok(numbers)
}

impl HeldRequests {
    /// No request is held.
    pub fn new(alloc: Global) -> HeldRequests
        ensures { result ≡ none_held }
    {
        HeldRequests {
            slots: Vec::new(alloc),
            gone: 0,
            waiting: [0; COUNTED],
        }
    }

    /// The slots of the requests, in the order of their numbers.
    pub fn slots(&self) -> &[HeldSlot]
        ensures { held_in result.now ≡ self.now.requests }
    {
        self.slots.as_slice()
    }

    /// How many wait at a server for an index. None is looked at, where the server's number is below 8.
    pub fn waiting(&self, server: u32) -> usize
        ensures { result ≡ waiting server self.now.requests }
    {
        match count_of(&self.waiting, server) {
            Some(count) => count,
            None => count_slots(server, self.slots.as_slice()),
        }
    }

    /// The request of a number.
    pub fn get(&self, number: u64) -> Option<&Pending>
        ensures { option_copied result ≡ find (λ h. h.question.number == number) self.now.requests }
    {
        match place(self.slots.as_slice(), number) {
            Some(at) => self.slots[at].pending(),
            None => None,
        }
    }

    /// The numbers of the requests, in their order.
    #[tactic(auto, using(crate::proofs::Slots::numbers_held))]
    pub fn numbers(&self, alloc: Global) -> Result<Vec<u64>, Memory>
        ensures { IfOk result (λ numbers. numbers.items ≡ map (λ h. h.question.number) self.now.requests) }
    {
        numbers_of(alloc, self.slots.as_slice())
    }

    /// Takes the room for so many more.
    pub fn reserve(&mut self, more: usize) -> Result<(), Memory>
        ensures requests { self.new.requests ≡ self.old.requests }
        ensures room { self.old.room ≤ self.new.room }
        ensures ok { OnOk result (more ≤ self.new.room) }
    {
        self.slots.reserve(more)?;
        Ok(())
    }

    /// Holds a request more, whose number is above those of all that are held. There is room for it, so that it takes no
    /// memory.
    pub fn push(&mut self, pending: Pending)
        requires room { 0 < self.old.room }
        requires last { Each (λ h. h.question.number < pending.question.number) self.old.requests }
        ensures requests { self.new.requests ≡ self.old.requests ++ pending ∷ [] }
        ensures room { self.old.room ≤ self.new.room + 1 }
    {
        make_last(&mut self.slots, pending.number());
        let slot = HeldSlot::Held(pending);
        count_in(&mut self.waiting, &slot);
        self.slots.push_reserved(slot);
    }

    // One more was dropped: slots are swept out once they may be half of all.
    fn count_gone(&mut self)
        ensures requests { self.new.requests ≡ self.old.requests }
        ensures room { self.old.room ≤ self.new.room }
    {
        if self.gone < self.slots.len() / 2 {
            self.gone += 1;
        } else {
            sweep(&mut self.slots);
            self.gone = 0;
        }
    }

    /// Lets go of the request of a number.
    pub fn let_go(&mut self, number: u64)
        ensures requests { self.new.requests ≡ without number self.old.requests }
        ensures room { self.old.room ≤ self.new.room }
    {
        if let Some(at) = place(self.slots.as_slice(), number) {
            count_out(&mut self.waiting, &self.slots[at]);
            set_at(&mut self.slots, at, HeldSlot::LetGo { number });
            self.count_gone();
        }
    }

    /// The request of a number waits for something else.
    pub fn restand(&mut self, number: u64, stand: Stand)
        ensures requests { self.new.requests ≡ map (restood number (stand_of stand)) self.old.requests }
        ensures room { self.new.room ≡ self.old.room }
    {
        restand_in(self.slots.as_mut_slice(), &mut self.waiting, number, stand);
    }

    /// Each request of a server is to be closed, since the server restarted in the event with this number.
    pub fn end_all(&mut self, server: u32, event: u64)
        ensures requests { self.new.requests ≡ map (ended server event) self.old.requests }
        ensures room { self.new.room ≡ self.old.room }
    {
        end_each(self.slots.as_mut_slice(), server, event);
        count_none(&mut self.waiting, server);
    }

    /// The same, where these are the numbers of all that the server holds. No other number is looked at.
    pub fn end_among(&mut self, server: u32, event: u64, numbers: &[u64])
        requires { NumbersAll server numbers.now self.old.requests }
        ensures requests { self.new.requests ≡ map (ended server event) self.old.requests }
        ensures room { self.new.room ≡ self.old.room }
    {
        end_among(self.slots.as_mut_slice(), server, event, numbers);
        count_none(&mut self.waiting, server);
    }
}
