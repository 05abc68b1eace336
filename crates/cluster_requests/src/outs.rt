//! The outs of an event, and those that wait to be taken.

ghost use Rattle.std.specs.Prelude.{◌≡◌, ◌+◌, ◌<◌, ◌≤◌, List, [], ◌∷◌, ◌++◌, filter, is_some, length, vec_len, vec_capacity};
ghost use Rattle.std.specs.List.{insert, position, position_or_len};
ghost use Rattle.std.specs.VecDeque.{deque_len, deque_capacity};
ghost use Rattle.cluster_rules.specs.Replies.{Out as OutValue, number_of};
ghost use Rattle.cluster_rules.specs.Due.{is_before, put_out};
ghost use Rattle.cluster_requests.specs.Ordered.{IsOrdered};
ghost use Rattle.cluster_requests.specs.Taking.{is_of};

use crate::out::Out;
use std::collections::VecDeque;

// Replies and closings come in ascending number, then the syncs.
fn is_before(first: Option<u64>, second: Option<u64>) -> bool
    ensures { result ≡ is_before first second }
{
    match (first, second) {
        (None, _) => false,
        (Some(_), None) => true,
        (Some(a), Some(b)) => a < b,
    }
}

// How many outs stand before one of this number.
fn place(fresh: &[Out], number: Option<u64>) -> usize
    requires { IsOrdered fresh.now }
    ensures place { result ≡ position_or_len (λ o. is_before number (number_of o)) fresh.now }
    ensures within { result ≤ length fresh.now }
{
    fresh.partition_point(|o| !is_before(number, o.number()))
}

// Puts an item at a place. There is room for it. This is of any type, so that its proof has no parts of one.
fn insert_at<T: Drop>(items: &mut Vec<T>, at: usize, item: T)
    requires place { at ≤ vec_len items.old }
    requires room { vec_len items.old < vec_capacity items.old }
    ensures items { items.new.items ≡ insert items.old.items at item }
    ensures len { vec_len items.new ≡ vec_len items.old + 1 }
    ensures capacity { vec_capacity items.old ≤ vec_capacity items.new }
{
    let Ok(()) = items.insert(at, item) else {
        unreachable!()
    };
}

/// Puts an out in its place among those of the event. There is room for it, so that it takes no memory.
pub fn put(fresh: &mut Vec<Out>, out: Out)
    requires room { vec_len fresh.old < vec_capacity fresh.old }
    requires ordered { IsOrdered fresh.old.items }
    ensures items { fresh.new.items ≡ put_out out fresh.old.items }
    ensures ordered { IsOrdered fresh.new.items }
    ensures len { vec_len fresh.new ≡ vec_len fresh.old + 1 }
    ensures capacity { vec_capacity fresh.old ≤ vec_capacity fresh.new }
{
    let at = place(fresh, out.number());
    insert_at(fresh, at, out);
}

/// Takes back the last of the outs of an event.
#[tactic(auto, using(crate::proofs::LastOut::but_last))]
pub fn take_back(fresh: &mut Vec<Out>)
    requires some { 0 < vec_len fresh.old }
    requires ordered { IsOrdered fresh.old.items }
    ensures items { (outs : List OutValue) (out : OutValue) → fresh.old.items ≡ outs ++ out ∷ [] → fresh.new.items ≡ outs }
    ensures ordered { IsOrdered fresh.new.items }
    ensures len { vec_len fresh.new + 1 ≡ vec_len fresh.old }
    ensures capacity { vec_capacity fresh.old ≤ vec_capacity fresh.new }
{
    drop(fresh.pop());
}

/// Puts the outs of an event into the tray. There is room for them, so that it takes no memory.
pub fn shelve(tray: &mut VecDeque<Out>, fresh: &mut Vec<Out>)
    requires { deque_len tray.old + vec_len fresh.old ≤ deque_capacity tray.old }
    ensures items { tray.new.items ≡ tray.old.items ++ fresh.old.items }
    ensures len { deque_len tray.new ≡ deque_len tray.old + vec_len fresh.old }
    ensures capacity { deque_capacity tray.new ≡ deque_capacity tray.old }
    ensures none { fresh.new.items ≡ [] }
    ensures left { (vec_len fresh.new ≡ 0) × (vec_capacity fresh.new ≡ vec_capacity fresh.old) }
{
    fresh.reverse();
    while let Some(out) = fresh.pop() {
        tray.push_back_reserved(out);
    }
}

/// Lets go of the outs of syncs. It takes no memory.
pub fn drop_syncs(tray: &mut VecDeque<Out>)
    ensures items { tray.new.items ≡ filter (λ o. is_some (number_of o)) tray.old.items }
    ensures fewer { deque_len tray.new ≤ deque_len tray.old }
    ensures capacity { deque_capacity tray.new ≡ deque_capacity tray.old }
{
    tray.retain(|out| out.number().is_some());
}

/// Where the out of a request stands.
pub fn find(tray: &VecDeque<Out>, number: u64) -> Option<usize>
    ensures { result ≡ position (λ o. is_of number o) tray.now.items }
{
    tray.iter().position(|out| out.is_of(number))
}
