//! The room for calls that take no memory.

ghost use Rattle.std.specs.Prelude.{◌≡◌, ◌≤◌, OnOk, vec_len, vec_capacity};
ghost use Rattle.std.specs.VecDeque.{deque_len, deque_capacity};
ghost use Rattle.cluster_requests.specs.Requests.{HasRoom};

use crate::held::HeldRequests;
use crate::out::Out;
use cat_model::Memory;
use std::collections::VecDeque;

/// Takes the room for so many calls.
pub fn reserve(
    held: &mut HeldRequests,
    fresh: &mut Vec<Out>,
    tray: &mut VecDeque<Out>,
    room: u64,
) -> Result<(), Memory>
    ensures held { (held.new.requests ≡ held.old.requests) × (held.old.room ≤ held.new.room) }
    ensures fresh { (fresh.new.items ≡ fresh.old.items) × (vec_len fresh.new ≡ vec_len fresh.old) × (vec_capacity fresh.old ≤ vec_capacity fresh.new) }
    ensures tray { (tray.new.items ≡ tray.old.items) × (deque_len tray.new ≡ deque_len tray.old) × (deque_capacity tray.old ≤ deque_capacity tray.new) }
    ensures room { OnOk result (HasRoom room held.new.room (vec_len fresh.new) (vec_capacity fresh.new) (deque_len tray.new) (deque_capacity tray.new)) }
{
    let waiting = fresh.len().checked_add(room as usize).ok_or(Memory)?;
    held.reserve(room as usize)?;
    fresh.reserve(room as usize)?;
    tray.reserve(waiting)?;
    Ok(())
}
