//! How many of the held requests wait for an index at each server, kept as they come and go.

ghost use Rattle.std.specs.Prelude.{◌≡◌, ◌≢◌, ◌+◌, ◌<◌, ◌≤◌, ◌^◌, ℕ, IfSome, List, filter, length, map, slice_index_or};
ghost use Rattle.cluster_rules.specs.Cluster.{Pending};
ghost use Rattle.cluster_rules.specs.Due.{waiting};
ghost use Rattle.cluster_rules.specs.Step.{ended};
ghost use Rattle.cluster_requests.specs.Counts.{AreCounts, Joins, counted, slot_waits};
ghost use Rattle.cluster_requests.specs.Held.{held_in};

use crate::slot::HeldSlot;

/// It is counted for the servers whose number is below this. Those of a cluster are numbered from 1 to 7.
pub const COUNTED: usize = 8;

/// What is counted for a server, if it is among those for which it is.
pub fn count_of(counts: &[usize], server: u32) -> Option<usize>
    ensures { IfSome result (λ count. (server < length counts.now) × (count ≡ slice_index_or counts.now server 0)) }
{
    let at = server as usize;
    if at < counts.len() {
        Some(counts[at])
    } else {
        None
    }
}

// One more waits at a server.
fn add_one(counts: &mut [usize], server: u32)
    requires { server < length counts.old → slice_index_or counts.old server 0 + 1 < 2 ^ 64 }
    ensures len { length counts.new ≡ length counts.old }
    ensures there { server < length counts.old → slice_index_or counts.new server 0 ≡ slice_index_or counts.old server 0 + 1 }
    ensures others { (i : ℕ) → i ≢ server → slice_index_or counts.new i 0 ≡ slice_index_or counts.old i 0 }
{
    let at = server as usize;
    if at < counts.len() {
        counts[at] += 1;
    }
}

// One less waits at a server.
fn take_one(counts: &mut [usize], server: u32)
    requires { server < length counts.old → 0 < slice_index_or counts.old server 0 }
    ensures len { length counts.new ≡ length counts.old }
    ensures there { server < length counts.old → slice_index_or counts.new server 0 + 1 ≡ slice_index_or counts.old server 0 }
    ensures others { (i : ℕ) → i ≢ server → slice_index_or counts.new i 0 ≡ slice_index_or counts.old i 0 }
{
    let at = server as usize;
    if at < counts.len() {
        counts[at] -= 1;
    }
}

/// The request of a slot joins those that are counted, if it waits.
pub fn count_in(counts: &mut [usize], slot: &HeldSlot)
    requires { (i : ℕ) → i < length counts.old → slice_index_or counts.old i 0 + counted i slot.now < 2 ^ 64 }
    ensures { Joins slot.now counts.old counts.new }
{
    if let Some(server) = slot.waits_at() {
        add_one(counts, server);
    }
}

/// The request of a slot leaves those that are counted, if it waits.
pub fn count_out(counts: &mut [usize], slot: &HeldSlot)
    requires { (i : ℕ) → i < length counts.old → counted i slot.now ≤ slice_index_or counts.old i 0 }
    ensures { Joins slot.now counts.new counts.old }
{
    if let Some(server) = slot.waits_at() {
        take_one(counts, server);
    }
}

/// None of a server's requests waits any more, since each is to be closed.
pub fn count_none(counts: &mut [usize], server: u32)
    ensures { (held : List Pending) (event : ℕ) → AreCounts counts.old held → AreCounts counts.new (map (ended server event) held) }
{
    let at = server as usize;
    if at < counts.len() {
        counts[at] = 0;
    }
}

// The request of a slot waits at a server.
fn waits_there(server: u32, slot: &HeldSlot) -> bool
    ensures { result ≡ slot_waits server slot.now }
{
    slot.waits_at() == Some(server)
}

// How many do.
fn count_there(server: u32, slots: &[HeldSlot]) -> usize
    ensures { result ≡ length (filter (slot_waits server) slots.now) }
{
    slots.iter().filter(|s| waits_there(server, s)).count()
}

/// How many of the requests in these slots wait at a server, one for which it is not counted.
#[tactic(auto, using(crate::proofs::Counting::waiting_slots))]
pub fn count_slots(server: u32, slots: &[HeldSlot]) -> usize
    ensures { result ≡ waiting server (held_in slots.now) }
{
    count_there(server, slots)
}
