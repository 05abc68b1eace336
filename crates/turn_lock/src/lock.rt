ghost use Rattle.std.specs.Prelude.{◌≡◌, ℕ, ◌<◌, ◌≤◌, ◌-◌, ◌++◌, [], ◌∷◌, length, drop, Some, None, IfOk, IfErr, OnErr};

use crate::history::History;
use crate::knowledge::Knowledge;
use crate::plays::{AwaitTurn, DrawTicket, JoinPasses, Leave, SplitPass, Turns};
use crate::rooms::WaitingRooms;
use atomic_table::{Refused, Seat, Table};
use std::alloc::{AllocError, AllocFailed, Global};
use std::hint::spin_loop;
use std::snapshot::Snapshot;
use std::sync::Wait;

/// The pass has a single share, and none to give.
#[derive(Debug, Clone, Copy, PartialEq, Eq)]
pub struct NoShare;

/// The words of the lock's table: how many tickets were drawn, and which ticket is served.
const DRAWN: usize = 0;

const SERVED: usize = 1;

/// The slot of the lock's table in which the state lies while nobody has the turn.
const STATE: usize = 0;

/// How often a waiter whose call is the next one looks before he sleeps. All looks together take some microseconds.
const LOOKS: u32 = 200;

/// The most shares that one pass gives to another.
const MOST_GIVEN: u64 = 1 << 32;

/// A lock over a state with a list that only grows. The turn goes round in the order of the tickets that were drawn.
#[derive(Drop)]
pub struct HistoryLock<S: History> {
    pub table: Table<Option<S>, Knowledge<S::Item>, Snapshot<S>, Turns, Global>,
    rooms: WaitingRooms,
    ghost sized: { (table.shared.table_id.words ≡ 2) × (table.shared.table_id.slots ≡ 1) },
}

/// What a thread needs to take turns: a seat at the lock's table, with all that the thread knows of the history.
#[derive(Drop)]
pub struct Pass<S: History> {
    pub seat: Seat<Option<S>, Knowledge<S::Item>>,
    shares: u64,
    ghost owned: { shares ≤ seat.me.0.shares },
    ghost some: { 0 < shares },
}

/// The state, lent to the pass that has the turn. It cannot be let go: only `give` ends a turn.
pub struct Turn<S: History> {
    pub(crate) state: S,
    /// The pass as it took the turn, by which `give` knows that the turn is its own.
    pub taken: Snapshot<Seat<Option<S>, Knowledge<S::Item>>>,
}

impl<S: History> Pass<S> {
    /// Its shares, which splitting halves.
    pub fn shares(&self) -> u64
        ensures { result ≡ self.now.shares }
    {
        self.shares
    }
}

impl<S: History> HistoryLock<S> {
    ghost use Rattle.turn_lock.specs.Lists.{numbers, AreFronts, Extends, OpensAll, OpensOnly};
    ghost use Rattle.turn_lock.specs.Rule.{all_shares, given, pooled, waiting, having, both};
    ghost use Rattle.turn_lock.specs.Passes.{IsSame, IsFree, HasTurn, MayEnd};

    /// A lock over the state, and the pass that all others are split from. It has seen the state's list, and the numbers
    /// that are open in it are its own.
    pub fn new(alloc: Global, state: S) -> Result<(HistoryLock<S>, Pass<S>), (S, AllocError)>
        ensures own { IfOk result (λ r. (r.1.seat.table_id ≡ r.0.table.shared.table_id) × IsFree r.1.seat) }
        ensures knows { IfOk result (λ r. (r.1.seat.me.0.seen ≡ S.items state) × (r.1.seat.me.0.mine ≡ numbers S.opens (S.items state)) × (r.1.seat.me.0.told ≡ [])) }
        ensures shares { IfOk result (λ r. r.1.shares ≡ all_shares) }
        ensures no_memory { IfErr result (λ r. r.0 ≡ state) }
    {
        let Ok(rooms) = WaitingRooms::new(alloc) else {
            return Err((state, AllocError));
        };
        let begun = Snapshot::of(&state);
        let mut slots = Vec::new(alloc);
        if let Err(failed) = slots.push(Some(state)) {
            let AllocFailed { value } = failed;
            slots.destroy_empty();
            return Err((in_slot(value), AllocError));
        }
        match Table::new(alloc, &[0, 0], slots, &begun) {
            Ok((table, seat)) => Ok((
                HistoryLock { table, rooms },
                Pass {
                    seat,
                    shares: 1 << 63,
                },
            )),
            Err(Refused { slots }) => Err((in_only_slot(slots), AllocError)),
        }
    }

    // Draws a ticket, waits until it is served, and takes the state out of its slot. Of the waiting no pass learns anything.
    fn wait_turn<R: Wait>(&self, rt: &R, seat: &mut Seat<Option<S>, Knowledge<S::Item>>) -> S
        requires own { seat.old.table_id ≡ self.now.table.shared.table_id }
        requires free { IsFree seat.old × (0 < seat.old.me.0.shares) }
        ensures own { IsSame seat.old seat.new }
        ensures turn { (t : ℕ) × (seat.new.me ≡ (having (waiting seat.old.me.0 t) (S.items result), (0, None) ∷ [])) }
        ensures grown { Extends S.opens S.takes seat.old.me.0.mine seat.old.me.0.seen (S.items result) }
        ensures told { AreFronts seat.old.me.0.told (S.items result) }
        ensures opened { OpensAll S.opens seat.old.me.0.mine (S.items result) }
        ensures whole { all_shares ≤ seat.old.me.0.shares → OpensOnly S.opens seat.old.me.0.mine (S.items result) }
    {
        let shared = &self.table.shared;
        let ticket = shared.fetch_add::<DrawTicket>(seat, DRAWN, 1);
        for _ in rt.forever() {
            if shared.load::<AwaitTurn>(seat, SERVED) == ticket {
                match shared.exchange(seat, STATE, None) {
                    Some(state) => return state,
                    None => unreachable!(),
                }
            }
            self.wait_for_call(rt, ticket);
        }
        unreachable!()
    }

    // Waits until the ticket may be called: asleep in its room, and, where its call is the next, awake for a while. It may
    // return before the call, so whoever calls it looks again.
    //
    // Nobody sleeps through his call. `give` first calls a ticket, by adding to the word, and then looks whether anybody
    // is in the ticket's room. Whoever waits first enters the room, and then looks at the word. All these steps come in
    // one order. So his look finds the call, and he does not sleep, or his entering comes before the call, and `give`
    // finds that he is in the room and wakes it: a wake also ends a sleep that was announced and has not begun. The call
    // does not pass him by: the word stays at his ticket until he gives the turn back. No ticket is given up, since
    // `take` returns with the turn or not at all; behind a turn that is never given back all wait for ever.
    //
    // A call wakes its own room and the next ticket's, so that whoever comes next is awake when his turn comes. In a room
    // are those alone whose tickets leave the same rest, so of 1,024 that wait in a row a call wakes at most two.
    fn wait_for_call<R: Wait>(&self, rt: &R, ticket: u64) {
        for _ in 0..LOOKS {
            match ticket.wrapping_sub(self.served()) {
                0 => return,
                1 => spin_loop(),
                _ => break,
            }
        }
        let key = self.rooms.enter(ticket);
        if self.served() == ticket {
            drop(key);
        } else {
            key.wait(rt);
        }
    }

    // The ticket that is served. No pass learns anything by it.
    fn served(&self) -> u64 {
        self.table.shared.peek(SERVED)
    }

    // Wakes whoever has this ticket, which was called before, and whoever has the next one.
    fn wake(&self, ticket: u64) {
        self.rooms.wake(ticket);
        self.rooms.wake(ticket.wrapping_add(1));
    }

    /// Waits for the turn. The state's list goes on from all that the pass has seen, and what was added since neither
    /// opens nor takes a number that the pass opened. It begins with all that passes had seen that were put into this one.
    /// The pass has then seen the whole list. The numbers that the pass opened are open in it; and where the pass has all
    /// shares, no others are.
    pub fn take<R: Wait>(&self, rt: &R, pass: &mut Pass<S>) -> Turn<S>
        requires own { pass.old.seat.table_id ≡ self.now.table.shared.table_id }
        requires free { IsFree pass.old.seat }
        ensures own { IsSame pass.old.seat pass.new.seat × (pass.new.shares ≡ pass.old.shares) }
        ensures turn { HasTurn pass.new.seat × (result.taken.value ≡ pass.new.seat) }
        ensures seen { pass.new.seat.me.0.seen ≡ S.items result.state }
        ensures mine { (pass.new.seat.me.0.mine ≡ pass.old.seat.me.0.mine) × (pass.new.seat.me.0.told ≡ pass.old.seat.me.0.told) }
        ensures grown { Extends S.opens S.takes pass.old.seat.me.0.mine pass.old.seat.me.0.seen (S.items result.state) }
        ensures told { AreFronts pass.old.seat.me.0.told (S.items result.state) }
        ensures opened { OpensAll S.opens pass.old.seat.me.0.mine (S.items result.state) }
        ensures whole { all_shares ≤ pass.old.shares → OpensOnly S.opens pass.old.seat.me.0.mine (S.items result.state) }
    {
        let state = self.wait_turn(rt, &mut pass.seat);
        Turn {
            state,
            taken: Snapshot::of(&pass.seat),
        }
    }

    /// Gives the turn back, and wakes whoever waits for it. The numbers that were opened in it are then the
    /// pass's own.
    pub fn give(&self, turn: Turn<S>, pass: &mut Pass<S>)
        requires own { pass.old.seat.table_id ≡ self.now.table.shared.table_id }
        requires taken { HasTurn pass.old.seat × (turn.taken.value ≡ pass.old.seat) }
        requires may { MayEnd S.opens S.takes pass.old.seat.me.0.seen pass.old.seat.me.0.mine (S.items turn.state) }
        ensures own { IsSame pass.old.seat pass.new.seat × (pass.new.shares ≡ pass.old.shares) }
        ensures free { IsFree pass.new.seat }
        ensures seen { pass.new.seat.me.0.seen ≡ S.items turn.state }
        ensures mine { pass.new.seat.me.0.mine ≡ pass.old.seat.me.0.mine ++ numbers S.opens (drop (length pass.old.seat.me.0.seen) (S.items turn.state)) }
        ensures told { pass.new.seat.me.0.told ≡ pass.old.seat.me.0.told }
    {
        let Turn { state, taken: _ } = turn;
        let shared = &self.table.shared;
        let before = shared.exchange(&mut pass.seat, STATE, Some(state));
        let None = before else { unreachable!() };
        let served = shared.fetch_add::<Leave>(&mut pass.seat, SERVED, 1);
        self.wake(served.wrapping_add(1));
    }

    /// A new pass, which has seen as much as this one and opened no number. Half of the shares are given to it, though
    /// at most 2^32. It is refused where there is a single share.
    pub fn split(&self, pass: &mut Pass<S>) -> Result<Pass<S>, NoShare>
        requires own { pass.old.seat.table_id ≡ self.now.table.shared.table_id }
        requires free { IsFree pass.old.seat }
        ensures own { IsSame pass.old.seat pass.new.seat × IsFree pass.new.seat }
        ensures same { (pass.new.seat.me.0.seen ≡ pass.old.seat.me.0.seen) × (pass.new.seat.me.0.mine ≡ pass.old.seat.me.0.mine) × (pass.new.seat.me.0.told ≡ pass.old.seat.me.0.told) }
        ensures new { IfOk result (λ p. (p.seat.table_id ≡ self.now.table.shared.table_id) × IsFree p.seat) }
        ensures knows { IfOk result (λ p. (p.seat.me.0.seen ≡ pass.old.seat.me.0.seen) × (p.seat.me.0.mine ≡ []) × (p.seat.me.0.told ≡ [])) }
        ensures shares { IfOk result (λ p. (p.shares ≡ given pass.old.shares) × (pass.new.shares ≡ pass.old.shares - p.shares)) }
        ensures refused { OnErr result ((pass.old.shares < 2) × (pass.new.shares ≡ pass.old.shares)) }
    {
        let given = (pass.shares / 2).min(MOST_GIVEN);
        if given == 0 {
            return Err(NoShare);
        }
        let Pass { seat, shares } = pass;
        let new = self.table.shared.split_seat::<SplitPass>(seat);
        *shares -= given;
        Ok(Pass {
            seat: new,
            shares: given,
        })
    }

    /// Puts another pass into this one, which has then seen what either had, has the numbers and shares of both, and
    /// knows what the other had seen.
    pub fn join(&self, pass: &mut Pass<S>, other: Pass<S>)
        requires own { (pass.old.seat.table_id ≡ self.now.table.shared.table_id) × (other.seat.table_id ≡ self.now.table.shared.table_id) }
        requires free { IsFree pass.old.seat × IsFree other.seat }
        ensures own { IsSame pass.old.seat pass.new.seat × IsFree pass.new.seat }
        ensures seen { pass.new.seat.me.0.seen ≡ (both pass.old.seat.me.0 other.seat.me.0).seen }
        ensures mine { pass.new.seat.me.0.mine ≡ pass.old.seat.me.0.mine ++ other.seat.me.0.mine }
        ensures told { pass.new.seat.me.0.told ≡ other.seat.me.0.seen ∷ (pass.old.seat.me.0.told ++ other.seat.me.0.told) }
        ensures shares { pass.new.shares ≡ pooled pass.old.shares other.shares }
    {
        let Pass {
            seat: theirs,
            shares: more,
        } = other;
        let Pass { seat, shares } = pass;
        self.table.shared.join_seat::<JoinPasses>(seat, theirs);
        *shares = shares.saturating_add(more);
    }
}

// The state of a slot that has one.
fn in_slot<S>(slot: Option<S>) -> S
    requires { (x : S) × (slot ≡ Some x) }
    ensures { slot ≡ Some result }
{
    match slot {
        Some(state) => state,
        None => unreachable!(),
    }
}

// The state of the only slot.
fn in_only_slot<S>(mut slots: Vec<Option<S>>) -> S
    requires { (x : S) × (slots.items ≡ Some x ∷ []) }
    ensures { slots.items ≡ Some result ∷ [] }
{
    let Some(slot) = slots.pop() else {
        unreachable!()
    };
    slots.destroy_empty();
    in_slot(slot)
}
