//! Timers of the sessions of a server in office, so that it looks only at those whose time may be over.

ghost use Rattle.std.specs.Prelude.{◌≡◌, ◌≢◌, ◌∷◌, [], ℕ, None, Some, true, List, filter, map, nat_le, if◌then◌else◌, IfOk, IfSome};
ghost use Rattle.std.specs.BTreeMap.{insert_entry, is_at};
ghost use Rattle.std.specs.Map.{lookup};
ghost use Rattle.std.specs.Ordering.{nat_cmp};
ghost use Rattle.std.specs.List.Sorted.{IsStrictlySortedBy};
ghost use Rattle.cat_model.specs.Catalog.{session_key};
ghost use Rattle.cat_model.specs.Tables.{Ascends};
ghost use Rattle.cluster_rules.specs.Offices.{is_over, is_pending, over_at, sorted_by};
ghost use Rattle.session_ttl.specs.Endings.{ending_of};
ghost use Rattle.session_ttl.specs.Timed.{AreTimed, AreTimedBut, HasTimer, is_one_of};

use crate::ends::Ending;
use crate::office::Office;
use cat_model::{Memory, SessionRow};
use session_table::SessionTable;
use std::alloc::Global;
use std::collections::BTreeSet;
use std::marker::Model;
use timer_wheel::TimerWheel;

/// How many timers there may be at most.
const MOST_TIMERS: usize = 1_048_576;

/// The timers of the sessions of a server in office, by the sessions' identifiers and in milliseconds of its clock. There
/// are none before its first look in office, and where memory ran out; all sessions are looked at then. A timer may be
/// early, or that of a session which is gone: at its time the session is looked at.
#[derive(Drop)]
pub struct SessionTimers {
    alloc: Global,
    wheel: Option<TimerWheel>,
}

impl Model for SessionTimers {
    ghost use Rattle.std.specs.Prelude.{ℕ, List, Option};

    ghost Value = { Option (List (ℕ × ℕ)) };

    ghost view = { λ t. t.wheel };
}

// The time as a timer has it: times that no clock reaches are the last one.
fn timer_at(time: u128) -> u64
    ensures { result ≡ (if nat_le time u64.MAX then time else u64.MAX) }
{
    if time <= u128::from(u64::MAX) {
        time as u64
    } else {
        u64::MAX
    }
}

// The timers with that of this identifier set to this time, or none where it cannot be set.
fn with_timer(mut wheel: TimerWheel, id: u128, time: u128) -> Option<TimerWheel>
    ensures { IfSome result (λ w. w ≡ insert_entry nat_cmp wheel id (if nat_le time u64.MAX then time else u64.MAX)) }
{
    if wheel.len() >= MOST_TIMERS {
        return None;
    }
    match wheel.set(id, timer_at(time)) {
        Ok(()) => Some(wheel),
        Err(_) => None,
    }
}

// The timers with that of the session set anew, where its end is still to be proposed. Where it was proposed the timer
// is left as it is, if a new one would be due now.
fn timed_row(
    wheel: TimerWheel,
    office: &Office,
    clocks: &[u64],
    row: &SessionRow,
    now: u64,
) -> Option<TimerWheel>
    ensures here { IfSome result (λ w. is_pending office.now row.now ≡ true → HasTimer w row.now.id (over_at clocks.now office.now row.now)) }
    ensures others { IfSome result (λ w. (id : ℕ) → id ≢ row.now.id → lookup (is_at (nat_cmp id)) w ≡ lookup (is_at (nat_cmp id)) wheel) }
{
    if row.ttl_ms == 0 {
        return Some(wheel);
    }
    let over_at = office.over_at(clocks, row);
    if over_at <= u128::from(now) && office.is_ended(row.create) {
        return Some(wheel);
    }
    with_timer(wheel, row.id, over_at)
}

// The timers with that of the session of this identifier set anew, if it is there.
fn timed(
    wheel: TimerWheel,
    office: &Office,
    clocks: &[u64],
    sessions: &SessionTable,
    id: u128,
    now: u64,
) -> Option<TimerWheel>
    ensures { (others : List ℕ) → AreTimedBut (id ∷ others) (Some wheel) clocks.now office.now sessions.now.now → AreTimedBut others result clocks.now office.now sessions.now.now }
{
    match sessions.get(id) {
        None => Some(wheel),
        Some(row) => timed_row(wheel, office, clocks, row, now),
    }
}

// The timers with those of the sessions of these identifiers set anew.
fn timed_each(
    mut wheel: TimerWheel,
    office: &Office,
    clocks: &[u64],
    sessions: &SessionTable,
    ids: &[u128],
    now: u64,
) -> Option<TimerWheel>
    requires { AreTimedBut ids.now (Some wheel) clocks.now office.now sessions.now.now }
    ensures { AreTimed result clocks.now office.now sessions.now.now }
{
    for id in ids {
        wheel = timed(wheel, office, clocks, sessions, *id, now)?;
    }
    Some(wheel)
}

// The identifiers of all sessions.
fn all_ids(alloc: Global, sessions: &SessionTable) -> Result<Vec<u128>, Memory>
    ensures { IfOk result (λ v. v.items ≡ map session_key sessions.now.now) }
{
    let mut ids = Vec::new(alloc);
    for row in sessions.rows() {
        ids.push(row.id)?;
    }
    Ok(ids)
}

// New timers, of all sessions.
fn timed_all(
    alloc: Global,
    office: &Office,
    clocks: &[u64],
    sessions: &SessionTable,
    now: u64,
) -> Option<TimerWheel>
    ensures { AreTimed result clocks.now office.now sessions.now.now }
{
    let ids = all_ids(alloc, sessions).ok()?;
    let wheel = TimerWheel::new(alloc).ok()?;
    timed_each(wheel, office, clocks, sessions, &ids, now)
}

// The timers with those that are due set anew, where their sessions are still there. All stay where memory runs out
// before one is taken out.
fn timed_due(
    alloc: Global,
    mut wheel: TimerWheel,
    office: &Office,
    clocks: &[u64],
    sessions: &SessionTable,
    now: u64,
) -> Option<TimerWheel>
    requires { AreTimed (Some wheel) clocks.now office.now sessions.now.now }
    ensures { AreTimed result clocks.now office.now sessions.now.now }
{
    match wheel.due(alloc, now) {
        Ok(ids) => timed_each(wheel, office, clocks, sessions, &ids, now),
        Err(_) => Some(wheel),
    }
}

// The identifiers of the timers that are due, ascending.
fn due_ids(alloc: Global, wheel: &TimerWheel, now: u64) -> Result<Vec<u128>, Memory>
    ensures ascend { IfOk result (λ v. Ascends nat_cmp (λ (id : ℕ). id) v.items) }
    ensures whole { IfOk result (λ v. (id : ℕ) → HasTimer wheel.now id now → is_one_of id v.items ≡ true) }
{
    let due = match wheel.find_due(alloc, now) {
        Ok(due) => due,
        Err(_) => return Err(Memory),
    };
    ascending(alloc, &due)
}

// These identifiers, ascending, and each once.
fn ascending(alloc: Global, ids: &[u128]) -> Result<Vec<u128>, Memory>
    ensures ascend { IfOk result (λ v. Ascends nat_cmp (λ (id : ℕ). id) v.items) }
    ensures same { IfOk result (λ v. (id : ℕ) → is_one_of id v.items ≡ is_one_of id ids.now) }
{
    let mut set = BTreeSet::new(alloc);
    for id in ids {
        set.insert(*id)?;
    }
    listed(alloc, &set)
}

fn listed(alloc: Global, set: &BTreeSet<u128>) -> Result<Vec<u128>, Memory>
    ensures ordered { IsStrictlySortedBy nat_cmp set.now.keys }
    ensures keys { IfOk result (λ v. v.items ≡ set.now.keys) }
{
    let ids = set.iter().copied().collect(alloc)?;
    Ok(ids)
}

impl SessionTimers {
    /// No timers. Takes no memory.
    pub fn new(alloc: Global) -> SessionTimers
        ensures { result ≡ None }
    {
        SessionTimers { alloc, wheel: None }
    }

    /// From now on there are no timers, until the next look. Takes no memory.
    pub fn stop(&mut self)
        ensures { self.new ≡ None }
    {
        self.wheel = None;
    }

    /// Sets the timer of the session of this identifier anew, where there are timers, it is there and its end is still to
    /// be proposed. Where memory runs out there are no timers from then on.
    pub fn set(
        &mut self,
        office: &Office,
        clocks: &[u64],
        sessions: &SessionTable,
        id: u128,
        now: u64,
    )
        requires { AreTimedBut (id ∷ []) self.old clocks.now office.now sessions.now.now }
        ensures { AreTimed self.new clocks.now office.now sessions.now.now }
    {
        if let Some(wheel) = self.wheel.take() {
            self.wheel = timed(wheel, office, clocks, sessions, id, now);
        }
    }

    /// Sets the timers that are due anew, each at the clock at which the time of its session is over; those of sessions
    /// that are gone are dropped. Where there are no timers it makes them, those of all sessions, if there is memory.
    pub fn look(&mut self, office: &Office, clocks: &[u64], sessions: &SessionTable, now: u64)
        requires { AreTimed self.old clocks.now office.now sessions.now.now }
        ensures { AreTimed self.new clocks.now office.now sessions.now.now }
    {
        self.wheel = match self.wheel.take() {
            None => timed_all(self.alloc, office, clocks, sessions, now),
            Some(wheel) => timed_due(self.alloc, wheel, office, clocks, sessions, now),
        };
    }

    /// The sessions that are over at this clock, and whose ends were not proposed since they were made or renewed: by when
    /// they were, and then by their identifiers. `clocks` holds the server's clock at each position that it applied. With
    /// timers only those sessions are looked at whose timers are due.
    pub fn over(
        &self,
        alloc: Global,
        office: &Office,
        clocks: &[u64],
        sessions: &SessionTable,
        now: u64,
    ) -> Result<Vec<Ending>, Memory>
        requires order { Ascends nat_cmp session_key sessions.now.now }
        requires timed { AreTimed self.now clocks.now office.now sessions.now.now }
        ensures { IfOk result (λ v. v.items ≡ map ending_of (sorted_by (over_at clocks.now office.now) (filter (is_over clocks.now office.now now) sessions.now.now))) }
    {
        match &self.wheel {
            None => office.over(alloc, clocks, sessions, now),
            Some(wheel) => {
                let ids = due_ids(alloc, wheel, now)?;
                office.over_among(alloc, clocks, sessions, &ids, now)
            }
        }
    }
}
