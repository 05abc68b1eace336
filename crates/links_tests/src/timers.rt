//! The wheel of timers: what is due, in which order, and how fast.

use cat_model::Memory;
use std::alloc::Global;
use std::test::Fail;
use timer_wheel::TimerWheel;

/// How many timers a wheel can have.
const MOST: usize = 1_048_576;

/// How many timers are set at once.
const MANY: u64 = 400_000;

/// One timer that is set twice, two of one time, two a round of the wheel after others, and one far ahead.
const TIMERS: [(u128, u64); 6] = [
    (5, 9),
    (2, 65_546),
    (9, 10),
    (7, 10),
    (5, 65_540),
    (1, 1_000_000_000_000),
];

/// Sets a timer, if there is a place for one.
fn set(wheel: &mut TimerWheel, key: u128, at: u64) -> Result<(), Memory> {
    if wheel.len() < MOST {
        wheel.set(key, at)?;
    }
    Ok(())
}

fn some_timers(alloc: Global) -> Result<TimerWheel, Memory> {
    let mut wheel = TimerWheel::new(alloc)?;
    for (key, at) in TIMERS {
        set(&mut wheel, key, at)?;
    }
    Ok(wheel)
}

/// Whether just these keys are due.
fn is_due(
    alloc: Global,
    wheel: &mut TimerWheel,
    now: u64,
    wanted: &[u128],
) -> Result<bool, Memory> {
    let keys = wheel.due(alloc, now)?;
    Ok(keys.as_slice() == wanted)
}

/// At how many of these times just the keys beside them are due, one call after the other.
fn right_along(
    alloc: Global,
    wheel: &mut TimerWheel,
    wanted: &[(u64, &[u128])],
) -> Result<u64, Memory> {
    let mut right = 0u64;
    for (now, keys) in wanted {
        let due = is_due(alloc, wheel, *now, keys)?;
        right = right.saturating_add(u64::from(due));
    }
    Ok(right)
}

#[test]
fn each_timer_is_due_at_its_time(rt: HostRuntime) -> Result<(), Fail> {
    let alloc = rt.alloc();
    let mut wheel = some_timers(alloc)?;
    let wanted: [(u64, &[u128]); 6] = [
        (9, &[]),
        (10, &[7, 9]),
        (10, &[]),
        (65_545, &[5]),
        (65_546, &[2]),
        (u64::MAX, &[1]),
    ];
    assert_eq!(rt; right_along(alloc, &mut wheel, &wanted)?, 6);
    Ok(())
}

#[test]
fn timers_that_are_found_due_stay(rt: HostRuntime) -> Result<(), Fail> {
    let alloc = rt.alloc();
    let mut wheel = some_timers(alloc)?;
    let found = wheel.find_due(alloc, 65_539)?;
    let same = found.as_slice() == [7, 9].as_slice();
    assert!(rt; same);
    let due = is_due(alloc, &mut wheel, 65_546, &[7, 9, 5, 2])?;
    assert!(rt; due);
    Ok(())
}

#[test]
fn timers_are_due_by_time_and_then_by_key(rt: HostRuntime) -> Result<(), Fail> {
    let alloc = rt.alloc();
    let mut wheel = some_timers(alloc)?;
    let due = is_due(alloc, &mut wheel, u64::MAX, &[7, 9, 5, 2, 1])?;
    assert!(rt; due);
    Ok(())
}

#[test]
fn a_timer_is_cancelled_once(rt: HostRuntime) -> Result<(), Fail> {
    let alloc = rt.alloc();
    let mut wheel = some_timers(alloc)?;
    assert_eq!(rt;
        [wheel.cancel(7), wheel.cancel(7), wheel.cancel(8)],
        [true, false, false]
    );
    let due = is_due(alloc, &mut wheel, 65_546, &[9, 5, 2])?;
    assert!(rt; due);
    Ok(())
}

/// A timer for each time from 0 on, with the time as its key.
fn many(alloc: Global) -> Result<TimerWheel, Memory> {
    let mut wheel = TimerWheel::new(alloc)?;
    for at in 0..MANY {
        set(&mut wheel, u128::from(at), at)?;
    }
    Ok(wheel)
}

/// At how many of the times just the timer of that time is due.
fn due_one_by_one(alloc: Global, wheel: &mut TimerWheel) -> Result<u64, Memory> {
    let mut right = 0u64;
    for now in 0..MANY {
        let due = is_due(alloc, wheel, now, &[u128::from(now)])?;
        right = right.saturating_add(u64::from(due));
    }
    Ok(right)
}

#[test]
fn many_timers_are_due_one_by_one(rt: HostRuntime) -> Result<(), Fail> {
    let alloc = rt.alloc();
    let mut wheel = many(alloc)?;
    assert_eq!(rt; wheel.len(), 400_000);
    assert_eq!(rt; due_one_by_one(alloc, &mut wheel)?, 400_000);
    assert_eq!(rt; wheel.len(), 0);
    Ok(())
}
