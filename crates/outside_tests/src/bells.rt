//! Bells that end a wait.

use serve_outside::{Bells, Clock, Gate, MachineClock};
use std::alloc::Global;
use std::sync::Wait;
use std::test::Fail;
use std::thread::{Threads, join};
use std::time;

// More than any test waits for.
const LONG_MS: u64 = 30_000;

// For how many milliseconds the request of that number waits, which was woken so often before.
fn waited<R: time::Clock + Copy>(
    rt: R,
    gate: &impl Gate,
    number: u64,
    rings: u64,
    most: u64,
) -> u64 {
    let clock = MachineClock::new(rt);
    gate.idle(number, rings, most);
    clock.now_ms()
}

// For how many milliseconds a request waits that another thread wakes meanwhile.
fn woken_meanwhile<R: Threads + Wait + time::Clock + Copy + Sync>(
    rt: R,
    gate: &(impl Gate + Sync),
) -> u64 {
    let rings = gate.rings(7);
    let (passed, ()) = join(
        &rt,
        || waited(rt, gate, 7, rings, LONG_MS),
        || {
            gate.idle(8, gate.rings(8), 100);
            gate.wake(7);
        },
    );
    passed
}

#[test]
fn a_wait_ends_by_itself(rt: HostRuntime) -> Result<(), Fail> {
    let bells = Bells::new(rt, rt.alloc())?;
    let rings = bells.rings(7);
    let passed = waited(rt, &bells, 7, rings, 20);
    drop(bells);
    assert!(rt; passed < 10_000, "it waited {passed} ms");
    Ok(())
}

#[test]
fn a_wake_ends_a_wait(rt: HostRuntime) -> Result<(), Fail> {
    let bells = Bells::new(rt, rt.alloc())?;
    let passed = woken_meanwhile(rt, &bells);
    drop(bells);
    assert!(rt; passed < 10_000, "it waited {passed} ms");
    Ok(())
}

#[test]
fn a_wake_before_the_wait_ends_it(rt: HostRuntime) -> Result<(), Fail> {
    let bells = Bells::new(rt, rt.alloc())?;
    let rings = bells.rings(7);
    bells.wake(7);
    let passed = waited(rt, &bells, 7, rings, LONG_MS);
    drop(bells);
    assert!(rt; passed < 10_000, "it waited {passed} ms");
    Ok(())
}

// Whether a request counts its wakes, and not those of the next number.
fn counts_its_own(gate: &impl Gate) -> bool {
    let rings = gate.rings(7);
    gate.wake(8);
    let still = gate.rings(7);
    gate.wake(7);
    still == rings && gate.rings(7) != rings
}

#[test]
fn each_number_has_its_own_bell(rt: HostRuntime) -> Result<(), Fail> {
    let bells = Bells::new(rt, rt.alloc())?;
    let counts = counts_its_own(&bells);
    drop(bells);
    assert!(rt; counts);
    Ok(())
}
