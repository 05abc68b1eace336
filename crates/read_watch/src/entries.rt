//! A read begins to sleep.

ghost use Rattle.std.specs.Prelude.{◌≡◌, ◌≢◌, ◌<◌, ◌≤◌, ℕ, Some, None, true, length, if◌then◌else◌};
ghost use Rattle.std.specs.Ordering.{nat_cmp};
ghost use Rattle.std.specs.Map.{lookup, remove_entry};
ghost use Rattle.std.specs.BTreeMap.{is_at, insert_entry};
ghost use Rattle.read_watch.specs.Watch.{AreNumbers};

use crate::registry::WatchRegistry;
use cat_model::{Chan, List};
use std::alloc::Global;
use timer_wheel::TimerWheel;

/// How many reads may sleep at a server.
const MOST: usize = 4_096;

/// Adds a read whose timer is set to the registry, and tells whether there was memory. Else its timer is taken out.
fn hang(
    alloc: Global,
    registry: &mut WatchRegistry,
    timers: &mut TimerWheel,
    number: u64,
    chans: &List<Chan>,
) -> bool
    requires fresh { lookup (is_at (nat_cmp number)) registry.old ≡ None }
    requires few { length registry.old < 4096 }
    requires two { length chans.now ≤ 2 }
    ensures hangs { registry.new ≡ (if result then insert_entry nat_cmp registry.old number chans.now else registry.old) }
    ensures timers { timers.new ≡ (if result then timers.old else remove_entry (is_at (nat_cmp number)) timers.old) }
{
    match registry.register(alloc, number, chans) {
        Ok(_) => true,
        Err(_) => {
            timers.cancel(u128::from(number));
            false
        }
    }
}

/// Adds a read with its channels and its deadline, and tells whether it did: there may be no memory, or as many sleep as
/// may.
pub fn enter(
    alloc: Global,
    registry: &mut WatchRegistry,
    timers: &mut TimerWheel,
    number: u64,
    chans: &List<Chan>,
    deadline: u64,
) -> bool
    requires fresh { lookup (is_at (nat_cmp number)) registry.old ≡ None }
    requires two { length chans.now ≤ 2 }
    requires numbers { AreNumbers timers.old }
    ensures hangs { registry.new ≡ (if result then insert_entry nat_cmp registry.old number chans.now else registry.old) }
    ensures until { result ≡ true → lookup (is_at (nat_cmp number)) timers.new ≡ Some deadline }
    ensures others { (n : ℕ) → n ≢ number → lookup (is_at (nat_cmp n)) timers.new ≡ lookup (is_at (nat_cmp n)) timers.old }
    ensures numbers { AreNumbers timers.new }
{
    if registry.len() >= MOST || timers.len() >= MOST {
        return false;
    }
    match timers.set(u128::from(number), deadline) {
        Ok(_) => hang(alloc, registry, timers, number, chans),
        Err(_) => false,
    }
}
