//! Reads that sleep no more leave the registry and the wheel.

ghost use Rattle.std.specs.Prelude.{◌≡◌, ◌<◌, ◌^◌, ℕ, true, false, None, filter, not, nat_le, IfOk, OnErr, OnOk};
ghost use Rattle.std.specs.List.{AllByRecursion};
ghost use Rattle.std.specs.Ordering.{nat_cmp};
ghost use Rattle.std.specs.Map.{lookup};
ghost use Rattle.std.specs.BTreeMap.{is_at};
ghost use Rattle.timer_wheel.specs.Dues.{AreDue};
ghost use Rattle.read_watch.specs.Watch.{AreNumbers, is_among};

use crate::registry::WatchRegistry;
use cat_model::{List, Memory};
use std::alloc::Global;
use timer_wheel::TimerWheel;

/// Takes the timers of these numbers out.
pub fn cancel_each(timers: &mut TimerWheel, numbers: &[u64])
    ensures others { (n : ℕ) → is_among n numbers.now ≡ false → lookup (is_at (nat_cmp n)) timers.new ≡ lookup (is_at (nat_cmp n)) timers.old }
    ensures numbers { AreNumbers timers.old → AreNumbers timers.new }
{
    for number in numbers {
        timers.cancel(u128::from(*number));
    }
}

/// Takes these numbers out of the registry.
pub fn remove_each(registry: &mut WatchRegistry, numbers: &[u64])
    ensures others { (n : ℕ) → is_among n numbers.now ≡ false → lookup (is_at (nat_cmp n)) registry.new ≡ lookup (is_at (nat_cmp n)) registry.old }
    ensures gone { (n : ℕ) → is_among n numbers.now ≡ true → lookup (is_at (nat_cmp n)) registry.new ≡ None }
{
    for number in numbers {
        registry.remove(*number);
    }
}

/// The keys of timers as numbers of requests.
fn numbers_of(alloc: Global, keys: &[u128]) -> Result<List<u64>, Memory>
    requires { AllByRecursion (λ k. k < 2 ^ 64) keys.now }
    ensures { IfOk result (λ l. l ≡ keys.now) }
{
    let mut numbers = List::new(alloc);
    for key in keys {
        numbers.push(*key as u64)?;
    }
    Ok(numbers)
}

/// Takes the timers out whose time is over, and gives their numbers. Some may have gone also after lack of memory.
pub fn take_due(alloc: Global, timers: &mut TimerWheel, clock: u64) -> Result<List<u64>, Memory>
    requires { AreNumbers timers.old }
    ensures due { IfOk result (λ l. AreDue timers.old clock l) }
    ensures left { OnOk result (timers.new ≡ filter (λ t. not (nat_le t.1 clock)) timers.old) }
    ensures numbers { AreNumbers timers.new }
{
    let keys = timers.due(alloc, clock)?;
    numbers_of(alloc, keys.as_slice())
}
