//! Tests of the lock delays of keys.

use applied_state::LockDelay;
use cat_model::Text;
use std::process::Abort;
use std::test::*;

// The greatest end of each key counts, whatever the order in which its delays began.
#[test]
fn the_later_end_counts(rt: HostRuntime) -> Result<(), Fail> {
    let mut delays = LockDelay::new(rt.alloc())?;
    assert_eq!(rt; delays.until("k"), 0);
    delays.started(Text::new(rt.alloc(), "k")?, 100, 15_000)?;
    delays.started(Text::new(rt.alloc(), "l")?, 7, 0)?;
    delays.started(Text::new(rt.alloc(), "k")?, 9_000, 1_000)?;
    assert_eq!(rt; delays.until("k"), 15_100);
    assert_eq!(rt; delays.until("l"), 7);
    assert_eq!(rt; delays.until("m"), 0);
    delays.started(Text::new(rt.alloc(), "k")?, 15_000, 101)?;
    assert_eq!(rt; delays.until("k"), 15_101);
    Ok(())
}
