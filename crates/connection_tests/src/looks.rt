//! How often a read that waits looks.

use connection_runs::{Steps, is_answered};
use stale_view::Opened;
use std::marker::Brand;
use std::sync::Arc;
use std::test::Fail;

#[test]
fn a_read_that_waits_looks_twice(rt: HostRuntime) -> Result<(), Fail> {
    let alloc = rt.alloc();
    let steps = Arc::new(alloc, Steps::new())?;
    let answered = is_answered::<Brand, _>(rt, alloc, Opened::new(), &steps);
    let waits = steps.waits();
    drop(steps);
    assert!(rt; answered? && waits == 2, "it waited {waits} times");
    Ok(())
}
