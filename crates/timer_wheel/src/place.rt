//! Where timers stand.

use std::collections::BTreeMap;

/// How many slots a wheel has.
pub const SLOTS: u64 = 65_536;

/// The node and the time of a timer.
#[derive(Clone, Copy, Debug, Drop)]
pub struct Place {
    pub node: u32,
    pub at: u64,
}

/// The places of the timers by their keys.
pub type Places = BTreeMap<u128, Place>;
