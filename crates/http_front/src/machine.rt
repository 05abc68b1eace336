use serve_outside::{Clock, Gate};
use std::alloc::Global;

/// What a server has of the machine. Its threads have copies of the clock, and share the gate.
#[derive(Drop)]
pub struct Machine<R, Cl, G> {
    pub rt: R,
    pub alloc: Global,
    pub clock: Cl,
    pub gate: G,
}
