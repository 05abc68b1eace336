//! Runs of the program's one call for tests of it: over an outside in memory, and over TCP and threads. What a run does is
//! said by the contract of that call.
#![tactic(auto)]

mod memory;
mod tcp;

pub use memory::{MemOutside, Ran, run_in_memory};
pub use tcp::{
    FOUND, NOT_FOUND, ask, between, connect, free_port, hear, hears, serve, serve_words,
};
