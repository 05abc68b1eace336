//! A connection that is served by a clock that goes on by a step whenever a request waits, for tests of what it then does.
#![tactic(auto)]

mod steps;

pub use steps::{Steps, is_answered};
