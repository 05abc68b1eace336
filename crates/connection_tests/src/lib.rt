//! Tests of one connection by a clock and a gate of the test's own. There is no code beside them.
#![tactic(auto)]

#[cfg(test)]
mod looks;
