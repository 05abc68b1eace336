//! Tests of the index list and of what stands on it. There is no code beside them.
#![tactic(auto)]

#[cfg(test)]
mod lists;
#[cfg(test)]
mod timers;
#[cfg(test)]
mod watches;
