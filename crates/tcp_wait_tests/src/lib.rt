//! Tests of the program's one call over TCP and threads, of what takes time: requests that wait, stale reads, and the
//! clocks of agents. There is no code beside them.
#![tactic(auto)]

#[cfg(test)]
mod clocks;
#[cfg(test)]
mod stale;
#[cfg(test)]
mod waits;
