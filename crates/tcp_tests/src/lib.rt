//! Tests of the program's one call over TCP and threads: clients at once and one after another, those that send in pieces
//! or go away. There is no code beside them.
#![tactic(auto)]

#[cfg(test)]
mod crowds;
#[cfg(test)]
mod servers;
