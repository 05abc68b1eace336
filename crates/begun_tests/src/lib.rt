//! Tests of clusters that begin over stores that hold something. There is no code beside them.
#![tactic(auto)]

#[cfg(test)]
mod begun;
#[cfg(test)]
mod requests;
#[cfg(test)]
mod stores;
