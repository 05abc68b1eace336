//! Tests of the outside of a server, in memory and over the machine, and of the lock that gives turns. There is no code
//! beside them.
#![tactic(auto)]

#[cfg(test)]
mod bells;
#[cfg(test)]
mod clients;
#[cfg(test)]
mod echo;
#[cfg(test)]
mod keepers;
#[cfg(test)]
mod links;
#[cfg(test)]
mod machine;
#[cfg(test)]
mod starts;
#[cfg(test)]
mod turns;
