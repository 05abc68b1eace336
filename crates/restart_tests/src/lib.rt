//! Tests of servers over what earlier ones left, in a folder and in files in memory, of which some answer questions of
//! names. There is no code beside them.
#![tactic(auto)]

#[cfg(test)]
mod names;
#[cfg(test)]
mod restarts;
#[cfg(test)]
mod served;
