//! Tests of the table of keys and of lock delays, of what no case of the catalog says. There is no code beside them.
#![tactic(auto)]

#[cfg(test)]
mod delays;
#[cfg(test)]
mod load;
