//! Tests of the program's one call, of what no row can say: wrong words, a source and a sink that fail, servers to which
//! no connection comes, scripts past a limit, and the numbers of a report. There is no code beside them.
#![tactic(auto)]

#[cfg(test)]
mod endings;
#[cfg(test)]
mod plays;
#[cfg(test)]
mod reports;
