//! What holds of a whole run, over cluster_rules: what a script does to a cluster of servers line by line, the
//! moves that lead to a cluster that serves connections and what its marks tell, how long a read waits and how
//! fresh it is.
//!
//! Consul, HTTP API: "Blocking Queries", "Consistency Modes".
//!
//! # What is proved
//!
//! Over each script of lines, events, deliveries and losses on 1 to 7 servers whose stores began empty, however its
//! lines end: the marks lead from the start to the end; each server has applied a front of one agreed log, which is
//! well formed, has each request at most once, and at whose prefixes indexes tell answers apart; each reply is
//! legal where it is made, shows what that log holds, and lasts; each request has one reply or closing, or is still
//! held and truly waits; the entry of a write that was answered that its leadership was lost is never agreed. The
//! record `WholeRun` of a run names them. In every run in which memory sufficed a read is answered with an index
//! above the one given, or once its full wait is over by the clock of the server that held it, counted from when it
//! was asked; a consistent read shows no less than what was agreed when it was asked, any other no less than what
//! its server had applied then. Elections, requests, ticks of servers' and of agents' clocks, deliveries with their
//! losses and takings of replies lead a cluster that serves to one that serves, whatever its stores held; so its
//! books hold, and no request of it is closed. Where its stores were empty or such as an earlier run left, all laws
//! of runs hold of it: each server has applied a front of one agreed log, which is well formed and, where the
//! stores were empty, has each request at most once, and at whose prefixes indexes tell answers apart. Carried by:
//! `laws::*`, `serving_laws::*`.
#![tactic(auto)]

pub mod laws;
mod misfit;
pub mod serving_laws;

pub use misfit::Misfit;
