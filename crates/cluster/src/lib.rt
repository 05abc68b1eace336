//! The cluster of several servers: what they are asked, and what each event makes of them.
//!
//! # What is proved
//!
//! It begins over any stores within the limits of a log, with what each holds, or hands all back, and says that one
//! failed only where the count of one rose (`start`). An event fits exactly by the rules (`fits`). Each event that
//! fits is a step of `cluster_rules`, whole, or it changed nothing, or it was cut short where memory ran out and
//! its server is behind (`step`, `ask`); a settling makes just its pairs (`settle`). In each of them the queries
//! that are evaluated are at most the reads that are answered, those that were still to be looked for and are no
//! more, one where the event itself asks for a read, and one where memory lacks (clauses `counted`). What is taken
//! of a request is its own reply or closing, else what it waits for, else nothing (`collect`, `next_out`). The
//! agreed log, the applied lengths, the unanswered requests and the count of events are those of the rules'
//! cluster; what happens takes no memory and no time to mark. For that each single work is proved: a request goes
//! to the server to which the rules send it, or is refused with the rules' reason; a write is held where its
//! proposal was entered, and refused as the rules say where it was not; once its position is applied it is answered
//! with what the catalog machine answers there; one that locks a key is refused exactly where the key's lock delay
//! is not over; a renewal begins the session's TTL anew in the leader's office; in the second act of a tick a
//! leading server proposes the ends of just the sessions that are over, in their order, and then a reap where one
//! is due; an agent does its own part, and its sync proposes its plan in order. Carried by: clauses of `Cluster`,
//! which is `Parts` of `cluster_order` and a `ClusterInterface`.
#![tactic(auto)]

mod acts;
mod agent_parts;
mod cluster;
mod delays;
mod front;
mod handlers;
mod idle_events;
mod misfits;
mod parts;
mod probes;
mod proposals;
mod remote_rows;
mod renewals;
mod start;
mod steps;
mod syncs;
mod takings;
mod ticks;
mod turns;
mod uncounted;

pub use cluster::Cluster;
