//! What a cluster of 1 to 7 servers does with an event, over raft_model's world: in `specs/` the cluster's step,
//! what is due at a server, what a server decides by its own clock, what an agent does with what it is asked and
//! with the time, when a reply is legal and what stays true, and in `laws` what holds of every run.
//!
//! # What is proved
//!
//! Over each run of 1 to 7 servers, whatever is lost, repeated, restarted, cut short where memory ran out or failed
//! by a store: each reply is legal where it is made and lasts; an acknowledged write stands at its position in
//! every later agreed log, and one answered that leadership was lost in none; no request is lost or answered twice,
//! and none is taken that was not asked, whatever the stores held at the beginning; what is held truly waits; the
//! marks lead from the start to the end; a lock is proposed only once its delay is over, and a session's end for no
//! request only once twice its TTL is over; consistent executions are as fresh as consistent reads; no reply shows
//! nothing. What a server notes agrees with lock delays and with the TTLs of its sessions, operation by operation.
//! An agent's own check of its node is never changed, dropped or doubled. These are laws of definitions; the
//! contract of `run` says that the program's steps are those of the definitions. Carried by: `laws::*`.
#![tactic(auto)]

pub mod laws;
