//! Runs over the stores that an earlier run left, and who leads in a cluster that serves: `laws` says what a later run
//! has of the earlier one, and `leader` that server 1 leads and nobody else.
//!
//! # What is proved
//!
//! The agreed logs of a run and of one over the stores that it left are fronts of one log; a write that the earlier
//! run acknowledged stands at its position in the later one's agreed log once that is so long; a ready leader of
//! the later run has committed, and where nothing is due applied, all that the earlier run agreed. Carried by:
//! `laws::*`.
//!
//! In a cluster that serves over durable stores that fail no call, none of which holds a higher term than server 1's,
//! nobody halts and nobody but server 1 ever stands for election or leads; once it leads it leads for ever, in the
//! same term, and requests find it from each server that has heard of it. No request is refused because a server
//! halted or lost its leadership. Empty stores are such, and so are those that such a cluster leaves. Over empty
//! stores server 1 is elected: once nothing is on its way any more it leads, and requests find it from each server
//! then and for ever after, where every event was whole and nothing was done behind its timeout but deliveries, each
//! followed by that message's loss; and there are such runs. Then and for ever after it is ready: it has committed an
//! entry of its own term, and where nothing is due there it has applied one; and no request is refused because it is
//! not. Over stores that were kept server 1 is elected in the same way, if its own store has the highest term and a log
//! that is as up to date as every other, and its term can still rise; empty stores are such, and so are those that a
//! cluster leaves that served over such ones. Carried by: `leader::*`.
#![tactic(auto)]

pub mod laws;
pub mod leader;
