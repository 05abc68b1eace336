//! A lock whose turns come in the order of their tickets, each over a state with a list that only grows. Whoever gets
//! the turn finds all that he had seen of the list, and nobody else took the numbers that he opened in it.
//!
//! # What is proved
//!
//! Of a state whose list only grows: each turn's list extends all that its pass has seen, and what lies between
//! opens and takes none of the pass's numbers; a turn may be given back only with a list that extends the one
//! taken, opens no number twice, and takes only the pass's own; a split pass has seen as much and opened nothing, a
//! joined one has seen and opened what both had, and each later turn's list begins with all that those had seen
//! that were joined; a split is refused only where fewer than two shares are left. Carried by: clauses of
//! `HistoryLock`.
#![tactic(auto)]

mod history;
mod knowledge;
mod lock;
mod plays;
mod rooms;
mod turn;

pub use history::History;
pub use knowledge::Knowledge;
pub use lock::{HistoryLock, NoShare, Pass, Turn};
