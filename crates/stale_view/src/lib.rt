//! Views of the catalog that are read without waiting: one publisher shows them a log that only grows, and each viewer
//! answers queries at a beginning of it that never grows shorter.
//!
//! # What is proved
//!
//! A publisher takes the commands of a log, in their order and leaving out none, and after a call that found memory
//! viewers see all of it; after running out of memory they see what they saw, and the next call goes on. What a
//! viewer reads begins all that it reads later. An answer, its index and its prefix are those of the catalog at
//! just the list that the viewer has then read, and a read is one evaluation at most and waits for nobody. Where
//! all readers are taken it says so, and nothing has happened. A viewer that learns has read just what its
//! publisher shows; one that is split off has read nothing. Carried by: clauses of `Publisher`, `Viewer`,
//! `stale_pair`.
#![tactic(auto)]

mod history;
mod names;
mod pair;
mod publisher;
mod readers;
mod rule;
mod side;
mod thread_safety;
mod viewer;

pub use history::{Front, Opened};
pub use names::PairName;
pub use pair::stale_pair;
pub use publisher::Publisher;
pub use thread_safety::{parts_cross, publishers_send, viewers_send};
pub use viewer::{Unseen, Viewed, Viewer};
