//! The durable stores of a server's servers: in memory, or each in a file of a folder.
//!
//! # What is proved
//!
//! Without a folder a store is empty and fails nowhere. With one it holds what stands in the file of its server,
//! wherever the files tell their bytes. A folder with a file of a server above so many is refused, and one without
//! the server's file in which another has kept something; the first refusal is told, with its reason, and a store
//! that has failed is counted. A store whose log is watched is to its caller what it is unwatched; which fill of a
//! log is told follows from its entries and bytes, each fill once. Carried by: `HostKeepers` (`make`, `close`,
//! `refusal`), the trait `JournalFiles`, `WatchedKeepers`, `Gauge`.
#![tactic(auto)]

mod faults;
mod files;
mod folder;
mod gauge;
mod host_keeper;
mod host_keepers;
mod mem_files;
mod scan;
mod stores;
mod tally;
mod watched;

pub use faults::{Fault, Refusal};
pub use files::{HostFiles, JournalFiles};
pub use host_keeper::HostKeeper;
pub use host_keepers::HostKeepers;
pub use mem_files::MemFiles;
pub use watched::{WatchedKeeper, WatchedKeepers};
