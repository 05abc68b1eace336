//! The bytes of a server's journal, as a trait that counts its faults: they outlive the process, more are put behind
//! them and the last are cut off. There are journals in memory, and one in a file, which syncs what it answers Ok to.
//!
//! # What is proved
//!
//! A journal's call fails only where its count of faults rose. Where it tells its bytes, an append that answered Ok
//! stands behind them, and one that failed left a front of its piece; one in memory fails exactly where it is told
//! to. One in a file answers Ok to an append or a cut only once a sync of the file has found it so, and it keeps to
//! its bytes whatever fails. Carried by: the traits `Journal` and `Disk`, `DiskJournal`, and the types in memory.
#![tactic(auto)]

mod disk;
mod disk_journal;
mod file_journal;
mod journal;
mod mem_journal;

pub use disk::Disk;
pub use disk_journal::DiskJournal;
pub use file_journal::{DiskFile, FileJournal, open_file_journal};
pub use journal::Journal;
pub use mem_journal::{MemJournal, SureJournal};
