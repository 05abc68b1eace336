//! The outside of a server, as traits that tell what their calls did: connections and what gives them, jobs beside the
//! caller, drawn words, durable stores of servers, a clock, and bells that end a wait. Each is there in memory, and over the machine.
//!
//! # What is proved
//!
//! Each call of a connection adds to what was read or written just the bytes that it says, and to its counts just
//! what it says; each connection has the number that its listener then reached, and is not shut; what was handed
//! back is told in order; a job's result keeps what the job promised, and a job is handed back only where the count
//! of faults rose; the draws of drawn words are those of the seeded generator, in order; a durable store is made
//! empty, with no call that is to fail, and is not made only where the count of faults rose or memory lacked.
//! Carried by: the traits `Link`, `Listener`, `Spawner`, `Words`, `Keepers`; `start`, `finish`.
#![tactic(auto)]

mod awaited;
mod bells;
mod job;
mod keepers;
mod linger;
mod link;
mod machine;
mod mem_link;
mod mem_listener;
mod pace;
mod spawner;
mod starts;
mod tcp_link;
mod tcp_listener;
mod traffic;
mod words;

pub use awaited::{Awaited, Limits};
pub use bells::Bells;
pub use job::{Job, NoteOf, Task};
pub use keepers::{Folder, Keepers, MadeStore, MemKeepers, SureKeepers};
pub use link::{Link, Listener};
pub use machine::{MachineClock, SeededWords};
pub use mem_link::{MemLink, Script};
pub use mem_listener::MemListener;
pub use pace::{Clock, Gate, SetClock};
pub use spawner::{Spawner, finish, start, start_beside};
pub use starts::{MemSpawner, ThreadSpawner};
pub use tcp_link::TcpLink;
pub use tcp_listener::TcpLinks;
pub use words::{CountWords, Words};
