//! The plain values of the catalog: its rows, commands, queries, requests and replies, and in `specs/` the
//! definitions that speak of them.
//!
//! # What is proved
//!
//! The laws of the catalog machine, for all seventeen commands and all sixteen queries: the index law, the covering law
//! of channels, the lock law, key order, one spelling for each command, what a view of tables gives, the sync law. A
//! list made of lists has just the items that the test or the function says, in their order. Carried by: `laws::*`,
//! `spelling_laws::*`, the functions of `lists`.
#![tactic(auto)]

mod applied;
mod bounds;
mod bytes;
mod command;
mod comparisons;
mod fired;
mod kept;
mod kv_rows;
pub mod laws;
mod list;
pub mod lists;
mod memory;
mod query;
mod reply;
mod request;
mod row;
mod shared;
pub mod spelling_laws;
mod steps;
mod text;

pub use applied::{Applied, Refuse, TxnResult};
pub use bytes::Bytes;
pub use command::{Command, Entry, NewCheck, NewService, TxnOp, Verb};
pub use fired::{Fired, Freed, Local, Remote};
pub use kept::Kept;
pub use kv_rows::KvRows;
pub use list::{List, Texts};
pub use memory::Memory;
pub use query::{Answer, Chan, CheckView, Instance, NameTags, Query, Ran};
pub use reply::{Form, Held, Kind, Mark, Out, Refusal, Reply, Role};
pub use request::{AgentOp, Asked, Draw, Event, Mode, Request, ServiceDef, TtlDef};
pub use row::{Behavior, CheckRow, KvRow, NodeRow, QueryRow, ServiceRow, SessionRow, Status};
pub use shared::Shared;
pub use steps::Steps;
pub use text::Text;
