//! The JSON bodies of requests, read: those of Consul's HTTP API version 1.
//!
//! # What is proved
//!
//! What a body of JSON asks for is exactly the definitions' value, or the first of its faults in the order of the
//! tables; a name is compared without ASCII case and null is absent; a duration is read exactly where the text is
//! one. Carried by: `duration`, `read_register`, `read_deregister`, `read_session`, `read_transaction`,
//! `read_query`, `read_agent_service`, `read_agent_check`, `read_check_update`.
#![tactic(auto)]

mod agent_check;
mod agent_service;
mod deregister;
mod durations;
mod error;
mod field;
mod ids;
mod member;
mod query;
mod register;
mod session;
mod status;
mod txn;

pub use agent_check::{CheckUpdate, read_agent_check, read_check_update};
pub use agent_service::read_agent_service;
pub use deregister::read_deregister;
pub use durations::duration;
pub use error::ReadError;
pub use field::Field;
pub use query::{NewQuery, read_query};
pub use register::read_register;
pub use session::{NewSession, read_session};
pub use txn::read_transaction;
