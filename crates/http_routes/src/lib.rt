//! Requests as HTTP brings them: the routes of Consul's HTTP API version 1, with the parameters of their paths and queries.
//!
//! # What is proved
//!
//! A request is what the table of routes says of its method, target and body, or the first of its faults in the
//! order of `docs/API.md`; its filter is just that of its target, on the six routes that read one, and what reads
//! as none is refused by name. Carried by: `route`.
#![tactic(auto)]

mod agent;
mod body;
mod catalog;
mod checks;
mod error;
mod filters;
mod health;
mod kv;
pub mod laws;
mod method;
mod params;
mod query;
mod route_requests;
mod router;
mod session;
mod table;
mod target;
mod thread_safety;

pub use error::{Allow, Parameter, RouteError};
pub use route_requests::{Routed, Routes, route};
pub use thread_safety::routes_cross;
