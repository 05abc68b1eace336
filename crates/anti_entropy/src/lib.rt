//! The sync of an agent: the plan of the commands that make the catalog's rows of its node equal to its own, and the tags
//! that it takes over from the catalog. Rows of both stand in order, and are gone over once, side by side.
//!
//! # What is proved
//!
//! The plan of a sync is the one of the definitions, command by command, and taking tags over changes just the tags
//! of services that allow it; a sync as a whole plans over what the agent has then. Carried by: `plan_rows`.
#![tactic(auto)]

mod checks;
mod commands;
mod differences;
mod ordered;
mod plan;
mod same;
mod services;
mod tags;

pub use plan::{RowPlan, plan_rows};
