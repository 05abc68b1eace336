//! The order of an event's work, over whatever holds a cluster: it is marked, its server catches up on what is due, acts,
//! catches up again, and its outs join the tray.
//!
//! # What is proved
//!
//! Over anything that holds a cluster and whose single works and acts are those of the rules: each event, an
//! agent's with its sync too, is a step of `cluster_rules`, whole or cut short where memory ran out; an event that
//! changed nothing leaves no mark; a settling makes just the pairs of delivery and loss that it counts, and stops
//! early only where no message is left; where a single work evaluates no more queries than `specs/Evaluations.antt`
//! says, so does each event. Carried by: the functions of `cluster_order`, the trait `Parts`.
#![tactic(auto)]

mod agent_event;
mod any_event;
mod cut;
mod deliveries;
mod events;
mod impulse;
mod parts;
mod requests;
mod syncs;
mod ticks;
mod turns;

pub use agent_event::AgentEvent;
pub use any_event::make;
pub use cut::Cut;
pub use deliveries::settle;
pub use events::{beat, deliver, fail_keep, lose, restart, timeout};
pub use impulse::Impulse;
pub use parts::{Parts, Way};
pub use requests::ask;
pub use ticks::tick;
pub use turns::make_up;
