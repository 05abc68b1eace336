//! The nodes, services and checks of the catalog, and what a registration or its undoing changes of them.
//!
//! A registration changes rows of one node alone, and mostly few of them. So what it changed is told from the rows that
//! went and came, and the node's other services are looked at only where its own row or a check of it alone did. The
//! checks of one service are found by an index, as those of one status and the services of one name are.
//!
//! # What is proved
//!
//! Registering and deregistering is the machine's step; it tells exactly which tables differ, which service names'
//! reads differ and which vanished, each once; a refusal comes exactly by the machine's rule. Carried by: clauses
//! of `CatalogTable`.
#![tactic(auto)]

mod changed;
mod checks;
mod copies;
mod deregister;
mod fault;
pub mod laws;
mod named;
mod names;
mod once;
mod register;
mod same;
mod served;
mod services;
mod set;
mod stated;
mod table;
mod touched;
mod walks;

pub use changed::Changed;
pub use fault::RegisterFault;
pub use table::CatalogTable;
