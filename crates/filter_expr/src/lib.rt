//! Filter expressions: read from a text for elements of one shape, and tested on the JSON objects of elements.
//!
//! # What is proved
//!
//! A text of at most 4,096 bytes and 64 levels is read as just the expression that the grammar of `docs/FILTERS.md`
//! gives it, and is refused exactly where that gives none; a filter keeps a row exactly where its expression holds
//! of the row's JSON object. Carried by: `parse`, `Filter::keeps`, `grammar_law`.
#![tactic(auto)]

mod expression;
mod fault;
mod laws;
mod lexer;
mod members;
mod parser;
mod predicates;
mod selectors;
mod tests_of;

pub use expression::{Filter, Literal, Test};
pub use fault::FilterFault;
pub use laws::grammar_law;
pub use members::{Element, Listed, Member};
pub use parser::parse;
pub use selectors::{NodeMember, Selector, ServiceMember, Shape, TopMember};
