//! Services and checks by their keys, the name of their node and their ID, in lists that are in the order of these, and
//! two such lists side by side.
#![tactic(auto)]

mod checks;
mod keys;
mod order;
mod seen;
mod services;
mod sides;
mod tags;
mod views;

pub use checks::find_check;
pub use keys::{compare, compare_pairs, is_blank, is_same};
pub use order::{find_row, found, in_order, place, place_in_room};
pub use seen::all_seen;
pub use services::find_service;
pub use sides::{Pair, Sides, side_by_side};
pub use tags::{Retag, retag_all};
pub use views::{CatalogRows, OwnRows};
