//! Lists that are made of lists, joined, copied and compared, with the items told by functions.

mod comparisons;
mod copies;
mod joins;
mod maps;

pub use comparisons::all_same;
pub use copies::{copied, copy_if_any, copy_of};
pub use joins::{around, joined, one, two};
pub use maps::{chosen, gathered, kept, made};
