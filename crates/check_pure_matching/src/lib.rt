//! The checks of the lines of a document of the classes pure and matching.
#![tactic(auto)]

mod matching;
mod order;
mod pairs;

pub use matching::{bad_owner, bad_row};
pub use order::bad_order;
pub use pairs::bad_pair;
