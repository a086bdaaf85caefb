//! Results for groups of positions that share no variable, joined.
#![tactic(auto)]

mod general;
mod laws;
mod listed;
mod matching;
mod ordering;
mod rounds;

pub use general::join_general;
pub use laws::{joined_general_law, joined_matching_law};
pub use matching::join_matching;
