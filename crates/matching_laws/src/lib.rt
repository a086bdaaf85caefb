//! Laws of the class matching: what the checks of a matching document show, and what the matching reducer
//! finds.
#![tactic(auto)]

mod laws;

pub use laws::{matching_law, matching_result_law};
