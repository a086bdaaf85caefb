//! Kernels of whole formulas, found by parts in halves.
#![tactic(auto)]

mod copied;
mod general;
mod laws;
mod matching;

pub use copied::matching_of_part;
pub use general::general_by_parts;
pub use laws::made_law;
pub use matching::matching_by_parts;
