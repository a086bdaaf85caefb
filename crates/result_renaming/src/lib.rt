//! What is found in a formula, in the numbers of a formula that it is a part of.
#![tactic(auto)]

mod renaming;

pub use renaming::{Renaming, nth, positions_at};
