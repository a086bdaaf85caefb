//! Clauses of a formula, copied under numbers of their own, and what is found in the copy, stated in the formula's
//! numbers.
#![tactic(auto)]

mod copies;
mod matchings;

pub use copies::{OpenRound, PartCopy};
