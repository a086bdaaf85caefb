//! Where the literals of a formula occur.
#![tactic(auto)]

mod counting;
mod filling;
mod lists;

pub use lists::OccurrenceLists;
