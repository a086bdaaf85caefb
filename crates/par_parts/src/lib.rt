//! The parts of a formula, and groups of them.
#![tactic(auto)]

mod gathering;
mod grouping;
mod search;

pub use gathering::{parts, parts_by_lists};
pub use grouping::part_groups;
pub use par_halves::{Gate, all_ok, map_halves};
