//! The lines of a formula inside a text, both ways.
#![tactic(auto)]

mod reading;
mod writing;

pub use reading::{has_sizes, is_problem, take_clause};
pub use writing::{put_formula, put_size_line};
