//! The pure kernel of a formula.
#![tactic(auto)]

mod counts;
mod kernel;
mod least_first;
mod pairs;
mod run;

pub use kernel::pure_kernel;
