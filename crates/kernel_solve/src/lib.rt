//! Whether a formula has a model, by the parts of its matching kernel.
#![tactic(auto)]

mod deciding;
mod kernel_parts;
mod laws;
mod model;
mod solving;

pub use laws::{solve_model_law, solve_refutation_law};
pub use solving::solve;
