//! Laws of clause learning: trails, chains back along them, and what a solver that learns holds at each step.
#![tactic(auto)]

mod laws;

pub use laws::{chain_law, model_law, place_law, quiet_law, solve_law, trail_law, walk_law};
