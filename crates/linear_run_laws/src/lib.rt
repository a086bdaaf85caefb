//! Laws of the linear run: its stages, its moves, and the document of a run that ends done.
#![tactic(auto)]

mod laws;

pub use laws::{linear_run_law, moves_law, stage_law};
