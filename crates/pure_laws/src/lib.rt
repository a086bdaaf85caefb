//! Laws of the class pure: what the checks of a pure document show, and what the pure reducer finds.
#![tactic(auto)]

mod laws;

pub use laws::{pure_law, pure_result_law};
