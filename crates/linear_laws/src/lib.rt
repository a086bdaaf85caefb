//! The law of the class linear: what the checks of a linear document show.
#![tactic(auto)]

mod laws;

pub use laws::linear_law;
