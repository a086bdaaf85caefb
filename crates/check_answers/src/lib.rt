//! The checks of answers to the question whether a formula has a model.
#![tactic(auto)]

mod checking;
mod clauses;
mod core_checking;
mod laws;
mod witnesses;

pub use checking::check_answer;
pub use laws::answer_law;
