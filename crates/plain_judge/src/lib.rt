//! Whether answers on formulas are right, by plain programs that know nothing of how they were found.
#![tactic(auto)]

mod assignments;
mod chains;
mod rounds;

pub use assignments::{MOST_VARS, has_model, is_model};
pub use chains::{clause_at, is_named};
pub use rounds::{learns, lie_in, refutes, stand};
