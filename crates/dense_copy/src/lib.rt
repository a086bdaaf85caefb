//! The clauses of a part as a formula by itself, whose variables are numbered without a gap.
#![tactic(auto)]

mod dense;
mod names;

pub use dense::dense_formula;
pub use names::{in_order, names_of};
