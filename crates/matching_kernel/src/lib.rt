//! The matching kernel of a part of a formula, with owners and rows (Kullmann 2003), and what owners make true.
#![tactic(auto)]

mod kernel;
mod laws;
mod set_line;

pub use kernel::matching_kernel;
pub use laws::kernel_reached_law;
pub use set_line::set_of_own;
