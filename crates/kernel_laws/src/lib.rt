//! Laws over the definitions alone that hold of every class: kernels, lean sets, and what makes a reduction.
#![tactic(auto)]

mod laws;

pub use laws::{empty_law, kernel_law, one_kernel};
