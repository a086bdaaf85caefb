//! The kernel of the class general in a part of a formula, by rounds of refutations.
#![tactic(auto)]

mod blocking;
mod general;
mod near;
mod rounds;
mod setting;

pub use general::{general_kernel, general_kernel_by_lists, set_of};
pub use setting::literals_on;
