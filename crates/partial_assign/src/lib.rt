//! Partial assignments of the variables from 1 to n.
#![tactic(auto)]

mod assignment;
mod extension;
mod literals;

pub use assignment::Partial;
pub use extension::{compose, extend_total};
pub use literals::assignment_of;
