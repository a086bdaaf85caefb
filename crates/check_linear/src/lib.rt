//! The checks of the lines of a linear document.
#![tactic(auto)]

mod linear;
mod number_list;
mod units;

pub use linear::{bad_balance, bad_dual, bad_sign, bad_stage};
pub use units::bad_unit;
