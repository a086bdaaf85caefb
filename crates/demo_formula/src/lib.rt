//! A large formula that is made from a number.
#![tactic(auto)]

mod draw;
mod formula;

pub use formula::demo_formula;
