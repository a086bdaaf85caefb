//! The law on rounds that need each of their steps, within a budget for each part of a formula.
#![tactic(auto)]

mod laws;

pub use laws::round_law;
