//! Refutations by unit propagation alone, one after another, at the cost of what changes between them.
#![tactic(auto)]

mod agenda;
mod around;
mod chain;
mod containing;
mod looking;
mod pending;
mod trail;
mod units;

pub use around::Around;
pub use units::{UnitRefutation, Units};
