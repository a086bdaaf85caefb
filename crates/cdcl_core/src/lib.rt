//! Clause learning: whether clauses have a model.
#![tactic(auto)]

mod activity;
mod analysis;
mod decided;
mod luby;
mod minimizing;
mod order;
mod players;
mod schedule;
mod search;
mod signs;

pub use decided::{Outcome, decide, decide_by};
pub use schedule::{By, Schedule, decide_by_schedule};
pub use signs::Signs;
