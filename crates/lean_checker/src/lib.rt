//! Checks a document against a formula. It stands on no reducer.
#![tactic(auto)]

mod checking;
mod common;
mod extend;
mod general;
mod protected;
mod shared;
mod unfinished;
mod verdict;

pub use checking::check;
pub use extend::check_extend;
pub use verdict::{Verdict, VerdictText, put_verdict};
