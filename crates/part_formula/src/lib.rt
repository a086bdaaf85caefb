//! What a search finds in a part of a formula, mostly in a copy of it.
#![tactic(auto)]

mod deciding;
mod kernel;
mod reducing;

pub use deciding::{Decision, Refuted, decide_clauses, decide_part};
pub use kernel::{kernel_of_only_part, kernel_of_part};
pub use reducing::{tested_model, tested_refutation};
