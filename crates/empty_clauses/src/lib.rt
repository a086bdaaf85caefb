//! Empty clauses, each of which is a core by itself.
#![tactic(auto)]

mod empty_clause;

pub use empty_clause::{empty_core, empty_round, first_empty};
