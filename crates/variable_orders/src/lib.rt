//! Orders of the variables of crossed clauses.
#![tactic(auto)]

mod coming;
mod connection;
mod numbers;
mod occurrences;
mod points;

pub use connection::by_connection;
pub use numbers::ascending;
pub use occurrences::by_occurrences;
