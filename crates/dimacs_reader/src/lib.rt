//! Reads formulas from their DIMACS texts.
#![tactic(auto)]

mod bytes;
mod clauses;
mod head;
mod numbers;
mod problem;
mod reader;
mod reading;
mod refusal;
mod stop;
mod word;

pub use reader::Reader;
pub use refusal::Refused;
