//! The texts of rounds of refutations, both ways.
#![tactic(auto)]

mod chain_lists;
mod print_rounds;
mod read_rounds;

pub use print_rounds::{put_round, put_rounds};
pub use read_rounds::{RoundsPart, all_rounds, fresh_rounds, take_rounds};
