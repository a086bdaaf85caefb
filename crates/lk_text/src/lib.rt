//! Numbers, words and lines of texts.
#![tactic(auto)]

mod cuts;
mod numbers;

pub use cuts::{Cut, next_line, next_word};
pub use numbers::{NumberWord, classify, put_i128, read_natural, read_plain};
