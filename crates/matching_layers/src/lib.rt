//! The state of a search by layers for augmenting paths (Hopcroft and Karp 1973).
#![tactic(auto)]

mod search;

pub use search::Search;
