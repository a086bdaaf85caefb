//! Maximum matchings between the clauses of a part and their variables, and what alternating walks
//! reach (Hopcroft and Karp 1973, Kullmann 2003).
#![tactic(auto)]

mod augmenting;
mod exchange;
mod laws;
mod matching;
mod mates;
mod pairs;
mod paths;
mod rarest;
mod search;
mod steps;
mod visits;
mod walk;

pub use augmenting::{Start, augment};
pub use laws::cover_law;
pub use matching::{Matching, maximum};
pub use pairs::Pairs;
pub use steps::Steps;
pub use walk::{Reached, reach};
