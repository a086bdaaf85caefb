//! Minimally unsatisfiable cores.
#![tactic(auto)]

mod by_parts;
mod flags;
mod mus;
mod rotation;
mod search;
mod shrinking;
mod told_core;
mod witnesses;

pub use mus::Mus;
pub use search::minimal;
