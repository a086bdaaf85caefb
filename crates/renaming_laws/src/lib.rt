//! The law that a part of a formula may be worked on under numbers of its own.
#![tactic(auto)]

mod laws;

pub use laws::{crossed_copy_law, renaming_law};
