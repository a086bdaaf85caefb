//! The checks of the rounds of a document: its steps, what they block, and what they learn.
#![tactic(auto)]

mod blocking;
mod chains;
mod index;
mod learned;
mod repeated;
mod steps;
mod work;

pub use blocking::{blocks_of, not_blocked};
pub use chains::{bad_step, misstated_step};
pub use learned::not_learned;
