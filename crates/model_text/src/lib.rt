//! The texts of models, both ways.
#![tactic(auto)]

mod printing;
mod progress;
mod reader;
mod reading;

pub use printing::print_model;
pub use reader::{ModelReader, read_model};
