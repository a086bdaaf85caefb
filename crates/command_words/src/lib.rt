//! What the words of the command line ask for.
#![tactic(auto)]

mod command;
mod key;
mod options;
mod range;
mod shape;
mod words;
mod workers;

pub use command::Command;
pub use options::Options;
pub use shape::Grammar;
pub use words::{Request, request_of};
pub use workers::Workers;
