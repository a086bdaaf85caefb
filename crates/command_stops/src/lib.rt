//! Why a command ends without its result, and the pieces of its inputs.
#![tactic(auto)]

mod pieces;
mod stop;

pub use pieces::{read_piece, start_text};
pub use stop::Stop;
