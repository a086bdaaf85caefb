//! Texts that come in pieces, read line by line.
#![tactic(auto)]

mod piece_reader;
mod progress;

pub use piece_reader::PieceReader;
