//! The texts of documents, both ways.
#![tactic(auto)]

mod draft;
mod entries;
mod laws;
mod part;
mod printing;
mod read_linear;
mod read_matching;
mod read_pure;
mod reading;
mod signed_lists;
mod steps;

pub use laws::document_text_law;
pub use model_text::print_model;
pub use printing::print;
pub use reading::{DocumentReader, document_reader, read};
