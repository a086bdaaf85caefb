//! Edits of a formula's clauses, and a reader of their texts.
#![tactic(auto)]

mod draft;
mod edit;
mod laws;
mod lines;
mod progress;
mod reader;
mod refusal;

pub use edit::{Edit, EditFault};
pub use laws::edits_law;
pub use reader::EditsReader;
pub use refusal::EditsRefused;
