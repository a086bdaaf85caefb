//! The texts of answers to the question whether a formula has a model, both ways.
#![tactic(auto)]

mod core_draft;
mod core_printing;
mod core_steps;
mod draft;
mod laws;
mod printing;
mod reading;

pub use laws::answer_text_law;
pub use printing::print_answer;
pub use reading::{AnswerReader, answer_reader, read_answer};
