//! Answers to the question whether a formula has a model: their texts, both ways, and their check, which does not know
//! how they are read and printed.
#![tactic(auto)]

pub use answer_text::{AnswerReader, answer_reader, answer_text_law, print_answer, read_answer};
pub use check_answers::{answer_law, check_answer};
pub use lk_model::Answer;
