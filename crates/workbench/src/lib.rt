//! The commands over whole inputs: what is asked for, reading, work, writing, and how a run ends.
#![tactic(auto)]

mod command;
mod laws;
mod output;
mod program;

pub use laws::{
    headline_law, kept_clauses_law, written_answer_law, written_core_law, written_document_law,
};
pub use program::run;
