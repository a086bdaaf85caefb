//! The inputs of a command: whole texts, read in the order of the words.
#![tactic(auto)]

mod input;

pub use input::{
    Answered, Checked, Edited, read_answered, read_checked, read_edited, read_formula, read_values,
};
