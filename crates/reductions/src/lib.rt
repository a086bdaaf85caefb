//! From a formula, a class and protected variables to a document.
//!
//! A reducer looks at what is left of the formula without the literals on protected variables. What it finds has one
//! form for all classes, and the document states it with the line of protected variables and the formula's clauses.
#![tactic(auto)]

mod document;
mod find;
mod problem;
mod protect;
mod set_line;

pub use document::{Found, document_of, open_document_of};
pub use find::{GeneralStop, find_general, find_linear, find_matching, find_pure};
pub use problem::Problem;
