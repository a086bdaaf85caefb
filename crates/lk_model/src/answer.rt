//! Answers.
use crate::document::{MusAnswer, Round};
use crate::list::List;
use crate::lit::Lit;

/// Whether a formula has a model, with what shows it.
#[derive(Drop)]
pub enum Answer {
    /// It has one: a literal on each variable, ascending, which makes the literals true.
    Model(List<Lit>),
    /// It has none: a refutation, which ends with its empty step. Its steps are numbered from the formula's
    /// number of clauses plus 1.
    Refuted(Round),
    /// It has none, and these of its clauses have none, though they have one without any single one of them.
    Core(MusAnswer),
}
