//! What the search for a core returns.
use lk_model::{Formula, List, Lit, MusResult, Round};

/// What is found of a formula.
#[derive(Drop)]
pub enum Mus {
    /// A minimally unsatisfiable core.
    Core(MusResult),
    /// A model of the formula: a literal for each variable, ascending.
    Model(List<Lit>),
    /// An open round of as many learned clauses as were allowed, over some clauses as a formula of their own: those at
    /// the positions of a part, where no part is refuted; or all but one of a set without a model.
    Unfinished {
        part: List<u32>,
        texts: Formula,
        round: Round,
    },
}
