//! The results of the reducers, in the types that documents consist of. Positions ascend and count from 1.
use crate::document::{Dual, MatchRow, Own, Pair, Round, Stage, Unit, Without};
use crate::list::List;
use crate::lit::Lit;

/// What the pure reducer finds: the kept positions, the literals in the order in which they are made
/// true, and a pair for each variable of the kept clauses.
#[derive(Drop)]
pub struct PureResult {
    pub kept: List<u32>,
    pub order: List<Lit>,
    pub pairs: List<Pair>,
}

/// What the matching reducer finds: the kept positions, a variable for each other position, and a row
/// for each variable of the kept clauses.
#[derive(Drop)]
pub struct MatchingResult {
    pub kept: List<u32>,
    pub own: List<Own>,
    pub rows: List<MatchRow>,
}

/// What the linear reducer finds: the kept positions, the weightings, and for the kept clauses their
/// duals and the units of their variables.
#[derive(Drop)]
pub struct LinearResult {
    pub kept: List<u32>,
    pub stages: List<Stage>,
    pub dual: List<Dual>,
    pub units: List<Unit>,
}

/// What the general reducer finds: the kept positions, the literals that are made true, and the rounds
/// of refutations.
#[derive(Drop)]
pub struct GeneralResult {
    pub kept: List<u32>,
    pub set: List<Lit>,
    pub rounds: List<Round>,
}

/// How a search for a general kernel ends.
#[derive(Drop)]
pub enum General {
    /// With the kernel, literals that satisfy the other clauses, and trimmed rounds, of which none is needless.
    Done(GeneralResult),
    /// With its budget used up: whole rounds, and an open one that is not at its end.
    Unfinished(List<Round>),
}

/// What is found of a minimally unsatisfiable core: its positions, a refutation by chains over its clauses
/// alone, and for each of its positions literals that satisfy every other clause of the core.
#[derive(Drop)]
pub struct MusResult {
    pub core: List<u32>,
    pub round: Round,
    pub without: List<Without>,
}
