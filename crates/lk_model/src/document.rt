//! What documents consist of. Positions and variables count from 1, and literals are DIMACS numbers.
use crate::formula::Formula;
use crate::list::List;
use crate::lit::Lit;

/// Two kept clauses that show a variable in both signs: at position `with` one that contains the
/// variable, at position `against` one that contains its complement.
#[derive(Clone, Copy, PartialEq, Eq, Debug)]
pub struct Pair {
    pub var: u32,
    pub with: u32,
    pub against: u32,
}

/// The variable that the removed clause at a position has for its own (Kullmann 2003).
#[derive(Clone, Copy, PartialEq, Eq, Debug)]
pub struct Own {
    pub pos: u32,
    pub var: u32,
}

/// What shows that a variable is matched in the kept clauses: the position that it is matched to,
/// the position of another clause with it by which an alternating path goes on, and a rank that is
/// less along that path.
#[derive(Clone, Copy, PartialEq, Eq, Debug)]
pub struct MatchRow {
    pub var: u32,
    pub own: u32,
    pub escape: u32,
    pub rank: u32,
}

/// The weight of a variable, which is not 0 and lies within ±(2^127 - 1).
#[derive(Clone, Copy, PartialEq, Eq, Debug)]
pub struct Weight {
    pub var: u32,
    pub x: i128,
}

/// A weighting of the variables, by the weights that are not 0, ascending by variable
/// (Kullmann 2000).
#[derive(Drop)]
pub struct Stage {
    pub weights: List<Weight>,
}

/// The number of a kept clause, within ±(2^127 - 1).
#[derive(Clone, Copy, PartialEq, Eq, Debug)]
pub struct Dual {
    pub pos: u32,
    pub y: i128,
}

/// The number of a kept clause in a unit, which is not 0 and lies within ±(2^127 - 1).
#[derive(Clone, Copy, PartialEq, Eq, Debug)]
pub struct Share {
    pub pos: u32,
    pub z: i128,
}

/// Shares, ascending by position, whose balance is d in one variable and 0 in the other variables of the
/// kept clauses that are not protected.
#[derive(Drop)]
pub struct Unit {
    pub var: u32,
    pub d: i128,
    pub shares: List<Share>,
}

/// A resolution on a literal: the clause so far contains it, and the clause of the number `with` contains
/// its complement.
#[derive(Clone, Copy, PartialEq, Eq, Debug)]
pub struct Turn {
    pub lit: Lit,
    pub with: u64,
}

/// A clause, and the resolution chain that gives it: a first clause, and then the turns. Numbers up
/// to that of the formula's clauses name these, and greater ones earlier steps.
#[derive(Drop)]
pub struct Step {
    pub number: u64,
    pub clause: List<Lit>,
    pub first: u64,
    pub turns: List<Turn>,
}

/// Steps, of which the last has the empty clause if the round is whole.
#[derive(Drop)]
pub struct Round {
    pub steps: List<Step>,
}

/// The certificate of a finished document, by its class.
#[derive(Drop)]
pub enum Body {
    Pure {
        order: List<Lit>,
        pairs: List<Pair>,
    },
    Matching {
        own: List<Own>,
        rows: List<MatchRow>,
    },
    Linear {
        stages: List<Stage>,
        dual: List<Dual>,
        units: List<Unit>,
    },
    General {
        rounds: List<Round>,
    },
}

/// What a reduction writes: the numbers of variables and clauses of the formula, the line of protected
/// variables, ascending, where there is one (version 2), the kept positions, ascending, the literals that
/// are made true, ascending by variable, the certificate, and the kept clauses.
#[derive(Drop)]
pub struct DoneDocument {
    pub vars: u32,
    pub clauses: u32,
    pub protect: Option<List<u32>>,
    pub kept: List<u32>,
    pub set: List<Lit>,
    pub body: Body,
    pub texts: Formula,
}

/// What a reduction writes that used up its budget: the line of protected variables, ascending, where
/// there is one (version 2), how many clauses it learned, its rounds, of which the last is not whole, and
/// all clauses of the formula.
#[derive(Drop)]
pub struct OpenDocument {
    pub vars: u32,
    pub clauses: u32,
    pub protect: Option<List<u32>>,
    pub learned: u64,
    pub rounds: List<Round>,
    pub texts: Formula,
}

/// Literals that satisfy each clause of a minimally unsatisfiable core but the one at a position, ascending by
/// variable.
#[derive(Drop)]
pub struct Without {
    pub pos: u32,
    pub lits: List<Lit>,
}

/// What is written of a minimally unsatisfiable core: the numbers of variables and clauses of the formula, the
/// core's positions, ascending, a refutation by chains over its clauses alone, for each of its positions
/// literals that satisfy every other clause of the core, and the clauses of the core.
#[derive(Drop)]
pub struct MusAnswer {
    pub vars: u32,
    pub clauses: u32,
    pub core: List<u32>,
    pub round: Round,
    pub without: List<Without>,
    pub texts: Formula,
}

/// A document.
#[derive(Drop)]
pub enum Document {
    Done(DoneDocument),
    Unfinished(OpenDocument),
}
