//! What a question leaves of a formula, so that answers are judged by programs that know no parts and no blocked
//! variables.
use crate::asking::Asked;
use lk_model::{Formula, Lit};
use lk_samples::push;
use plain_judge::clause_at;
use std::alloc::{AllocError, Global};
use std::test::Fail;

/// The clauses of a formula without the literals of blocked variables, and the positions of those that the question has
/// and that are not empty. At the others stands a clause that is always true, which no chain may name.
#[derive(Drop)]
pub(crate) struct Left {
    pub formula: Formula,
    pub positions: Vec<u32>,
}

/// The literals that are not on blocked variables.
fn crossed(alloc: Global, clause: &[Lit], blocked: &[u32]) -> Result<Vec<Lit>, AllocError> {
    let mut lits = Vec::new(alloc);
    for l in clause {
        if !blocked.contains(&l.var()) {
            lits.push(*l)?;
        }
    }
    Ok(lits)
}

/// Appends what is left of the clause at a position.
fn push_left(alloc: Global, left: &mut Left, asked: &Asked, p: u32) -> Result<(), Fail> {
    let lits = crossed(alloc, clause_at(asked.formula, p), asked.blocked)?;
    if lits.is_empty() || !asked.part.contains(&p) {
        return push(
            &mut left.formula,
            &[Lit::from_var(1, true), Lit::from_var(1, false)],
        );
    }
    left.positions.push(p)?;
    push(&mut left.formula, lits.as_slice())
}

/// What a question leaves of its formula, which has a variable if it has a clause.
pub(crate) fn left_of(alloc: Global, asked: &Asked) -> Result<Left, Fail> {
    let mut left = Left {
        formula: Formula::new(alloc, asked.formula.vars())?,
        positions: Vec::new(alloc),
    };
    for p in 1..asked.formula.len() + 1 {
        push_left(alloc, &mut left, asked, p)?;
    }
    Ok(left)
}
