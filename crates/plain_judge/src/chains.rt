//! The chains of steps, gone through turn by turn.
use lk_model::{Formula, Lit, Step, Turn};
use std::alloc::{AllocError, Global};

/// The clause at a position, where there is one.
pub fn clause_at(f: &Formula, p: u32) -> &[Lit] {
    if p == 0 || p > f.len() {
        return &[];
    }
    f.clause(p)
}

/// Whether each literal of the first clause stands in the second.
pub(crate) fn is_within(clause: &[Lit], other: &[Lit]) -> bool {
    clause.iter().all(|l| other.contains(l))
}

/// The clause of an earlier step, where one has this number.
fn step_clause(alloc: Global, earlier: &[Step], k: u64) -> Result<Option<Vec<Lit>>, AllocError> {
    for step in earlier {
        if step.number == k {
            return Ok(Some(Vec::from_slice(alloc, step.clause.as_slice())?));
        }
    }
    Ok(None)
}

/// What a number may stand for in a chain: the clause of a position, or of an earlier step.
fn named(
    alloc: Global,
    f: &Formula,
    earlier: &[Step],
    k: u64,
) -> Result<Option<Vec<Lit>>, AllocError> {
    if k == 0 || k > u64::from(f.len()) {
        return step_clause(alloc, earlier, k);
    }
    Ok(Some(Vec::from_slice(alloc, clause_at(f, k as u32))?))
}

/// Appends the literals that are not there yet, but one.
fn join(lits: &mut Vec<Lit>, others: &[Lit], but: Lit) -> Result<(), AllocError> {
    for l in others {
        if *l != but && !lits.as_slice().contains(l) {
            lits.push(*l)?;
        }
    }
    Ok(())
}

/// The resolvent of two clauses on a literal of the first one, where there is one.
fn resolvent(
    alloc: Global,
    clause: &[Lit],
    other: &[Lit],
    l: Lit,
) -> Result<Option<Vec<Lit>>, AllocError> {
    if !clause.contains(&l) || !other.contains(&l.negated()) {
        return Ok(None);
    }
    let mut lits = Vec::new(alloc);
    join(&mut lits, clause, l)?;
    join(&mut lits, other, l.negated())?;
    Ok(Some(lits))
}

/// The clause after a turn, where it can be made.
fn turned(
    alloc: Global,
    f: &Formula,
    earlier: &[Step],
    clause: &[Lit],
    turn: Turn,
) -> Result<Option<Vec<Lit>>, AllocError> {
    match named(alloc, f, earlier, turn.with)? {
        Some(other) => resolvent(alloc, clause, other.as_slice(), turn.lit),
        None => Ok(None),
    }
}

/// The clause of a step's chain, where each turn can be made.
fn chain_clause(
    alloc: Global,
    f: &Formula,
    earlier: &[Step],
    step: &Step,
) -> Result<Option<Vec<Lit>>, AllocError> {
    let mut clause = named(alloc, f, earlier, step.first)?;
    for turn in step.turns.as_slice() {
        clause = match clause {
            Some(lits) => turned(alloc, f, earlier, lits.as_slice(), *turn)?,
            None => None,
        };
    }
    Ok(clause)
}

/// Whether a step states the clause of its chain.
pub(crate) fn is_stated(
    alloc: Global,
    f: &Formula,
    earlier: &[Step],
    step: &Step,
) -> Result<bool, AllocError> {
    let clause = step.clause.as_slice();
    match chain_clause(alloc, f, earlier, step)? {
        Some(lits) => Ok(is_within(lits.as_slice(), clause) && is_within(clause, lits.as_slice())),
        None => Ok(false),
    }
}

/// Whether each step states the clause of its chain, and they are numbered from the number of clauses plus 1.
pub(crate) fn are_stated(alloc: Global, f: &Formula, steps: &[Step]) -> Result<bool, AllocError> {
    let mut number = u64::from(f.len());
    for i in 0..steps.len() {
        number = number.saturating_add(1);
        if steps[i].number != number || !is_stated(alloc, f, &steps[..i], &steps[i])? {
            return Ok(false);
        }
    }
    Ok(true)
}

/// Whether the chain of a step names a number.
pub fn is_named(step: &Step, k: u64) -> bool {
    step.first == k || step.turns.as_slice().iter().any(|turn| turn.with == k)
}
