//! The rounds of refutations, gone through step by step.
use crate::chains::{are_stated, clause_at, is_named, is_stated, is_within};
use lk_model::{Formula, Lit, Step};
use std::alloc::{AllocError, Global};

/// Whether the chain of each of these steps names positions of one part alone, besides steps.
pub fn lie_in(f: &Formula, part: &[u32], steps: &[Step]) -> bool {
    for p in 1..f.len() + 1 {
        if !part.contains(&p) && steps.iter().any(|step| is_named(step, u64::from(p))) {
            return false;
        }
    }
    true
}

/// Whether each step but the last one is named by a later one. (The last of those that are not would be needless.)
fn are_named(steps: &[Step]) -> bool {
    for i in 1..steps.len() {
        let number = steps[i - 1].number;
        if !steps[i..].iter().any(|later| is_named(later, number)) {
            return false;
        }
    }
    true
}

/// How many steps have a clause that is not empty.
fn learned_count(steps: &[Step]) -> usize {
    steps
        .iter()
        .filter(|step| !step.clause.as_slice().is_empty())
        .count()
}

/// Whether steps refute the formula: the last one is empty and no other, none is needless, and at most `conflicts`
/// clauses are learned.
pub fn refutes(
    alloc: Global,
    f: &Formula,
    conflicts: u32,
    steps: &[Step],
) -> Result<bool, AllocError> {
    let learned = learned_count(steps);
    let ends = match steps.last() {
        Some(step) => step.clause.as_slice().is_empty() && steps.len() - 1 == learned,
        None => false,
    };
    let few = learned as u64 <= u64::from(conflicts);
    Ok(ends && few && are_named(steps) && are_stated(alloc, f, steps)?)
}

/// Whether a clause has a literal, no two complementary ones, and contains no clause of the formula and of no
/// earlier step.
fn is_new(f: &Formula, earlier: &[Step], clause: &[Lit]) -> bool {
    for p in 1..f.len() + 1 {
        if is_within(clause_at(f, p), clause) {
            return false;
        }
    }
    !clause.is_empty()
        && !clause.iter().any(|l| clause.contains(&l.negated()))
        && !earlier
            .iter()
            .any(|step| is_within(step.clause.as_slice(), clause))
}

/// Whether steps learn exactly `conflicts` clauses of the formula, each new.
pub fn learns(
    alloc: Global,
    f: &Formula,
    conflicts: u32,
    steps: &[Step],
) -> Result<bool, AllocError> {
    for i in 0..steps.len() {
        if !is_new(f, &steps[..i], steps[i].clause.as_slice()) {
            return Ok(false);
        }
    }
    Ok(steps.len() as u64 == u64::from(conflicts) && are_stated(alloc, f, steps)?)
}

/// Whether the literals ascend by variable, and no variable stands twice.
fn is_ascending(clause: &[Lit]) -> bool {
    let mut last = 0;
    for l in clause {
        if l.var() <= last {
            return false;
        }
        last = l.var();
    }
    true
}

/// Whether a step states the clause of its chain, in order, and the clause is empty, or new where it is to be new.
fn step_stands(
    alloc: Global,
    f: &Formula,
    earlier: &[Step],
    step: &Step,
    is_end: bool,
) -> Result<bool, AllocError> {
    let clause = step.clause.as_slice();
    if clause.is_empty() != is_end || !is_ascending(clause) {
        return Ok(false);
    }
    Ok((is_end || is_new(f, earlier, clause)) && is_stated(alloc, f, earlier, step)?)
}

/// Whether steps are numbered from a number on, and each states the clause of its chain, in order, which is new, but for
/// the end of a refutation, which is empty.
pub fn stand(
    alloc: Global,
    f: &Formula,
    next: u64,
    steps: &[Step],
    is_refutation: bool,
) -> Result<bool, AllocError> {
    for i in 0..steps.len() {
        let is_end = is_refutation && i + 1 == steps.len();
        let is_numbered = steps[i].number == next.saturating_add(i as u64);
        if !is_numbered || !step_stands(alloc, f, &steps[..i], &steps[i], is_end)? {
            return Ok(false);
        }
    }
    Ok(!is_refutation || !steps.is_empty())
}
