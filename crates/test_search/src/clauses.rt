//! Clauses of chains, by their definitions alone.
ghost use Rattle.std.specs.Prelude.{◌≡◌, IfOk, IsTrue};
ghost use Rattle.lk_model.specs.Held.VariableSets.{IsCrossed};
ghost use Rattle.lk_model.specs.Held.VariableSets.{premises_of};
ghost use Rattle.lk_model.specs.Chains.Chain.{without, resolvent, clause_named, after_turns, chain_clause};
ghost use Rattle.lk_model.specs.Chains.Chain.{states_its_clause};
ghost use Rattle.lk_model.specs.Formulas.Literal.{is_within, is_same_set};
ghost use Rattle.refutation_log.specs.Derivation.{are_chains, clause_of_step};

use lk_model::{Crossed, List, Lit, OutOfMemory, Step, Turn};
use std::alloc::Global;

/// The clause without a literal.
fn without(alloc: Global, c: &[Lit], l: Lit) -> Result<Vec<Lit>, OutOfMemory>
    ensures { IfOk result (λ v. v.items ≡ without c.now l) }
{
    Ok(c.iter().copied().filter(|k| *k != l).collect(alloc)?)
}

/// The resolvent on a literal, if there is one.
fn resolvent(alloc: Global, l: Lit, c: &[Lit], d: &[Lit]) -> Result<Option<List<Lit>>, OutOfMemory>
    ensures { IfOk result (λ r. r ≡ resolvent l c.now d.now) }
{
    if !c.contains(&l) || !d.contains(&l.negated()) {
        return Ok(None);
    }
    let mut lits = without(alloc, c, l)?;
    let others = without(alloc, d, l.negated())?;
    lits.extend_from_slice(&others)?;
    Ok(Some(List::from_vec(lits)))
}

/// The clause of the step of a number, if there is one.
fn step_clause(alloc: Global, steps: &[Step], k: u64) -> Result<Option<List<Lit>>, OutOfMemory>
    ensures { IfOk result (λ c. c ≡ clause_of_step steps.now k) }
{
    match steps.split_first() {
        Some((step, later)) => {
            if step.number == k {
                let lits = Vec::from_slice(alloc, step.clause.as_slice())?;
                return Ok(Some(List::from_vec(lits)));
            }
            step_clause(alloc, later, k)
        }
        None => Ok(None),
    }
}

/// The clause that a number stands for, if it stands for one.
fn named(
    alloc: Global,
    over: &Crossed,
    steps: &[Step],
    k: u64,
) -> Result<Option<List<Lit>>, OutOfMemory>
    requires { IsCrossed over.now }
    ensures { IfOk result (λ c. c ≡ clause_named (premises_of over.now steps.now) k) }
{
    if k > u64::from(over.formula.len()) {
        return step_clause(alloc, steps, k);
    }
    if !over.part.contains(&(k as u32)) {
        return Ok(None);
    }
    Ok(Some(over.clause(alloc, k as u32)?))
}

/// The clause after the turns, if each can be made.
fn after_turns(
    alloc: Global,
    over: &Crossed,
    steps: &[Step],
    c: &[Lit],
    turns: &[Turn],
) -> Result<Option<List<Lit>>, OutOfMemory>
    requires { IsCrossed over.now }
    ensures { IfOk result (λ r. r ≡ after_turns (premises_of over.now steps.now) c.now turns.now) }
{
    match turns.split_first() {
        Some((turn, later)) => match named(alloc, over, steps, turn.with)? {
            Some(d) => match resolvent(alloc, turn.lit, c, d.as_slice())? {
                Some(r) => after_turns(alloc, over, steps, r.as_slice(), later),
                None => Ok(None),
            },
            None => Ok(None),
        },
        None => Ok(Some(List::from_vec(Vec::from_slice(alloc, c)?))),
    }
}

/// The clause of a chain, if it has one.
pub(crate) fn chain_clause(
    alloc: Global,
    over: &Crossed,
    steps: &[Step],
    first: u64,
    turns: &[Turn],
) -> Result<Option<List<Lit>>, OutOfMemory>
    requires { IsCrossed over.now }
    ensures { IfOk result (λ r. r ≡ chain_clause (premises_of over.now steps.now) first turns.now) }
{
    match named(alloc, over, steps, first)? {
        Some(c) => after_turns(alloc, over, steps, c.as_slice(), turns),
        None => Ok(None),
    }
}

/// Whether each literal of the first clause stands in the second.
fn is_within(c: &[Lit], d: &[Lit]) -> bool
    ensures { result ≡ is_within c.now d.now }
{
    match c.split_first() {
        Some((l, others)) => d.contains(l) && is_within(others, d),
        None => true,
    }
}

/// Whether the clauses have the same literals.
fn is_same_set(c: &[Lit], d: &[Lit]) -> bool
    ensures { result ≡ is_same_set c.now d.now }
{
    is_within(c, d) && is_within(d, c)
}

/// Whether the step states the clause of its chain.
fn states(alloc: Global, over: &Crossed, earlier: &[Step], step: &Step) -> Result<bool, OutOfMemory>
    requires { IsCrossed over.now }
    ensures { IfOk result (λ b. b ≡ states_its_clause (premises_of over.now earlier.now) step.now) }
{
    match chain_clause(alloc, over, earlier, step.first, step.turns.as_slice())? {
        Some(c) => Ok(is_same_set(step.clause.as_slice(), c.as_slice())),
        None => Ok(false),
    }
}

/// Whether each step states the clause of its chain.
pub(crate) fn are_chains(alloc: Global, over: &Crossed, steps: &[Step]) -> Result<bool, OutOfMemory>
    requires { IsCrossed over.now }
    ensures { IfOk result (λ b. IsTrue b → IsTrue (are_chains over.now steps.now)) }
{
    for (i, step) in steps.iter().enumerate() {
        if !states(alloc, over, &steps[..i], step)? {
            return Ok(false);
        }
    }
    Ok(true)
}
