//! Joins results that can be joined.
ghost use Rattle.std.specs.Prelude.{◌≡◌, ◌<◌, ◌≤◌, All, IsTrue, IfOk};
ghost use Rattle.lk_model.specs.Formulas.Literal.{mentions};
ghost use Rattle.autarky_compose.specs.JoinedGeneral.{AreJoinable, all_kept, all_set};
ghost use Rattle.test_parts.specs.Apart.{is_alone, are_apart};

use autarky_compose::join_general;
use lk_model::{GeneralResult, List, Lit, OutOfMemory};
use std::alloc::Global;

/// The results for parts of a formula of m clauses, joined, where they can be.
pub(crate) fn joined(
    alloc: Global,
    m: u32,
    found: List<GeneralResult>,
) -> Result<Option<GeneralResult>, OutOfMemory> {
    if can_join(alloc, m, found.as_slice())? {
        Ok(Some(join_general(alloc, m, found)?))
    } else {
        Ok(None)
    }
}

/// Whether results can be joined.
fn can_join(alloc: Global, m: u32, found: &[GeneralResult]) -> Result<bool, OutOfMemory>
    ensures { IfOk result (λ can. IsTrue can → AreJoinable m found.now) }
{
    let kept = kept_of_all(alloc, found)?;
    let set = set_of_all(alloc, found)?;
    if !are_within(m, &kept) {
        return Ok(false);
    }
    Ok(are_on_different_variables(&set))
}

/// The positions that results keep.
fn kept_of_all(alloc: Global, found: &[GeneralResult]) -> Result<Vec<u32>, OutOfMemory>
    ensures { IfOk result (λ ps. ps.items ≡ all_kept found.now) }
{
    let mut all = Vec::new(alloc);
    for r in found {
        all.extend_from_slice(r.kept.as_slice())?;
    }
    Ok(all)
}

/// The literals of results.
fn set_of_all(alloc: Global, found: &[GeneralResult]) -> Result<Vec<Lit>, OutOfMemory>
    ensures { IfOk result (λ ls. ls.items ≡ all_set found.now) }
{
    let mut all = Vec::new(alloc);
    for r in found {
        all.extend_from_slice(r.set.as_slice())?;
    }
    Ok(all)
}

/// Whether positions are those of m clauses.
fn are_within(m: u32, positions: &[u32]) -> bool
    ensures { IsTrue result → All (λ p. (0 < p) × (p ≤ m)) positions.now }
{
    positions.iter().all(|p| 0 < *p && *p <= m)
}

/// Whether no two literals are on one variable.
fn are_on_different_variables(lits: &[Lit]) -> bool
    ensures { result ≡ are_apart lits.now }
{
    match lits.split_first() {
        None => true,
        Some((l, more)) => is_alone(*l, more) && are_on_different_variables(more),
    }
}

/// Whether none of the others is on the variable of a literal.
fn is_alone(l: Lit, others: &[Lit]) -> bool
    ensures { result ≡ is_alone l others.now }
{
    let v = l.var();
    0 < v && !has_variable(others, v)
}

/// Whether some literal is on the variable.
fn has_variable(lits: &[Lit], v: u32) -> bool
    ensures { result ≡ mentions lits.now v }
{
    lits.iter().any(|l| l.var() == v)
}
