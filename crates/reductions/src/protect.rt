//! The protected variables that a list gives.
ghost use Rattle.std.specs.Prelude.{◌≡◌, ◌&&◌, ℕ, length, filter, IfOk};
ghost use Rattle.lk_model.specs.Lists.{among, is_between};
ghost use Rattle.lk_model.specs.Formulas.Formula.{variables_to};
ghost use Rattle.lk_model.specs.Formulas.Crossed.{formula_without, protected_of};
ghost use Rattle.lk_model.specs.Held.VariableSets.{is_in};

use lk_model::{Formula, List, OutOfMemory, VarSet};
use std::alloc::Global;

/// The protected variables of a formula, ascending, and what is left of it without their literals.
#[derive(Drop)]
pub(crate) struct Protection {
    pub(crate) line: List<u32>,
    pub(crate) left: Formula,
}

/// What a list protects in a formula: those of its numbers that are variables of it.
pub(crate) fn protection_of(
    alloc: Global,
    f: &Formula,
    listed: &[u32],
) -> Result<Protection, OutOfMemory>
    ensures line { IfOk result (λ p. p.line ≡ protected_of f.now listed.now) }
    ensures left { IfOk result (λ p. p.left ≡ formula_without f.now (among p.line)) }
{
    let n = f.vars();
    let set = set_of(alloc, n, listed)?;
    let line = members(alloc, n, &set)?;
    let left = f.without(alloc, &set)?;
    Ok(Protection { line, left })
}

/// The set of those of these numbers that are variables up to n.
fn set_of(alloc: Global, n: u32, listed: &[u32]) -> Result<VarSet, OutOfMemory>
    ensures size { IfOk result (λ set. length set ≡ n) }
    ensures vars { IfOk result (λ set. (v : ℕ) → is_in set v ≡ (is_between 1 n v && among listed.now v)) }
{
    let mut set = VarSet::new(alloc, n)?;
    for v in listed {
        if is_variable(*v, n) {
            set.add(*v);
        }
    }
    Ok(set)
}

/// Whether a number is a variable up to n.
fn is_variable(v: u32, n: u32) -> bool
    ensures { result ≡ is_between 1 n v }
{
    1 <= v && v <= n
}

/// The variables of a set, ascending.
fn members(alloc: Global, n: u32, set: &VarSet) -> Result<List<u32>, OutOfMemory>
    requires { length set.now ≡ n }
    ensures { IfOk result (λ vars. vars ≡ filter (is_in set.now) (variables_to n)) }
{
    let mut vars = List::new(alloc);
    for v in 0..n {
        if set.has(v + 1) {
            vars.push(v + 1)?;
        }
    }
    Ok(vars)
}
