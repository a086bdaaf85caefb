//! Propagators over given clauses, and what may be asked of them.
ghost use Rattle.std.specs.Prelude.{◌≡◌, ◌<◌, ℕ, length, not, IfOk, IsTrue};
ghost use Rattle.std.specs.List.{list_any};
ghost use Rattle.lk_model.specs.Formulas.Literal.{complement, contains};
ghost use Rattle.lk_model.specs.Formulas.Lean.{are_positions};
ghost use Rattle.lk_model.specs.Lists.{among};
ghost use Rattle.watch_prop.specs.Propagation.{numbers_of, may_be_held};

use lk_model::{Crossed, Formula, Lit, OutOfMemory, VarSet};
use lk_samples::{makes_clause, numbers_of_text, part_of_text, set_of};
use std::alloc::Global;
use std::test::Fail;
use watch_prop::Propagator;

/// Whether none of the literals has its complement in the clause.
fn is_apart(clause: &[Lit], lits: &[Lit]) -> bool
    ensures { IsTrue result → IsTrue (not (list_any (λ l. contains clause.now (complement l)) lits.now)) }
{
    match lits.split_first() {
        Some((l, others)) => !clause.contains(&l.negated()) && is_apart(clause, others),
        None => true,
    }
}

/// Whether a clause may be held.
pub(crate) fn may_hold(n: u32, lits: &[Lit]) -> bool
    ensures { IsTrue result → IsTrue (may_be_held n lits.now) }
{
    !lits.is_empty() && makes_clause(n, lits) && is_apart(lits, lits)
}

/// The propagator of a part of a formula, without the literals of these variables. All numbers after the last
/// position are free.
fn start(
    alloc: Global,
    f: &Formula,
    part: &[u32],
    blocked: &VarSet,
) -> Result<Propagator, OutOfMemory>
    requires part { IsTrue (are_positions f.now part.now) }
    requires blocked { length blocked.now ≡ f.now.vars }
    ensures vars { IfOk result (λ p. p.vars ≡ f.now.vars) }
    ensures free { IfOk result (λ p. (n : ℕ) → length f.now.clauses < n →
        IsTrue (not (among (numbers_of p.clauses) n))) }
{
    let over = Crossed {
        formula: f,
        part,
        blocked,
    };
    Ok(Propagator::new(alloc, &over)?)
}

/// The set of the variables that a text has, of those from 1 to n.
fn set_of_text(alloc: Global, n: u32, text: &str) -> Result<VarSet, Fail>
    ensures { IfOk result (λ s. length s ≡ n) }
{
    let vars = numbers_of_text(alloc, text)?;
    set_of(alloc, n, vars.as_slice())
}

/// The propagator of the part of a formula that a text has, without the literals of the variables that another has.
pub(crate) fn start_part(
    alloc: Global,
    f: &Formula,
    part: &str,
    blocked: &str,
) -> Result<Propagator, Fail>
    ensures vars { IfOk result (λ p. p.vars ≡ f.now.vars) }
    ensures free { IfOk result (λ p. (n : ℕ) → length f.now.clauses < n →
        IsTrue (not (among (numbers_of p.clauses) n))) }
{
    let set = set_of_text(alloc, f.vars(), blocked)?;
    let part = part_of_text(alloc, f, part)?;
    Ok(start(alloc, f, part.as_slice(), &set)?)
}
