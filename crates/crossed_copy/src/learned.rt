//! Whether steps learn.
ghost use Rattle.std.specs.Prelude.{◌≡◌, ◌||◌, IsTrue};
ghost use Rattle.std.specs.List.{list_all, list_any};
ghost use Rattle.lk_model.specs.Lists.{is_empty};
ghost use Rattle.lk_model.specs.Formulas.Literal.{contains, is_literal, is_tautology, is_within};
ghost use Rattle.lk_model.specs.Held.VariableSets.{IsCrossed, premises_of};
ghost use Rattle.lk_model.specs.Chains.Chain.{is_learned};
ghost use Rattle.lk_model.specs.declared.document.Step.{Step as AStep};
ghost use Rattle.unit_refutations.specs.Standing.{IsKept};
ghost use Rattle.crossed_copy.specs.Learning.{are_learned};

use lk_model::{Crossed, Lit, Step};
use unit_refutations::Units;

/// Whether each step's clause is empty, or contains no complementary pair, no crossed clause of the part that is not
/// empty, and no clause of an earlier step. It may return false because of a crossed clause outside the part.
pub(crate) fn are_learned(units: &Units, over: &Crossed, steps: &[Step]) -> bool
    requires crossed { IsCrossed over.now }
    requires kept { IsKept over.now.formula.now over.now.blocked.now units.now }
    requires literals { IsTrue
        (list_all (λ (s : AStep). list_all (is_literal over.now.formula.now.vars) s.clause) steps.now) }
    ensures { IsTrue result → IsTrue (are_learned over.now steps.now) }
{
    for i in 0..steps.len() {
        if !is_learned(units, over, &steps[..i], steps[i].clause.as_slice()) {
            return false;
        }
    }
    true
}

// Whether a clause is empty, or is learned after earlier steps.
fn is_learned(units: &Units, over: &Crossed, earlier: &[Step], clause: &[Lit]) -> bool
    requires crossed { IsCrossed over.now }
    requires kept { IsKept over.now.formula.now over.now.blocked.now units.now }
    requires literals { IsTrue (list_all (is_literal over.now.formula.now.vars) clause.now) }
    ensures { IsTrue result → IsTrue (is_empty clause.now || is_learned (premises_of over.now earlier.now) clause.now) }
{
    if clause.is_empty() {
        return true;
    }
    if is_tautology(clause) || contains_step(clause, earlier) {
        return false;
    }
    units.contains_none(over, clause)
}

// Whether a clause contains a complementary pair.
fn is_tautology(clause: &[Lit]) -> bool
    ensures { result ≡ is_tautology clause.now }
{
    clause.iter().any(|l| stands_in(clause, l.negated()))
}

// Whether a clause contains that of a step.
fn contains_step(clause: &[Lit], steps: &[Step]) -> bool
    ensures { result ≡ list_any (λ (s : AStep). is_within s.clause clause.now) steps.now }
{
    steps.iter().any(|s| is_within(s.clause.as_slice(), clause))
}

// Whether each literal of a clause stands in another one.
fn is_within(clause: &[Lit], other: &[Lit]) -> bool
    ensures { result ≡ is_within clause.now other.now }
{
    clause.iter().all(|l| stands_in(other, *l))
}

// Whether a literal stands in a clause.
fn stands_in(clause: &[Lit], l: Lit) -> bool
    ensures { result ≡ contains clause.now l }
{
    clause.contains(&l)
}
