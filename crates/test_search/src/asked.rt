//! What the calls on logs ask, as tests.
ghost use Rattle.std.specs.Prelude.{◌≡◌, ◌||◌, nat_lt, nat_le, map, IsTrue};
ghost use Rattle.std.specs.List.{list_all};
ghost use Rattle.lk_model.specs.declared.document.Turn.{Turn as ATurn};
ghost use Rattle.lk_model.specs.Chains.Rounds.{is_refutation};
ghost use Rattle.refutation_log.specs.Derivation.{are_numbered};
ghost use Rattle.refutation_log.specs.Trimmed.{names_positions_below};

use lk_model::{Step, Turn};

/// Whether the last clause is empty.
pub(crate) fn is_refutation(steps: &[Step]) -> bool
    ensures { result ≡ is_refutation steps.now }
{
    match steps.split_first() {
        Some((step, later)) => {
            if later.is_empty() {
                step.clause.len() == 0
            } else {
                is_refutation(later)
            }
        }
        None => false,
    }
}

/// Whether the steps are numbered one after another from this number on.
pub(crate) fn are_numbered(first: u64, steps: &[Step]) -> bool
    ensures { IsTrue result → IsTrue (are_numbered first steps.now) }
{
    match steps.split_first() {
        Some((step, later)) => {
            step.number == first && first < u64::MAX && are_numbered(first + 1, later)
        }
        None => true,
    }
}

/// Whether each position that the turns name is below a bound.
fn turns_below(bound: u64, first: u64, turns: &[Turn]) -> bool
    ensures { result ≡ list_all (λ k. nat_lt k bound || nat_le first k) (map (λ (t : ATurn). t.with) turns.now) }
{
    match turns.split_first() {
        Some((turn, later)) => {
            (turn.with < bound || first <= turn.with) && turns_below(bound, first, later)
        }
        None => true,
    }
}

/// Whether each position that the chains name is below a bound.
pub(crate) fn names_below(bound: u64, first: u64, steps: &[Step]) -> bool
    ensures { result ≡ names_positions_below bound first steps.now }
{
    match steps.split_first() {
        Some((step, later)) => {
            (step.first < bound || first <= step.first)
                && turns_below(bound, first, step.turns.as_slice())
                && names_below(bound, first, later)
        }
        None => true,
    }
}
