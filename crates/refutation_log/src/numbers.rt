//! The numbers of trimmed steps.
ghost use Rattle.std.specs.Prelude.{◌≡◌, ◌+◌, ◌<◌, ◌^◌, ◌∷◌, nat_lt, length, map, filter, IfOk, IsTrue};
ghost use Rattle.std.specs.List.{list_all};
ghost use Rattle.lk_model.specs.Chains.Chain.{names_of};
ghost use Rattle.lk_model.specs.Chains.Rounds.{reached};
ghost use Rattle.lk_model.specs.declared.document.Turn.{Turn as ATurn};
ghost use Rattle.refutation_log.specs.Trimmed.{trimmed, with_numbers};
ghost use Rattle.refutation_log.specs.Numbers.{number_by_table, is_marked, AreNewNumbers};
ghost use Rattle.refutation_log.specs.Marks.{AreMarks};
ghost use Rattle.refutation_log.specs.Derivation.{are_numbered, names_lower, IsDerivation};

use crate::logged_step::LoggedStep;
use crate::reach::Marks;
use lk_model::{List, OutOfMemory, Step, Turn};
use std::alloc::Global;

/// The steps with a mark, in their order, and numbered from `next`. Marked must be what is reached
/// backwards from the last step.
pub(crate) fn renumbered(
    alloc: Global,
    steps: Vec<LoggedStep>,
    marks: &Marks,
    next: u64,
) -> Result<List<Step>, OutOfMemory>
    requires derivation { IsDerivation marks.now.first steps.items }
    requires reached { AreMarks (reached steps.items) marks.now }
    requires count { length marks.now.steps.items ≡ length steps.items }
    requires room { next + length steps.items < 2 ^ 64 }
    ensures { IfOk result (λ kept. kept ≡ trimmed next steps.items) }
{
    let numbers = new_numbers(alloc, &marks.steps, next)?;
    kept_steps(alloc, steps, marks.first, &marks.steps, &numbers)
}

// For each step the number at which it stands if it is kept: `next`, and one more for each kept step
// before it.
fn new_numbers(alloc: Global, kept: &[bool], next: u64) -> Result<Vec<u64>, OutOfMemory>
    requires { next + length kept.now < 2 ^ 64 }
    ensures { IfOk result (λ v. AreNewNumbers kept.now next v.items) }
{
    let mut numbers = Vec::new(alloc);
    let mut number = next;
    for is_kept in kept {
        numbers.push(number)?;
        if *is_kept {
            number += 1;
        }
    }
    Ok(numbers)
}

// The steps with a mark, with new numbers.
fn kept_steps(
    alloc: Global,
    steps: Vec<LoggedStep>,
    first: u64,
    marks: &[bool],
    numbers: &[u64],
) -> Result<List<Step>, OutOfMemory>
    requires numbered { IsTrue (are_numbered first steps.items) }
    requires names { IsTrue (list_all names_lower steps.items) }
    requires marks { length marks.now ≡ length steps.items }
    requires numbers { length numbers.now ≡ length steps.items }
    ensures { IfOk result
        (λ kept. kept ≡ map (with_numbers (number_by_table first numbers.now))
        (filter (is_marked first marks.now) steps.items)) }
{
    let mut kept = List::new(alloc);
    for step in steps {
        if marks[(step.number() - first) as usize] {
            let step = step.into_step(alloc)?;
            kept.push(with_new_numbers(step, first, numbers))?;
        }
    }
    Ok(kept)
}

// The step with the new numbers of the steps from `first` on.
fn with_new_numbers(step: Step, first: u64, numbers: &[u64]) -> Step
    requires { IsTrue (list_all (λ k. nat_lt k (first + length numbers.now)) (step.number ∷ names_of step)) }
    ensures { result ≡ with_numbers (number_by_table first numbers.now) step }
{
    let mut turns = step.turns.into_vec();
    renumber(&mut turns, first, numbers);
    Step {
        number: new_number(step.number, first, numbers),
        clause: step.clause,
        first: new_number(step.first, first, numbers),
        turns: List::from_vec(turns),
    }
}

// The new number of a number.
fn new_number(k: u64, first: u64, numbers: &[u64]) -> u64
    requires { k < first + length numbers.now }
    ensures { result ≡ number_by_table first numbers.now k }
{
    if k < first {
        k
    } else {
        numbers[(k - first) as usize]
    }
}

// Gives each turn its new number.
fn renumber(turns: &mut [Turn], first: u64, numbers: &[u64])
    requires { IsTrue (list_all (λ k. nat_lt k (first + length numbers.now)) (map (λ (t : ATurn). t.with) turns.old)) }
    ensures { turns.new ≡ map
        (λ (t : ATurn). record { lit = t.lit; with = number_by_table first numbers.now t.with }) turns.old }
{
    for turn in turns.iter_mut() {
        turn.with = new_number(turn.with, first, numbers);
    }
}
