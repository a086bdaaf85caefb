//! The positions that a refutation uses.
ghost use Rattle.std.specs.Prelude.{◌≡◌, ◌+◌, ◌-◌, ◌<◌, ◌^◌, false, List, length, filter, slice_index_or, IfOk, IsTrue};
ghost use Rattle.std.specs.List.{list_all, range_with_len};
ghost use Rattle.lk_model.specs.Chains.Rounds.{reached, is_refutation, used_positions};
ghost use Rattle.lk_model.specs.declared.document.Step.{Step as AStep};
ghost use Rattle.refutation_log.specs.Derivation.{first_number, are_numbered, names_lower, are_chains};
ghost use Rattle.refutation_log.specs.Marks.{AreMarks, HaveShape};

use crate::reach::{Chains, Marks, marks_of};
use lk_model::{Crossed, List, OutOfMemory, Round};
use std::alloc::Global;

/// The positions that a refutation uses, ascending: those that are reached backwards from its last
/// step. Its last clause must be empty, and its steps chains over `over` that are numbered one after
/// another from above the number of the formula's clauses: the marks of steps stand at the distance of
/// their numbers from the first, apart from those of positions.
pub fn axioms_of(alloc: Global, over: &Crossed, round: &Round) -> Result<List<u32>, OutOfMemory>
    requires whole { IsTrue (is_refutation round.now.steps) }
    requires chains { IsTrue (are_chains over.now round.now.steps) }
    requires numbers { IsTrue (are_numbered (first_number round.now.steps) round.now.steps) }
    requires past { length over.now.formula.now.clauses < first_number round.now.steps }
    ensures { IfOk result (λ ps. ps ≡ used_positions over.now.formula.now round.now) }
{
    let first = match round.steps.as_slice().first() {
        Some(step) => step.number,
        None => return Ok(List::new(alloc)),
    };
    positions_used(alloc, over, first, round)
}

/// The positions that steps use, ascending: those that are reached backwards from the last one. The steps
/// are numbered from `first` on, above the number of the formula's clauses, and name lower numbers.
pub(crate) fn positions_used<S: Chains>(
    alloc: Global,
    over: &Crossed,
    first: u64,
    steps: &S,
) -> Result<List<u32>, OutOfMemory>
    requires numbers { IsTrue (are_numbered first (S.steps steps.now)) }
    requires names { IsTrue (list_all names_lower (S.steps steps.now)) }
    requires past { length over.now.formula.now.clauses < first }
    ensures { IfOk result (λ ps. ps ≡ used_positions over.now.formula.now (record { steps = S.steps steps.now })) }
{
    let marks = marks_over(alloc, over, first, steps)?;
    marked_positions(alloc, over, &marks)
}

/// Marks the steps and the positions that are reached backwards from the last step. The steps are as
/// `positions_used` requires.
pub(crate) fn marks_over<S: Chains>(
    alloc: Global,
    over: &Crossed,
    first: u64,
    steps: &S,
) -> Result<Marks, OutOfMemory>
    requires numbers { IsTrue (are_numbered first (S.steps steps.now)) }
    requires names { IsTrue (list_all names_lower (S.steps steps.now)) }
    requires past { length over.now.formula.now.clauses < first }
    ensures shape { IfOk result
        (HaveShape (length over.now.formula.now.clauses + 1) first (length (S.steps steps.now))) }
    ensures marks { IfOk result (AreMarks (reached (S.steps steps.now))) }
{
    let bound = over.formula.len() as usize + 1;
    marks_of(alloc, bound, first, steps)
}

/// The positions with a mark, ascending. They are those that steps use, if what these reach is marked.
pub(crate) fn marked_positions(
    alloc: Global,
    over: &Crossed,
    marks: &Marks,
) -> Result<List<u32>, OutOfMemory>
    requires { length marks.now.positions.items ≡ length over.now.formula.now.clauses + 1 }
    ensures { (steps : List AStep) → AreMarks (reached steps) marks.now →
        IfOk result (λ ps. ps ≡ used_positions over.now.formula.now (record { steps = steps })) }
{
    let _formula = over.formula.len();
    marked_places(alloc, &marks.positions)
}

// The places of the marks from 1 on.
fn marked_places(alloc: Global, marks: &[bool]) -> Result<List<u32>, OutOfMemory>
    requires some { 0 < length marks.now }
    requires few { length marks.now < 2 ^ 32 }
    ensures { IfOk result
        (λ ps. ps ≡ filter (λ p. slice_index_or marks.now p false) (range_with_len 1 (length marks.now - 1))) }
{
    let mut positions = List::new(alloc);
    for p in 1..marks.len() {
        if marks[p] {
            positions.push(p as u32)?;
        }
    }
    Ok(positions)
}
