//! What is reached backwards from the last step.
//!
//! One pass from the last step to the first, with a mark for each step and position, as proofs are trimmed from the
//! empty clause backwards (Heule, Hunt and Wetzler, "Trimming while Checking Clausal Proofs", 2013). Here the chains
//! are stated, so no propagation is needed to know what a step uses.
ghost use Rattle.std.specs.Prelude.{◌≡◌, ℕ, ◌+◌, ◌-◌, ◌<◌, ◌≤◌, [], ◌∷◌, ◌++◌, nat_lt, List, length, drop, IfOk};
ghost use Rattle.std.specs.Prelude.{IsTrue};
ghost use Rattle.std.specs.List.{list_all};
ghost use Rattle.lk_model.specs.Chains.Chain.{names_of};
ghost use Rattle.lk_model.specs.Chains.Rounds.{reached};
ghost use Rattle.lk_model.specs.declared.document.Step.{Step as AStep};
ghost use Rattle.refutation_log.specs.Derivation.{are_numbered, names_lower};
ghost use Rattle.refutation_log.specs.Marks.{AreMarks, HaveSameShape, HaveShape, names_at};

use crate::logged_step::LoggedStep;
use lk_model::{OutOfMemory, Round, Step};
use std::alloc::Global;

/// A mark for each position below a bound, and one for each of the steps that are numbered from
/// `first` on.
#[derive(Drop)]
pub(crate) struct Marks {
    pub(crate) first: u64,
    pub(crate) positions: Vec<bool>,
    pub(crate) steps: Vec<bool>,
}

impl Marks {
    // Without a mark.
    fn new(alloc: Global, bound: usize, first: u64, count: usize) -> Result<Marks, OutOfMemory>
        requires { bound ≤ first }
        ensures shape { IfOk result (λ m. HaveShape bound first count m) }
        ensures marks { IfOk result (λ m. AreMarks [] m) }
    {
        Ok(Marks {
            first,
            positions: vec![in alloc; false; bound]?,
            steps: vec![in alloc; false; count]?,
        })
    }

    // Marks a number.
    fn mark(&mut self, k: u64)
        requires { k < self.old.first + length self.old.steps.items }
        ensures shape { HaveSameShape self.old self.new }
        ensures marks { (known : List ℕ) → AreMarks known self.old → AreMarks (k ∷ known) self.new }
    {
        if k >= self.first {
            self.steps[(k - self.first) as usize] = true;
        } else if k < self.positions.len() as u64 {
            self.positions[k as usize] = true;
        }
    }

    // Marks the step at a place.
    fn mark_place(&mut self, at: usize)
        requires { at < length self.old.steps.items }
        ensures shape { HaveSameShape self.old self.new }
        ensures marks { (known : List ℕ) → AreMarks known self.old → AreMarks ((self.old.first + at) ∷ known) self.new }
    {
        self.steps[at] = true;
    }

    // Marks the numbers that the chain of a step names.
    fn mark_names(&mut self, step: &Step)
        requires { IsTrue
            (list_all (λ k. nat_lt k (self.old.first + length self.old.steps.items)) (names_of step.now)) }
        ensures shape { HaveSameShape self.old self.new }
        ensures marks { (known : List ℕ) → AreMarks known self.old → AreMarks (names_of step.now ++ known) self.new }
    {
        self.mark(step.first);
        for turn in step.turns.as_slice() {
            self.mark(turn.with);
        }
    }

    // Marks the numbers that the chain of a step of a log names.
    fn mark_logged(&mut self, step: &LoggedStep)
        requires { IsTrue
            (list_all (λ k. nat_lt k (self.old.first + length self.old.steps.items)) (names_of step.now)) }
        ensures shape { HaveSameShape self.old self.new }
        ensures marks { (known : List ℕ) → AreMarks known self.old → AreMarks (names_of step.now ++ known) self.new }
    {
        self.mark(step.first());
        let turns = step.turns();
        for at in 0..turns.len() {
            self.mark(turns.get(at).with);
        }
    }
}

/// Steps whose chains can be marked: those of a round, and of a log.
pub(crate) trait Chains {
    ghost steps: { Self → List AStep };

    /// How many steps there are.
    fn count(&self) -> usize
        ensures { result ≡ length (steps self.now) };

    /// Marks the numbers that the chain of the step at a place names.
    fn mark_names(&self, at: usize, marks: &mut Marks)
        requires within { at < length (steps self.now) }
        requires names { IsTrue
            (list_all (λ k. nat_lt k (marks.old.first + length marks.old.steps.items)) (names_at (steps self.now) at)) }
        ensures shape { HaveSameShape marks.old marks.new }
        ensures marks { (known : List ℕ) → AreMarks known marks.old →
            AreMarks (names_at (steps self.now) at ++ known) marks.new };
}

impl Chains for Round {
    ghost steps = { λ r. r.steps };

    fn count(&self) -> usize {
        self.steps.len()
    }

    fn mark_names(&self, at: usize, marks: &mut Marks) {
        marks.mark_names(&self.steps.as_slice()[at]);
    }
}

impl Chains for Vec<LoggedStep> {
    ghost steps = { λ v. v.items };

    fn count(&self) -> usize {
        self.len()
    }

    fn mark_names(&self, at: usize, marks: &mut Marks) {
        marks.mark_logged(&self[at]);
    }
}

/// Marks what is reached backwards from the last step, in one pass.
pub(crate) fn marks_of<S: Chains>(
    alloc: Global,
    bound: usize,
    first: u64,
    steps: &S,
) -> Result<Marks, OutOfMemory>
    requires bound { bound ≤ first }
    requires numbers { IsTrue (are_numbered first (S.steps steps.now)) }
    requires names { IsTrue (list_all names_lower (S.steps steps.now)) }
    ensures shape { IfOk result (λ m. HaveShape bound first (length (S.steps steps.now)) m) }
    ensures marks { IfOk result (λ m. AreMarks (reached (S.steps steps.now)) m) }
{
    let count = steps.count();
    let mut marks = Marks::new(alloc, bound, first, count)?;
    if count > 0 {
        marks.mark_place(count - 1);
        steps.mark_names(count - 1, &mut marks);
        mark_others(&mut marks, steps);
    }
    Ok(marks)
}

// Goes on from the marks of the last step.
fn mark_others<S: Chains>(marks: &mut Marks, steps: &S)
    requires some { 0 < length (S.steps steps.now) }
    requires numbers { IsTrue (are_numbered marks.old.first (S.steps steps.now)) }
    requires names { IsTrue (list_all names_lower (S.steps steps.now)) }
    requires count { length marks.old.steps.items ≡ length (S.steps steps.now) }
    requires last { AreMarks (reached (drop (length (S.steps steps.now) - 1) (S.steps steps.now))) marks.old }
    ensures shape { HaveSameShape marks.old marks.new }
    ensures marks { AreMarks (reached (S.steps steps.now)) marks.new }
{
    let mut at = steps.count() - 1;
    while at > 0 {
        at -= 1;
        if marks.steps[at] {
            steps.mark_names(at, marks);
        }
    }
}
