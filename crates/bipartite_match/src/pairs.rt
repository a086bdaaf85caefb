//! Matchings of which no table by clauses is held.
//!
//! A search asks only which clause a variable has, and which clauses have none. So where clauses come and go, the rest
//! of a matching, the part and the variable of each of its clauses, is left to contracts: no list is made anew then.
ghost use Rattle.std.specs.Prelude.{◌≡◌, ◌+◌, ℕ, List, OnErr, IfOk, false, map};
ghost use Rattle.bipartite_match.specs.declared.visits.Visit.{Visit as AVisit};
ghost use Rattle.bipartite_match.specs.Walks.{AreReached};
ghost use Rattle.bipartite_match.specs.Behind.{matching_of, CanAugment, CanReach, IsOutcome};

use crate::augmenting::Start;
use crate::exchange::{exchange, index_of};
use crate::steps::Steps;
use crate::visits::{Visit, Visits};
use lk_model::{Formula, List, OutOfMemory, VarSet};
use std::alloc::Global;

/// A matching, by its variables: for each its position or 0.
#[derive(Drop)]
pub struct Pairs {
    pub of_var: List<u32>,
    /// The positions of the clauses that have no variable, ascending.
    pub unmatched: List<u32>,
}

impl Pairs {
    /// Makes the matching greater by one pair, as `augment` does, by marks of which none is set.
    pub fn augment<L>(
        &mut self,
        alloc: Global,
        f: &Formula,
        marks: &mut VarSet,
        from: Start,
        steps: &mut Steps<L>,
    ) -> Result<bool, OutOfMemory>
        requires can { (part : List ℕ) × (own : List ℕ) ×
            CanAugment f.now part (matching_of own self.old marks.old) from }
        ensures outcome { (part own : List ℕ) → CanAugment f.now part (matching_of own self.old marks.old) from
            → IfOk result (λ b. (after : List ℕ) × IsOutcome f.now part from
            (matching_of own self.old marks.old) (matching_of after self.new marks.new) b) }
        ensures same { IfOk result (λ b. b ≡ false → self.new ≡ self.old) }
        ensures err { OnErr result (self.new ≡ self.old) }
        ensures marks { marks.new ≡ marks.old }
        ensures step { steps.new ≡ steps.old + 1 }
    {
        steps.tick();
        let visits = Visits::of(
            alloc,
            f,
            self.of_var.as_slice(),
            self.unmatched.as_slice(),
            marks,
            from,
        )?;
        if visits.end == 0 {
            return Ok(false);
        }
        let root = exchange(&visits, &mut self.of_var);
        let place = index_of(self.unmatched.as_slice(), root);
        self.unmatched.remove(place);
        Ok(true)
    }

    /// The positions, ascending, that alternating walks from the unmatched clauses reach. It costs what it visits, and
    /// to sort this.
    pub fn reached_positions(
        &self,
        alloc: Global,
        f: &Formula,
        marks: &mut VarSet,
    ) -> Result<List<u32>, OutOfMemory>
        requires can { (part : List ℕ) × (own : List ℕ) × CanReach f.now part (matching_of own self.now marks.old) }
        ensures reached { (part own : List ℕ) → CanReach f.now part (matching_of own self.now marks.old)
            → IfOk result (AreReached f.now part (matching_of own self.now marks.old)) }
        ensures same { marks.new ≡ marks.old }
    {
        // From all unmatched clauses, to any free variable: there is none.
        let visits = Visits::of(
            alloc,
            f,
            self.of_var.as_slice(),
            self.unmatched.as_slice(),
            marks,
            Start::Variable(0),
        )?;
        let mut reached = positions_of(alloc, &visits.queue)?;
        reached.sort_unstable();
        reached.dedup();
        Ok(List::from_vec(reached))
    }
}

// The positions that were visited.
fn positions_of(alloc: Global, queue: &[Visit]) -> Result<Vec<u32>, OutOfMemory>
    ensures { IfOk result (λ v. v.items ≡ map (λ (x : AVisit). x.pos) queue.now) }
{
    Ok(queue.iter().map(|visit| visit.pos).collect(alloc)?)
}
