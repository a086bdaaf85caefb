//! Live clauses and their matching kernel.
//!
//! A maximum matching of the live clauses is kept through all edits. After a clause is added, one search from it makes
//! the matching maximum again; after a matched clause is removed, one search from its variable does (Berge, "Two
//! Theorems in Graph Theory", 1957; here by the covers of König 1931). So an edit costs one search, and the kernel one
//! more. Where a search has no memory, the edit is taken back.
//!
//! The matching alone says which clauses are live: those that a variable has, and those that have none. So an edit moves
//! no list of all live clauses.
ghost use Rattle.std.specs.Prelude.{◌≡◌, ◌+◌, ◌≤◌, ◌↔◌, length, OnOk, OnErr, IfOk, IsErrOf, IsTrue, IsFalse};
ghost use Rattle.lk_model.specs.Lists.{among};
ghost use Rattle.lk_model.specs.Formulas.Literal.{is_clause};
ghost use Rattle.lk_model.specs.Formulas.Lean.{KernelWithin};
ghost use Rattle.lk_model.specs.declared.class.Class.TheVariants.{Matching as TheMatching};
ghost use Rattle.edit_text.specs.LiveClauses.{live_of, with_added, with_removed};
ghost use Rattle.edit_text.specs.Edits.{has_room};
ghost use Rattle.match_edits.specs.LiveKernel.{IsLiveKernel};

use crate::laws::edit_laws;
use crate::parts::{go_unmatched, has_room, index_of, let_go, take_up, variable_of, well_formed};
use crate::stop::EditStop;
use bipartite_match::{Matching, Pairs, Steps, maximum};
use lk_model::{Formula, List, Lit, OutOfMemory, VarSet};
use matching_kernel::kernel_reached_law;
use std::alloc::Global;
use std::marker::Model;

/// Clauses over the variables from 1 to n, of which some are live. Each has a number for good: those of the formula
/// that it began with 1 to M, in their order, added ones M + 1 and so on; the number of a removed one is not used
/// again.
#[derive(Drop)]
pub struct Live {
    // all clauses that were ever held, each at the position that is its number
    held: Formula,
    // a matching of the live ones, by their numbers
    pairs: Pairs,
    // marks on variables, of which none is set between two searches
    marks: VarSet,
}

impl Model for Live {
    ghost use Rattle.edit_text.specs.LiveClauses.{LiveClauses};
    ghost use Rattle.match_edits.specs.Held.{IsHeld, live_in};

    ghost Value = { LiveClauses };

    ghost view = { λ s. record { held = s.held; live = live_in s.held s.pairs } };

    ghost invariant = { λ s. IsHeld s.held s.pairs s.marks };
}

impl Live {
    /// All clauses of a formula, with their positions as numbers.
    pub fn of(alloc: Global, f: &Formula) -> Result<Live, OutOfMemory>
        ensures { IfOk result (λ s. s ≡ live_of f.now) }
    {
        let live = f.positions(alloc)?;
        let Matching {
            of_var,
            unmatched,
            seen,
            ..
        } = maximum(alloc, f, live.as_slice())?;
        let held = f.copy(alloc)?;
        Ok(Live {
            held,
            pairs: Pairs { of_var, unmatched },
            marks: seen,
        })
    }

    /// Adds a clause over the variables in which no literal stands twice, and returns its number. The error is `Limit`,
    /// whatever memory there is, if the clauses ever held would be more than 4,000,000 with it, or their literals
    /// more than 20,000,000. After an error all is as it was.
    pub fn add<L>(
        &mut self,
        alloc: Global,
        lits: &[Lit],
        steps: &mut Steps<L>,
    ) -> Result<u32, EditStop>
        requires { IsTrue (is_clause self.old.held.vars lits.now) }
        ensures ok { OnOk result (self.new ≡ with_added self.old lits.now) }
        ensures number { IfOk result (λ n. n ≡ length self.old.held.clauses + 1) }
        ensures err { OnErr result (self.new ≡ self.old) }
        ensures limit { IsErrOf result EditStop.Limit ↔ IsFalse (has_room self.old lits.now) }
        ensures one { IsErrOf result EditStop.NoClause → ⊥ }
        ensures steps { steps.new ≤ steps.old + 1 }
    {
        if !has_room(&self.held, lits) {
            return Err(EditStop::Limit);
        }
        let number = self.held.len() + 1;
        self.held.push_within(lits)?;
        edit_laws();
        if let Err(e) = take_up(
            alloc,
            &self.held,
            &mut self.pairs,
            &mut self.marks,
            number,
            steps,
        ) {
            self.held.pop_clause();
            return Err(EditStop::from(e));
        }
        Ok(number)
    }

    /// Removes the live clause of a number. The error is `NoClause` if there is none. After an error all is as it
    /// was.
    pub fn remove<L>(
        &mut self,
        alloc: Global,
        number: u32,
        steps: &mut Steps<L>,
    ) -> Result<(), EditStop>
        ensures ok { OnOk result (self.new ≡ with_removed self.old number) }
        ensures err { OnErr result (self.new ≡ self.old) }
        ensures none { IsErrOf result EditStop.NoClause ↔ IsFalse (among self.old.live number) }
        ensures limit { IsErrOf result EditStop.Limit → ⊥ }
        ensures steps { steps.new ≤ steps.old + 1 }
    {
        well_formed(&self.held);
        edit_laws();
        if let Some(v) = variable_of(&self.held, self.pairs.of_var.as_slice(), number) {
            let_go(
                alloc,
                &self.held,
                &mut self.pairs,
                &mut self.marks,
                v,
                steps,
            )?;
            return Ok(());
        }
        let Some(index) = index_of(self.pairs.unmatched.as_slice(), number) else {
            return Err(EditStop::NoClause);
        };
        go_unmatched(&mut self.pairs, index);
        Ok(())
    }

    /// The numbers, ascending, of the matching kernel of the live clauses in the order of their numbers.
    pub fn kernel(&self, alloc: Global) -> Result<List<u32>, OutOfMemory>
        ensures kernel { IfOk result (λ numbers. IsLiveKernel self.now numbers) }
        ensures largest { IfOk result (λ numbers. KernelWithin TheMatching self.now.held self.now.live numbers) }
    {
        well_formed(&self.held);
        kernel_reached_law();
        let mut marks = VarSet::new(alloc, self.held.vars())?;
        self.pairs.reached_positions(alloc, &self.held, &mut marks)
    }

    /// The numbers that `kernel` returns, by a search that marks what it visits in what is kept for this. So it costs
    /// the clauses of the kernel, and not a table of all variables; what is live does not change.
    pub fn kernel_by_marks(&mut self, alloc: Global) -> Result<List<u32>, OutOfMemory>
        ensures kernel { IfOk result (λ numbers. IsLiveKernel self.old numbers) }
        ensures largest { IfOk result (λ numbers. KernelWithin TheMatching self.old.held self.old.live numbers) }
        ensures same { self.new ≡ self.old }
    {
        well_formed(&self.held);
        kernel_reached_law();
        self.pairs
            .reached_positions(alloc, &self.held, &mut self.marks)
    }
}
