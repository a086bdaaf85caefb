//! The variables that occur in clauses.
ghost use Rattle.std.specs.Prelude.{◌≡◌, ◌≤◌, IfOk, IsTrue};
ghost use Rattle.std.specs.List.{All};
ghost use Rattle.lk_model.specs.Limits.{max_vars};
ghost use Rattle.lk_model.specs.Formulas.Formula.{variables_at, IsWithinLimits};
ghost use Rattle.lk_model.specs.Formulas.Lean.{are_positions};

use crate::crossed::VarSet;
use crate::formula::Formula;
use crate::list::{List, OutOfMemory};
use std::alloc::Global;

impl Formula {
    /// The variables that occur in the clauses at positions of the formula, ascending. With all
    /// positions their number is that of the variables that occur at all.
    pub fn occurring(&self, alloc: Global, part: &[u32]) -> Result<List<u32>, OutOfMemory>
        requires { IsTrue (are_positions self.now part.now) }
        ensures value { IfOk result (λ vs. vs ≡ variables_at self.now part.now) }
        ensures range { IfOk result (All (λ v. v ≤ max_vars)) }
        ensures limits { IsWithinLimits self.now }
    {
        let mut seen = VarSet::new(alloc, self.vars())?;
        seen.add_clauses(self, part);
        let mut vars = List::new(alloc);
        for v in 0..self.vars() {
            if seen.has(v + 1) {
                vars.push(v + 1)?;
            }
        }
        Ok(vars)
    }
}
