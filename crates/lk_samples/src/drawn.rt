//! Formulas that are drawn from a seed.
ghost use Rattle.std.specs.Prelude.{◌≡◌, ◌<◌, ◌≤◌, IfOk};

use lk_model::{Formula, Lit, makes_clause};
use std::alloc::Global;
use std::test::Fail;

/// The numbers of a linear congruence.
#[derive(Drop)]
pub struct Numbers {
    state: u32,
}

impl Numbers {
    /// Those of a seed.
    pub fn new(seed: u32) -> Numbers {
        Numbers { state: seed }
    }

    /// The next one, below a bound.
    pub fn below(&mut self, bound: u32) -> u32
        requires { 0 < bound }
        ensures { result < bound }
    {
        let state = self
            .state
            .wrapping_mul(1_664_525)
            .wrapping_add(1_013_904_223);
        self.state = state;
        (state >> 16) % bound
    }

    /// A literal of the variables from 1 to n.
    pub fn lit(&mut self, n: u32) -> Result<Lit, Fail>
        requires some { 0 < n }
        requires few { n ≤ 1000000 }
    {
        let var = self.below(n) + 1;
        Ok(Lit::from_var(var, self.below(2) == 0))
    }

    /// One to `most` literals of the variables from 1 to n, some of which may be equal.
    pub fn literals(&mut self, alloc: Global, n: u32, most: u32) -> Result<Vec<Lit>, Fail>
        requires some { 0 < n }
        requires few { n ≤ 1000000 }
        requires literals { 0 < most }
    {
        let mut lits = Vec::new(alloc);
        for _ in 0..self.below(most) + 1 {
            lits.push(self.lit(n)?)?;
        }
        Ok(lits)
    }
}

/// A formula over the variables from 1 to n with at most `count` clauses, of one to three literals
/// each, drawn from a seed.
pub fn drawn_formula(alloc: Global, n: u32, seed: u32, count: u32) -> Result<Formula, Fail>
    requires some { 0 < n }
    requires few { n ≤ 1000000 }
    ensures { IfOk result (λ f. f.vars ≡ n) }
{
    let mut formula = Formula::new(alloc, n)?;
    let mut numbers = Numbers::new(seed);
    for _ in 0..count {
        let clause = numbers.literals(alloc, n, 3)?;
        if makes_clause(n, clause.as_slice()) {
            formula.push_clause(clause.as_slice())?;
        }
    }
    Ok(formula)
}
