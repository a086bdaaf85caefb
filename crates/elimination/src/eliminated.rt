//! What an elimination leaves.
ghost use Rattle.std.specs.Prelude.{◌≡◌, ◌<◌, ◌≤◌, IfOk, IsTrue, length, not};
ghost use Rattle.std.specs.List.{list_all};
ghost use Rattle.lk_model.specs.Lists.{is_empty};
ghost use Rattle.lk_model.specs.Formulas.Formula.{clause_at};
ghost use Rattle.lk_model.specs.Formulas.Lean.{are_positions};

use crate::chains::Chains;
use crate::eliminating::eliminate_all;
use crate::eliminator::{Eliminator, Removed};
use crate::extending::extended;
use crate::needed::{append, needed_chains};
use lk_model::{Formula, List, Lit, OutOfMemory, Round};
use partial_assign::Partial;
use refutation_log::Chain;
use std::alloc::Global;

/// The clauses of a formula, and those that its elimination derived, numbered from 1 on; of these the ones that are left.
#[derive(Drop)]
pub struct Eliminated {
    clauses: Formula,
    /// By number, from 1 on.
    is_left: Vec<bool>,
    chains: Chains,
    /// What unit clauses make true.
    units: Vec<Lit>,
    removed: Vec<Removed>,
    is_refuted: bool,
}

/// For each clause whether it is left. A unit clause whose variable has no other clause is not.
fn left(alloc: Global, e: &Eliminator) -> Result<Vec<bool>, OutOfMemory> {
    let mut left = Vec::new(alloc);
    for k in 0..e.table.len() {
        let is_alone = match e.table.clause(k + 1) {
            [l] => e.table.count(*l) <= 1 && e.table.count(l.negated()) == 0,
            _ => false,
        };
        left.push(e.table.is_live(k + 1) && !is_alone)?;
    }
    Ok(left)
}

impl Eliminated {
    /// Eliminates variables of a formula. Time and memory are linear in it. The error is that there is no memory.
    pub fn of(alloc: Global, f: &Formula) -> Result<Eliminated, OutOfMemory> {
        let mut e = Eliminator::of(alloc, f)?;
        eliminate_all(&mut e)?;
        let is_left = left(alloc, &e)?;
        let is_refuted = e.is_refuted;
        let chains = e.chains;
        let removed = e.removed;
        let units = e.units.into_trail();
        let clauses = e.table.into_clauses();
        Ok(Eliminated {
            clauses,
            is_left,
            chains,
            units,
            removed,
            is_refuted,
        })
    }

    /// All clauses: first those of the formula, then derived ones.
    pub fn clauses(&self) -> &Formula
        ensures { result.now ≡ self.now.clauses }
    {
        &self.clauses
    }

    /// The positions of the clauses that are left, ascending. They have a model exactly where the formula has one, but no
    /// clause says so.
    pub fn left(&self, alloc: Global) -> Result<List<u32>, OutOfMemory>
        ensures positions { IfOk result (λ ps. IsTrue (are_positions self.now.clauses ps)) }
        ensures filled { IfOk result (λ ps. IsTrue (list_all (λ p. not (is_empty (clause_at self.now.clauses p))) ps)) }
    {
        let mut positions = List::new(alloc);
        for k in 0..self.clauses.len() {
            let position = k + 1;
            if self.stays(position) {
                positions.push(position)?;
            }
        }
        Ok(positions)
    }

    /// Whether the clause at a position is left and not empty.
    fn stays(&self, position: u32) -> bool
        requires first { 0 < position }
        requires last { position ≤ length self.now.clauses.clauses }
        ensures { IsTrue result → IsTrue (not (is_empty (clause_at self.now.clauses position))) }
    {
        let index = position as usize - 1;
        self.is_left.get(index).copied().unwrap_or(false)
            && !self.clauses.clause(position).is_empty()
    }

    /// Whether the empty clause was derived.
    pub fn is_refuted(&self) -> bool {
        self.is_refuted
    }

    /// The chains of a refutation of the formula, each of the number after the one before, from the formula's number of
    /// clauses plus 1 on: those that are needed, of what was derived and of a refutation of what is left, whose steps are
    /// numbered from the number of all clauses plus 1. Without one the last derived clause is to be empty.
    pub fn refutation(self, alloc: Global, rest: Option<Round>) -> Result<Vec<Chain>, OutOfMemory> {
        let positions = (self.clauses.len() as usize).saturating_sub(self.chains.len());
        let mut chains = self.chains;
        if let Some(round) = rest {
            append(alloc, &mut chains, &round)?;
        }
        needed_chains(alloc, positions, &chains)
    }

    /// Values for all variables: those of unit clauses and of a model of what is left, given by literals, and for each
    /// variable that went the one that its clauses need.
    pub fn model(self, alloc: Global, rest: &[Lit]) -> Result<Partial, OutOfMemory>
        ensures { IfOk result (λ values. length values ≡ self.clauses.vars) }
    {
        extended(
            alloc,
            &self.clauses,
            self.units.as_slice(),
            rest,
            self.removed.as_slice(),
        )
    }
}
