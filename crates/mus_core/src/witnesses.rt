//! Witnesses: for places of a refuted set, values that satisfy all its clauses but the one there.
ghost use Rattle.std.specs.Prelude.{◌≡◌, ◌≢◌, ◌<◌, ◌≤◌, ℕ, Some, None, find, not, is_some, length, replicate, IfOk};
ghost use Rattle.std.specs.Prelude.{IfSome};
ghost use Rattle.lk_model.specs.Held.VariableSets.{is_in};
ghost use Rattle.mus_core.specs.WitnessValues.{witness_at, literals_at};

use general_kernel::literals_on;
use lk_model::{List, Lit, OutOfMemory, VarSet};
use partial_assign::Partial;
use std::alloc::Global;
use std::marker::Model;

/// Values for places from 1 on, where there are some. Contracts see the list of them.
#[derive(Drop)]
pub(crate) struct Witnesses {
    values: Vec<Option<Partial>>,
}

impl Model for Witnesses {
    ghost use Rattle.std.specs.Prelude.{List, Option, Bool};

    ghost Value = { List (Option (List (Option Bool))) };

    ghost view = { λ w. w.values.items };
}

impl Witnesses {
    /// None for the places up to m.
    pub fn new(alloc: Global, m: u32) -> Result<Witnesses, OutOfMemory>
        ensures { IfOk result (λ w. w ≡ replicate m None) }
    {
        let mut values = Vec::new(alloc);
        for _ in 0..m {
            values.push(None)?;
        }
        Ok(Witnesses { values })
    }

    /// Whether there is one for a place.
    pub fn has(&self, p: u32) -> bool
        ensures { result ≡ is_some (witness_at self.now p) }
    {
        match self.values.get(p.saturating_sub(1) as usize) {
            Some(witness) => witness.is_some(),
            None => false,
        }
    }

    /// Gives one to a place.
    pub fn put(&mut self, p: u32, values: Partial)
        requires first { 0 < p }
        requires last { p ≤ length self.old }
        ensures size { length self.new ≡ length self.old }
        ensures own { witness_at self.new p ≡ Some values }
        ensures others { (q : ℕ) → 0 < q → q ≢ p → witness_at self.new q ≡ witness_at self.old q }
    {
        self.values[p as usize - 1] = Some(values);
    }

    /// A copy of the values for a place, where there are some.
    pub fn copy(&self, alloc: Global, p: u32) -> Result<Option<Partial>, OutOfMemory>
        ensures { IfOk result (λ copy. copy ≡ witness_at self.now p) }
    {
        match self.values.get(p.saturating_sub(1) as usize) {
            Some(Some(values)) => Ok(Some(values.copy(alloc)?)),
            _ => Ok(None),
        }
    }

    /// The true literals of the values for a place, on the variables of a set, ascending. There are none where there are
    /// no values.
    pub fn literals(&self, alloc: Global, vars: &VarSet, p: u32) -> Result<List<Lit>, OutOfMemory>
        requires { (q : ℕ) → IfSome (witness_at self.now q) (λ values. length values ≡ length vars.now) }
        ensures { IfOk result (λ ls. ls ≡ literals_at (length vars.now) (is_in vars.now) self.now p) }
    {
        match self.values.get(p.saturating_sub(1) as usize) {
            Some(Some(values)) => literals_on(alloc, vars, values),
            _ => Ok(List::new(alloc)),
        }
    }
}

/// The first place without a witness.
pub(crate) fn first_open(places: &[u32], witnesses: &Witnesses) -> Option<u32>
    ensures { result ≡ find (λ p. not (is_some (witness_at witnesses.now p))) places.now }
{
    places.iter().copied().find(|p| !witnesses.has(*p))
}
