//! The clauses around one.
//!
//! From a first clause those are gathered that share an unset variable with one that is there, as far as they have few
//! unset literals, and the clauses that forced what is false in them. So what small clauses refute by themselves is
//! found at the cost of these clauses. No contract says which they are: any clauses of the part will do.
ghost use Rattle.std.specs.Prelude.{◌≡◌, ◌<◌, ◌*◌, ◌+◌, length, IsTrue};
ghost use Rattle.lk_model.specs.Formulas.Literal.{complement, is_clause, rank_of};
ghost use Rattle.lk_model.specs.Held.VariableSets.{IsCrossed};
ghost use Rattle.unit_refutations.specs.Standing.{IsKept};

use crate::units::Units;
use lk_model::{Crossed, Formula, Lit, OutOfMemory, VarSet};
use std::alloc::Global;

/// At most this many clauses are gathered, apart from those that force something.
const NEAR: usize = 64;

/// Others are gathered around at most this many clauses.
const MOST: usize = 1024;

/// Of each list of clauses at most this many are looked at.
const LOOKED_AT: usize = 256;

/// Nothing is gathered around a longer clause.
const LONG: usize = 256;

/// Positions of clauses, and a flag for each of them.
#[derive(Drop)]
pub struct Around {
    positions: Vec<u32>,
    flags: Vec<bool>,
}

impl Around {
    /// No position of a formula.
    pub fn new(alloc: Global, f: &Formula) -> Result<Around, OutOfMemory> {
        Ok(Around {
            positions: Vec::new(alloc),
            flags: vec![in alloc; false; f.len() as usize + 1]?,
        })
    }

    /// The positions.
    pub fn positions(&self) -> &[u32] {
        self.positions.as_slice()
    }

    /// Gathers the positions around one, in the place of those before.
    pub fn gather(&mut self, units: &Units, over: &Crossed, seed: u32) -> Result<(), OutOfMemory>
        requires crossed { IsCrossed over.now }
        requires kept { IsKept over.now.formula.now over.now.blocked.now units.now }
    {
        let unset = units.unset_at(seed).unwrap_or(0).saturating_add(1);
        self.clear();
        self.add(seed)?;
        for at in 0..MOST {
            match self.positions.get(at).copied() {
                Some(position) => self.add_around(units, over, position, unset)?,
                None => return Ok(()),
            }
        }
        Ok(())
    }

    // Takes all positions out.
    fn clear(&mut self) {
        for position in &self.positions {
            if let Some(flag) = self.flags.get_mut(*position as usize) {
                *flag = false;
            }
        }
        self.positions.clear();
    }

    // Puts a position in.
    fn add(&mut self, position: u32) -> Result<(), OutOfMemory> {
        if let Some(flag) = self.flags.get_mut(position as usize) {
            if !*flag {
                *flag = true;
                self.positions.push(position)?;
            }
        }
        Ok(())
    }

    // Puts those in that the clause at a position leads to.
    fn add_around(
        &mut self,
        units: &Units,
        over: &Crossed,
        position: u32,
        unset: u32,
    ) -> Result<(), OutOfMemory>
        requires crossed { IsCrossed over.now }
        requires kept { IsKept over.now.formula.now over.now.blocked.now units.now }
    {
        if position == 0 || position > over.formula.len() {
            return Ok(());
        }
        let clause = over.formula.clause(position);
        if clause.len() > LONG {
            return Ok(());
        }
        self.add_by_clause(units, clause, over.blocked, unset)
    }

    // Puts those in that a clause leads to.
    fn add_by_clause(
        &mut self,
        units: &Units,
        clause: &[Lit],
        blocked: &VarSet,
        unset: u32,
    ) -> Result<(), OutOfMemory>
        requires clause { IsTrue (is_clause (length blocked.now) clause.now) }
        requires size { length units.now.lists ≡ 2 * length blocked.now + 2 }
    {
        for l in clause {
            if !blocked.has(l.var()) {
                self.add_by_literal(units, *l, unset)?;
            }
        }
        Ok(())
    }

    // Puts the clause in that made a literal false; if it is unset, the clauses with its variable that have at most
    // `unset` unset literals.
    fn add_by_literal(&mut self, units: &Units, l: Lit, unset: u32) -> Result<(), OutOfMemory>
        requires rank { rank_of l < length units.now.lists }
        requires other { rank_of (complement l) < length units.now.lists }
    {
        if let Some(reason) = units.trail.reason_of(l.negated()) {
            return self.add(reason);
        }
        if units.trail.reason_of(l).is_none() && self.positions.len() < NEAR {
            self.add_open(units, units.lists.positions(l), unset)?;
            self.add_open(units, units.lists.positions(l.negated()), unset)?;
        }
        Ok(())
    }

    // Puts those of some positions in at whose clauses no literal is true, and at most `unset` literals are unset.
    fn add_open(
        &mut self,
        units: &Units,
        positions: &[u32],
        unset: u32,
    ) -> Result<(), OutOfMemory> {
        let count = positions.len().min(LOOKED_AT);
        for position in &positions[..count] {
            if let Some(open) = units.unset_at(*position) {
                if open <= unset && self.positions.len() < NEAR {
                    self.add(*position)?;
                }
            }
        }
        Ok(())
    }
}
