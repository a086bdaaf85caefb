//! Refutations of a copy, restated for the part.
//!
//! What refutes all clauses of a copy refutes the crossed clauses, under their numbers. But a search over the part learns
//! no clause that contains one which the copy does not have. So each clause is asked whether it is learned.
ghost use Rattle.std.specs.Prelude.{◌≡◌, ◌≤◌, length, IfOk, IfSome, IsTrue};
ghost use Rattle.lk_model.specs.Formulas.Crossed.{no_variable};
ghost use Rattle.lk_model.specs.Formulas.Formula.{positions_of};
ghost use Rattle.lk_model.specs.Held.VariableSets.{is_in, IsCrossed};
ghost use Rattle.unit_refutations.specs.Standing.{IsKept};
ghost use Rattle.crossed_copy.specs.Copied.{IsCopyOf};
ghost use Rattle.crossed_copy.specs.Learning.{are_learned};
ghost use Rattle.crossed_copy.specs.Told.{IsTold, Refutes};

use crate::copying::CrossedCopy;
use crate::learned::are_learned;
use lk_model::{Crossed, List, OutOfMemory, Round};
use result_renaming::Renaming;
use std::alloc::Global;
use unit_refutations::Units;

/// A refutation, and the positions that it uses, ascending.
#[derive(Drop)]
pub struct CrossedRefutation {
    pub round: Round,
    pub used: List<u32>,
}

impl CrossedCopy {
    /// The refutation over the crossed clauses that one of all clauses of the copy is, with steps numbered from the number
    /// after `last` on; none if one of its clauses may not be learned.
    pub fn learned(
        &self,
        alloc: Global,
        over: &Crossed,
        units: &Units,
        last: u64,
        refutation: CrossedRefutation,
    ) -> Result<Option<CrossedRefutation>, OutOfMemory>
        requires crossed { IsCrossed over.now }
        requires kept { IsKept over.now.formula.now over.now.blocked.now units.now }
        requires copy { IsCopyOf over.now self.now }
        requires last { length over.now.formula.now.clauses ≤ last }
        requires refutes { Refutes self.now.formula no_variable (positions_of self.now.formula)
            (length self.now.formula.clauses) refutation }
        ensures told { IfOk result (λ o. IfSome o (IsTold over.now last refutation)) }
        ensures learned { IfOk result (λ o. IfSome o (λ t. IsTrue (are_learned over.now t.round.steps))) }
    {
        let told = self.told(alloc, over, last, refutation)?;
        if are_learned(units, over, told.round.steps.as_slice()) {
            Ok(Some(told))
        } else {
            Ok(None)
        }
    }

    // The refutation of `learned`, whether or not its clauses are learned.
    fn told(
        &self,
        alloc: Global,
        over: &Crossed,
        last: u64,
        refutation: CrossedRefutation,
    ) -> Result<CrossedRefutation, OutOfMemory>
        requires crossed { IsCrossed over.now }
        requires copy { IsCopyOf over.now self.now }
        requires last { length over.now.formula.now.clauses ≤ last }
        requires refutes { Refutes self.now.formula no_variable (positions_of self.now.formula)
            (length self.now.formula.clauses) refutation }
        ensures { IfOk result (IsTold over.now last refutation) }
    {
        // (by it contracts see that there are no more variables than may be)
        let _vars = over.formula.vars();
        let renaming = Renaming {
            positions: self.positions.len() as u64,
            last,
            part: &self.positions,
            names: &self.names,
        };
        Ok(CrossedRefutation {
            used: renaming.positions(refutation.used),
            round: renaming.only(alloc, refutation.round)?,
        })
    }
}
