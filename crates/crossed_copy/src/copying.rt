//! Some crossed clauses of a part as a formula by itself.
//!
//! A search makes tables as long as its formula. So whether a few clauses of a long part have a refutation is asked of a
//! formula of these clauses alone, whose variables are numbered without a gap.
ghost use Rattle.std.specs.Prelude.{IfOk, IsTrue};
ghost use Rattle.std.specs.List.{list_all};
ghost use Rattle.lk_model.specs.Held.VariableSets.{IsCrossed};
ghost use Rattle.unit_refutations.specs.Standing.{IsKept, IsWithin};
ghost use Rattle.crossed_copy.specs.Copied.{is_of_part, ArePositions, IsCopyOf};

use dense_copy::{dense_formula, in_order, names_of};
use lk_model::{Crossed, Formula, OutOfMemory};
use std::alloc::Global;
use unit_refutations::Units;

/// A longer clause is left out.
const LONG: usize = 256;

/// A formula of crossed clauses.
#[derive(Drop)]
pub struct CrossedCopy {
    /// Where its clauses stand, in their order.
    pub positions: Vec<u32>,
    /// What its variables stand for.
    pub names: Vec<u32>,
    pub formula: Formula,
}

impl CrossedCopy {
    /// The crossed clauses at some positions, ascending by position, each once. What is not at a position of the part is
    /// left out, and so is what is at that of a long clause.
    pub fn of(
        alloc: Global,
        over: &Crossed,
        units: &Units,
        positions: &[u32],
    ) -> Result<CrossedCopy, OutOfMemory>
        requires crossed { IsCrossed over.now }
        requires kept { IsKept over.now.formula.now over.now.blocked.now units.now }
        requires within { IsWithin over.now.part.now units.now }
        ensures { IfOk result (IsCopyOf over.now) }
    {
        let positions = in_order(short_ones(alloc, over, units, positions)?);
        copy_of(alloc, over, positions)
    }
}

// The copy of the crossed clauses at these positions.
fn copy_of(alloc: Global, over: &Crossed, positions: Vec<u32>) -> Result<CrossedCopy, OutOfMemory>
    requires crossed { IsCrossed over.now }
    requires positions { ArePositions over.now positions.items }
    ensures { IfOk result (IsCopyOf over.now) }
{
    let clauses = over
        .formula
        .clauses_at(alloc, &positions)?
        .without(alloc, over.blocked)?;
    let all = clauses.positions(alloc)?;
    // (by it contracts see that the clauses are a formula)
    let _vars = clauses.vars();
    let names = names_of(alloc, &clauses, all.as_slice())?;
    let formula = dense_formula(alloc, &clauses, all.as_slice(), &names)?;
    Ok(CrossedCopy {
        positions,
        names,
        formula,
    })
}

// The positions of these that are of the part, but for those of long clauses.
fn short_ones(
    alloc: Global,
    over: &Crossed,
    units: &Units,
    positions: &[u32],
) -> Result<Vec<u32>, OutOfMemory>
    requires crossed { IsCrossed over.now }
    requires kept { IsKept over.now.formula.now over.now.blocked.now units.now }
    requires within { IsWithin over.now.part.now units.now }
    ensures { IfOk result (λ ps. IsTrue (list_all (is_of_part over.now) ps.items)) }
{
    let mut short = Vec::new(alloc);
    for position in positions {
        if is_short(over, units, *position) {
            short.push(*position)?;
        }
    }
    Ok(short)
}

// Whether a position is of the part, and its clause is not long.
fn is_short(over: &Crossed, units: &Units, position: u32) -> bool
    requires crossed { IsCrossed over.now }
    requires kept { IsKept over.now.formula.now over.now.blocked.now units.now }
    requires within { IsWithin over.now.part.now units.now }
    ensures { IsTrue result → IsTrue (is_of_part over.now position) }
{
    if position == 0 || position > over.formula.len() || !units.has(position) {
        return false;
    }
    over.formula.clause(position).len() <= LONG
}
