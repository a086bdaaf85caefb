//! All positions of a formula, and whether some make a part of it.
ghost use Rattle.std.specs.Prelude.{IfOk, IsTrue};
ghost use Rattle.lk_model.specs.Formulas.Lean.{are_positions};

use lk_model::{Formula, OutOfMemory};
use std::alloc::Global;

/// Whether they are positions of the formula, ascending.
pub fn has_part(f: &Formula, part: &[u32]) -> bool
    ensures { IsTrue result → IsTrue (are_positions f.now part.now) }
{
    f.has_part(part)
}

/// All positions of a formula.
pub fn positions(alloc: Global, f: &Formula) -> Result<Vec<u32>, OutOfMemory>
    ensures { IfOk result (λ v. IsTrue (are_positions f.now v.items)) }
{
    Ok(f.positions(alloc)?.into_vec())
}
