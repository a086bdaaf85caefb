//! The parts of the kept clauses of a formula.
ghost use Rattle.std.specs.Prelude.{◌≡◌, map, IfOk, IsTrue};
ghost use Rattle.lk_model.specs.Formulas.Lean.{are_positions};
ghost use Rattle.kernel_solve.specs.KernelParts.{AreKernelParts, told};

use lk_model::{Formula, List, OutOfMemory};
use par_parts::parts;
use result_renaming::positions_at;
use std::alloc::Global;

/// The parts of the formula that has the clauses at the kept positions alone, given by these positions.
pub(crate) fn kernel_parts(
    alloc: Global,
    f: &Formula,
    kept: &[u32],
) -> Result<List<List<u32>>, OutOfMemory>
    requires kept { IsTrue (are_positions f.now kept.now) }
    ensures { IfOk result (AreKernelParts f.now kept.now) }
{
    let kernel = f.clauses_at(alloc, kept)?;
    let found = parts(alloc, &kernel)?;
    all_told(alloc, kept, found)
}

// Each part, by the positions in the formula.
fn all_told(
    alloc: Global,
    kept: &[u32],
    parts: List<List<u32>>,
) -> Result<List<List<u32>>, OutOfMemory>
    ensures { IfOk result (λ list. list ≡ map (told kept.now) parts) }
{
    let mut list = List::new(alloc);
    for part in parts.into_vec() {
        list.push(positions_at(kept, part))?;
    }
    Ok(list)
}
