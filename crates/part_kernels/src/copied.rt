//! The matching kernel of a part of a formula.
//!
//! A matching makes tables as long as the formula's variables, so a call for each of many groups of parts would
//! cost the whole formula each time. Here the part is first copied into a formula of its own, whose size is the
//! part's.
ghost use Rattle.std.specs.Prelude.{IfOk, IsTrue};
ghost use Rattle.lk_model.specs.Formulas.Lean.{are_positions};
ghost use Rattle.matching_laws.specs.MatchingResults.{IsMatchingResult};

use lk_model::{Formula, MatchingResult, OutOfMemory};
use matching_kernel::matching_kernel;
use part_copy::PartCopy;
use std::alloc::Global;

/// The matching kernel of the part of a formula at some positions, which ascend and count from 1, a variable for
/// each removed position, and a row for each variable of the kernel. Variables and positions have the formula's
/// numbers. Time and memory are those of the part's clauses. The error is that there is no memory.
pub fn matching_of_part(
    alloc: Global,
    f: &Formula,
    part: &[u32],
) -> Result<MatchingResult, OutOfMemory>
    requires part { IsTrue (are_positions f.now part.now) }
    ensures { IfOk result (IsMatchingResult f.now part.now) }
{
    let copy = PartCopy::of(alloc, f, part)?;
    let all = copy.clauses().positions(alloc)?;
    let found = matching_kernel(alloc, copy.clauses(), all.as_slice())?;
    Ok(copy.matching(found))
}
