//! The general kernel of a part of a formula.
//!
//! A search over clauses makes tables as long as the formula's variables, so for each of many small parts it
//! would cost the whole formula. Here the part is first copied into a formula of its own, whose size is the
//! part's. A part with all clauses of a formula that has no more variables than clauses is searched where it stands.
ghost use Rattle.std.specs.Prelude.{IfOk, IsTrue};
ghost use Rattle.lk_model.specs.Formulas.Lean.{are_positions};
ghost use Rattle.occurrence_lists.specs.Occurrences.{AreOccurrences};
ghost use Rattle.general_laws.specs.Found.{IsFound};

use general_kernel::{general_kernel, general_kernel_by_lists};
use lk_model::{Budget, Formula, General, OutOfMemory};
use occurrence_lists::OccurrenceLists;
use part_copy::PartCopy;
use std::alloc::Global;

/// What `general_kernel` finds in the part of a formula at some positions, which ascend and count from 1, by
/// at most `conflicts` learned clauses. Variables, positions and steps have the formula's
/// numbers. Time and memory are those of the part's clauses. The error is that there is no memory; more steps
/// than have numbers of 64 bits count as that.
pub fn kernel_of_part(
    alloc: Global,
    f: &Formula,
    part: &[u32],
    conflicts: Budget,
) -> Result<General, OutOfMemory>
    requires part { IsTrue (are_positions f.now part.now) }
    ensures { IfOk result (IsFound f.now part.now conflicts) }
{
    if stays_in_place(f, part) {
        return general_kernel(alloc, f, part, conflicts);
    }
    let copy = PartCopy::of(alloc, f, part)?;
    let all = copy.clauses().positions(alloc)?;
    let found = general_kernel(alloc, copy.clauses(), all.as_slice(), conflicts)?;
    copy.general(alloc, found)
}

/// As `kernel_of_part`, where the lists of the formula are there. A search where the part stands has them; else they
/// are gone before the copy is made.
pub fn kernel_of_only_part(
    alloc: Global,
    f: &Formula,
    part: &[u32],
    lists: OccurrenceLists,
    conflicts: Budget,
) -> Result<General, OutOfMemory>
    requires part { IsTrue (are_positions f.now part.now) }
    requires lists { AreOccurrences f.now lists }
    ensures { IfOk result (IsFound f.now part.now conflicts) }
{
    if stays_in_place(f, part) {
        return general_kernel_by_lists(alloc, f, part, lists, conflicts);
    }
    drop(lists);
    kernel_of_part(alloc, f, part, conflicts)
}

// Whether a part is searched where it stands: it has all clauses, and the variables are no more.
fn stays_in_place(f: &Formula, part: &[u32]) -> bool {
    part.len() == f.len() as usize && f.vars() <= f.len()
}
