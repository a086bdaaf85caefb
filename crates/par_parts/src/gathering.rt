//! The parts of a formula.
ghost use Rattle.std.specs.Prelude.{◌≡◌, ◌≢◌, ◌+◌, ◌<◌, ◌≤◌, ℕ, [], length, replicate, slice_index, IfOk};
ghost use Rattle.lk_model.specs.Formulas.Parts.{AreParts};
ghost use Rattle.lk_model.specs.Limits.{max_clauses};
ghost use Rattle.occurrence_lists.specs.Occurrences.{AreOccurrences};
ghost use Rattle.par_parts.specs.Numbering.{gathered};

use crate::search::number_parts;
use lk_model::{Formula, List, OutOfMemory};
use occurrence_lists::OccurrenceLists;
use std::alloc::Global;

/// The parts of a formula: two positions are in one part where a chain of positions leads from one to the
/// other in which neighbours share a variable. They are ordered by their least positions, and each is
/// ascending. An empty clause is a part by itself.
pub fn parts(alloc: Global, f: &Formula) -> Result<List<List<u32>>, OutOfMemory>
    ensures { IfOk result (λ parts. AreParts f.now parts) }
{
    parts_by_lists(alloc, f, &OccurrenceLists::new(alloc, f)?)
}

/// As `parts`, where the lists of the formula are there.
pub fn parts_by_lists(
    alloc: Global,
    f: &Formula,
    lists: &OccurrenceLists,
) -> Result<List<List<u32>>, OutOfMemory>
    requires { AreOccurrences f.now lists.now }
    ensures { IfOk result (λ parts. AreParts f.now parts) }
{
    let found = number_parts(alloc, f, lists)?;
    let lists = gather(alloc, &found.labels, found.roots.len())?;
    Ok(List::from_vec(lists))
}

/// The positions of each number from 1 on, ascending.
pub(crate) fn gather(
    alloc: Global,
    labels: &[u32],
    count: usize,
) -> Result<Vec<List<u32>>, OutOfMemory>
    requires some { 0 < length labels.now }
    requires few { length labels.now ≤ max_clauses + 1 }
    requires labels { (p : ℕ) → 0 < p → p < length labels.now → slice_index labels.now p ≢ 0 }
    requires count { (p : ℕ) → slice_index labels.now p ≤ count }
    ensures { IfOk result (λ v. v.items ≡ gathered labels.now count) }
{
    let mut parts = empty_lists(alloc, count)?;
    for p in 1..labels.len() as u32 {
        parts[labels[p as usize] as usize - 1].push(p)?;
    }
    Ok(parts)
}

// `count` lists without an item.
fn empty_lists(alloc: Global, count: usize) -> Result<Vec<List<u32>>, OutOfMemory>
    ensures { IfOk result (λ v. v.items ≡ replicate count []) }
{
    let mut lists = Vec::with_capacity(alloc, count)?;
    for _ in 0..count {
        lists.push(List::new(alloc))?;
    }
    Ok(lists)
}
