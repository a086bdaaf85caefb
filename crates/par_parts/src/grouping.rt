//! Groups of parts, for calls whose tables are as long as the formula: a call for each of many small parts
//! would make them again and again. A group is meant to have parts that follow one another, with about an
//! equal share of all positions and literals, and all steps are meant to be linear in the formula; no clause
//! says so.
ghost use Rattle.std.specs.Prelude.{◌≡◌, ◌+◌, ◌<◌, ◌≤◌, ℕ, length, map, slice_index, All, IfOk};
ghost use Rattle.lk_model.specs.Limits.{max_clauses};
ghost use Rattle.par_parts.specs.Groups.{AreGroupNumbers, IsDisjointCover, IsPartition};

use crate::gathering::gather;
use crate::search::number_parts;
use lk_model::{Formula, List, OutOfMemory};
use occurrence_lists::OccurrenceLists;
use std::alloc::Global;

/// The parts of a formula, whole, in at most `most` groups. Each group is ascending, and each position
/// stands in exactly one, that of an empty clause too.
pub fn part_groups(alloc: Global, f: &Formula, most: u32) -> Result<List<List<u32>>, OutOfMemory>
    requires { 1 ≤ most }
    ensures few { IfOk result (λ groups. length groups ≤ most) }
    ensures cover { IfOk result (λ groups. IsDisjointCover f.now groups) }
    ensures partition { IfOk result (λ groups. IsPartition f.now groups) }
{
    let found = number_groups(alloc, f, most)?;
    let lists = gather(alloc, &found.numbers, found.last as usize)?;
    Ok(List::from_vec(lists))
}

/// The numbers of groups, from 1 on.
#[derive(Drop)]
struct Numbers {
    /// For each part or position, as an index, the number of its group.
    numbers: Vec<u32>,
    /// The number of the last group.
    last: u32,
}

// For each position, as an index, the number of its group.
fn number_groups(alloc: Global, f: &Formula, most: u32) -> Result<Numbers, OutOfMemory>
    requires { 1 ≤ most }
    ensures few { IfOk result (λ g. g.last ≤ most) }
    ensures long { IfOk result (λ g. length g.numbers.items ≤ max_clauses + 1) }
    ensures numbers { IfOk result (λ g. AreGroupNumbers f.now g.numbers.items g.last) }
{
    let found = number_parts(alloc, f, &OccurrenceLists::new(alloc, f)?)?;
    let sizes = sizes(alloc, f, &found.labels, found.roots.len())?;
    let groups = fill(alloc, &sizes, most)?;
    let numbers = renumbered(alloc, &found.labels, &groups.numbers)?;
    Ok(Numbers {
        numbers,
        last: groups.last,
    })
}

// For each number of a part, as an index, how many positions and literals it has; at 0 none.
fn sizes(alloc: Global, f: &Formula, labels: &[u32], count: usize) -> Result<Vec<u64>, OutOfMemory>
    requires long { length labels.now ≡ length f.now.clauses + 1 }
    requires few { count < length labels.now }
    requires labels { (p : ℕ) → slice_index labels.now p ≤ count }
    ensures { IfOk result (λ v. length v.items ≡ count + 1) }
{
    let mut sizes = vec![in alloc; 0u64; count + 1]?;
    for p in 1..f.len() + 1 {
        let size = &mut sizes[labels[p as usize] as usize];
        *size = size
            .saturating_add(1)
            .saturating_add(f.clause(p).len() as u64);
    }
    Ok(sizes)
}

// A number for each of these sizes, from 1 to at most this one. The code cuts all sizes into equal shares,
// and a part whose middle lies in another share than that of the part before begins a group; no clause says
// so.
fn fill(alloc: Global, sizes: &[u64], most: u32) -> Result<Numbers, OutOfMemory>
    requires { 1 ≤ most }
    ensures long { IfOk result (λ g. length g.numbers.items ≡ length sizes.now) }
    ensures last { IfOk result (λ g. (1 ≤ g.last) × (g.last ≤ most)) }
    ensures numbers { IfOk result (λ g. All (λ n. (1 ≤ n) × (n ≤ g.last)) g.numbers.items) }
{
    let share = (total(sizes) / u64::from(most)).max(1);
    let mut numbers = Vec::with_capacity(alloc, sizes.len())?;
    let mut last = 1;
    let mut before = 0u64;
    let mut place = 0;
    for size in sizes {
        let middle = before.saturating_add(*size / 2) / share;
        last = next_group(last, most, before != 0 && place != middle);
        numbers.push(last)?;
        before = before.saturating_add(*size);
        place = middle;
    }
    Ok(Numbers { numbers, last })
}

// The number of the next group where one begins and there may be one more, else that of the last one.
fn next_group(last: u32, most: u32, begins: bool) -> u32
    requires { last ≤ most }
    ensures least { last ≤ result }
    ensures most { result ≤ most }
{
    if begins && last < most {
        last + 1
    } else {
        last
    }
}

// The sum of sizes.
fn total(sizes: &[u64]) -> u64 {
    sizes
        .iter()
        .fold(0u64, |sum, size| sum.saturating_add(*size))
}

// In the place of each number the one that stands at it.
fn renumbered(alloc: Global, labels: &[u32], numbers: &[u32]) -> Result<Vec<u32>, OutOfMemory>
    requires { All (λ l. l < length numbers.now) labels.now }
    ensures { IfOk result (λ v. v.items ≡ map (λ l. slice_index numbers.now l) labels.now) }
{
    Ok(labels.iter().map(|l| numbers[*l as usize]).collect(alloc)?)
}
