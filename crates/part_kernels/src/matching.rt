//! The matching kernel of a formula, by parts.
//!
//! Parts share no variable, so each has its kernel by itself. They are handed over in groups, at most one for
//! each worker, and each group has tables of its own size, so that many workers need little more memory than
//! one.
ghost use Rattle.std.specs.Prelude.{◌≤◌, List, ℕ, IfOk, IsTrue};
ghost use Rattle.std.specs.List.{AllByRecursion};
ghost use Rattle.lk_model.specs.Formulas.Formula.{positions_of};
ghost use Rattle.lk_model.specs.Formulas.Lean.{are_positions};
ghost use Rattle.matching_laws.specs.MatchingResults.{IsMatchingResult};
ghost use Rattle.autarky_compose.specs.JoinedMatching.{AreMatchingResults};

use crate::copied::matching_of_part;
use autarky_compose::join_matching;
use lk_model::{Formula, List, MatchingResult, OutOfMemory};
use matching_kernel::matching_kernel;
use par_parts::{Gate, all_ok, map_halves, part_groups};
use std::alloc::Global;
use std::marker::Sync;
use std::thread::Threads;

/// The matching kernel of a formula, a variable for each removed position, and a row for each variable of
/// the kernel, by at most `workers` threads. With two workers or more and two parts or more a left half of the
/// parts enters the gate as 0 and a right half as 1, each before it is worked on; else none enters.
pub fn matching_by_parts<R: Threads + Sync, G: Gate>(
    rt: &R,
    alloc: Global,
    gate: &G,
    f: &Formula,
    workers: u32,
) -> Result<MatchingResult, OutOfMemory>
    requires { 1 ≤ workers }
    ensures { IfOk result (λ r. IsMatchingResult f.now (positions_of f.now) r) }
{
    if workers < 2 {
        return matching_at_once(alloc, f);
    }
    let groups = part_groups(alloc, f, workers)?;
    let found = kernels(rt, alloc, gate, f, groups.as_slice(), workers)?;
    join_matching(alloc, f.len(), found)
}

// As `matching_by_parts`, with all positions as one group.
fn matching_at_once(alloc: Global, f: &Formula) -> Result<MatchingResult, OutOfMemory>
    ensures { IfOk result (λ r. IsMatchingResult f.now (positions_of f.now) r) }
{
    let all = f.positions(alloc)?;
    matching_kernel(alloc, f, all.as_slice())
}

// The matching kernels of groups, in their order.
fn kernels<R: Threads + Sync, G: Gate>(
    rt: &R,
    alloc: Global,
    gate: &G,
    f: &Formula,
    groups: &[List<u32>],
    workers: u32,
) -> Result<List<MatchingResult>, OutOfMemory>
    requires groups { AllByRecursion (λ (group : List ℕ). IsTrue (are_positions f.now group)) groups.now }
    requires workers { 1 ≤ workers }
    ensures { IfOk result (λ found. AreMatchingResults f.now groups.now found) }
{
    let answers = map_halves(
        rt,
        alloc,
        gate,
        groups,
        workers,
        &|_, group| kernel_of(alloc, f, group),
    )?;
    all_ok(alloc, answers)
}

// The matching kernel of a group, in tables of the group's size. One with more than a quarter of the clauses is not
// copied: there are three at most, so tables of the size of the formula are made three times at most.
fn kernel_of(alloc: Global, f: &Formula, group: &List<u32>) -> Result<MatchingResult, OutOfMemory>
    requires { IsTrue (are_positions f.now group.now) }
    ensures { IfOk result (λ r. IsMatchingResult f.now group.now r) }
{
    let group = group.as_slice();
    if group.len() > f.len() as usize / 4 {
        matching_kernel(alloc, f, group)
    } else {
        matching_of_part(alloc, f, group)
    }
}
