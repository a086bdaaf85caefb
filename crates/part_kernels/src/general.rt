//! The general kernel of a formula, by parts.
//!
//! Parts share no variable, so each has its kernel by itself, and what rounds over one part show they show
//! over the whole formula.
ghost use Rattle.std.specs.Prelude.{◌≡◌, ◌<◌, ◌≤◌, IfOk};
ghost use Rattle.std.specs.ControlFlow.{MatchControlFlow};
ghost use Rattle.std.specs.List.{AllByRecursion};
ghost use Rattle.lk_model.specs.Formulas.Parts.{IsPart};
ghost use Rattle.occurrence_lists.specs.Occurrences.{AreOccurrences};
ghost use Rattle.general_laws.specs.Found.{IsFound};
ghost use Rattle.part_kernels.specs.ByParts.{AreFound, done, IsFirstOf, IsFoundByParts};

use autarky_compose::join_general;
use lk_model::{Budget, Formula, General, GeneralResult, List, OutOfMemory, Round};
use occurrence_lists::OccurrenceLists;
use par_parts::{Gate, all_ok, map_halves, parts_by_lists};
use part_formula::{kernel_of_only_part, kernel_of_part};
use std::alloc::Global;
use std::marker::Sync;
use std::ops::ControlFlow;
use std::thread::Threads;

/// The general kernel of a formula with literals that satisfy its other clauses and trimmed rounds, by at
/// most `conflicts` learned clauses for each part, and at most `workers` threads. Where parts
/// are not finished: the rounds of the first of them, whole ones and an open one, untrimmed. Steps are
/// numbered from the formula's number of clauses plus 1. With two workers or more and two parts or more a
/// left half of the parts enters the gate as 0 and a right half as 1, each before it is worked on; else none
/// enters. The error is that there is no memory, for any of the parts.
///
/// Each part has its answer, and the clause says that what is found is made of these alone, in the order of
/// the parts: all kernels, joined, or the rounds of the first that is not finished (`made_law`: the same
/// answers make one and the same). That another number of workers finds the same is tested and no clause,
/// since no clause says that a part has one answer only.
pub fn general_by_parts<R: Threads + Sync, G: Gate>(
    rt: &R,
    alloc: Global,
    gate: &G,
    f: &Formula,
    conflicts: Budget,
    workers: u32,
) -> Result<General, OutOfMemory>
    requires workers { 1 ≤ workers }
    ensures { IfOk result (IsFoundByParts f.now conflicts) }
{
    let lists = OccurrenceLists::new(alloc, f)?;
    let list = parts_by_lists(alloc, f, &lists)?;
    let parts = list.as_slice();
    let answers = answers(rt, alloc, gate, f, parts, lists, conflicts, workers)?;
    match gather(alloc, answers)? {
        ControlFlow::Continue(found) => Ok(General::Done(join_general(alloc, f.len(), found)?)),
        ControlFlow::Break(rounds) => Ok(General::Unfinished(rounds)),
    }
}

// What is found in each part, in their order. Where there is one part, its search has the lists that it was found by;
// where there are more, each has its own, and the formula's are gone before.
fn answers<R: Threads + Sync, G: Gate>(
    rt: &R,
    alloc: Global,
    gate: &G,
    f: &Formula,
    list: &[List<u32>],
    lists: OccurrenceLists,
    conflicts: Budget,
    workers: u32,
) -> Result<List<General>, OutOfMemory>
    requires parts { AllByRecursion (IsPart f.now) list.now }
    requires lists { AreOccurrences f.now lists }
    requires workers { 1 ≤ workers }
    ensures { IfOk result (AreFound f.now conflicts list.now) }
{
    if list.len() == 1 {
        let mut answers = List::new(alloc);
        answers.push(kernel_of_only_part(alloc, f, list[0].as_slice(), lists, conflicts)?)?;
        return Ok(answers);
    }
    drop(lists);
    let answers = map_halves(
        rt,
        alloc,
        gate,
        list,
        workers,
        &|_, part| kernel_of(alloc, f, part, conflicts),
    )?;
    all_ok(alloc, answers)
}

// What is found in a part.
fn kernel_of(
    alloc: Global,
    f: &Formula,
    part: &List<u32>,
    conflicts: Budget,
) -> Result<General, OutOfMemory>
    requires part { IsPart f.now part.now }
    ensures { IfOk result (IsFound f.now part.now conflicts) }
{
    kernel_of_part(alloc, f, part.as_slice(), conflicts)
}

// The kernels, or the first rounds that are not finished.
fn gather(
    alloc: Global,
    answers: List<General>,
) -> Result<ControlFlow<List<Round>, List<GeneralResult>>, OutOfMemory>
    ensures { IfOk result (λ flow. MatchControlFlow flow (λ found. answers ≡ done found) (IsFirstOf answers)) }
{
    let mut found = List::new(alloc);
    for answer in answers.into_vec() {
        match answer {
            General::Done(r) => found.push(r)?,
            General::Unfinished(rounds) => return Ok(ControlFlow::Break(rounds)),
        }
    }
    Ok(ControlFlow::Continue(found))
}
