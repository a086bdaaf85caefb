//! What is decided of the parts of the kernel.
ghost use Rattle.std.specs.Prelude.{◌≤◌, IfOk};
ghost use Rattle.std.specs.List.{AllByRecursion};
ghost use Rattle.part_formula.specs.Decisions.{IsDecision};
ghost use Rattle.kernel_solve.specs.KernelParts.{IsFilledPart};
ghost use Rattle.kernel_solve.specs.Answers.{AreAnswers, IsGathered};

use lk_model::{Budget, Decided, Formula, List, Lit, OutOfMemory, Round};
use par_parts::{Gate, all_ok, map_halves};
use part_formula::{Decision, decide_part};
use std::alloc::Global;
use std::marker::Sync;
use std::thread::Threads;

/// What is decided of each part, in their order, in halves.
pub(crate) fn decisions<R: Threads + Sync, G: Gate>(
    rt: &R,
    alloc: Global,
    gate: &G,
    f: &Formula,
    list: &[List<u32>],
    conflicts: Budget,
    workers: u32,
) -> Result<List<Decision>, OutOfMemory>
    requires parts { AllByRecursion (IsFilledPart f.now) list.now }
    requires workers { 1 ≤ workers }
    ensures { IfOk result (AreAnswers f.now conflicts list.now) }
{
    let answers = map_halves(
        rt,
        alloc,
        gate,
        list,
        workers,
        &|_, part| decision_of(alloc, f, part, conflicts),
    )?;
    all_ok(alloc, answers)
}

// What is decided of a part.
fn decision_of(
    alloc: Global,
    f: &Formula,
    part: &List<u32>,
    conflicts: Budget,
) -> Result<Decision, OutOfMemory>
    requires part { IsFilledPart f.now part.now }
    ensures { IfOk result (IsDecision f.now part.now conflicts) }
{
    decide_part(alloc, f, part.as_slice(), conflicts)
}

/// What the parts come to, in their order: the first refutation, or else the first round that stopped, or else
/// all models.
pub(crate) fn gather(
    alloc: Global,
    answers: List<Decision>,
) -> Result<Decided<List<List<Lit>>, Round, Round>, OutOfMemory>
    ensures { IfOk result (IsGathered answers) }
{
    let mut models = List::new(alloc);
    let mut stopped: Option<Round> = None;
    for answer in answers.into_vec() {
        match answer {
            Decided::Model(model) => models.push(model)?,
            Decided::Refuted(round) => return Ok(Decided::Refuted(round)),
            Decided::Stopped(round) => stopped = Some(stopped.unwrap_or(round)),
        }
    }
    match stopped {
        Some(round) => Ok(Decided::Stopped(round)),
        None => Ok(Decided::Model(models)),
    }
}
