//! Whether a formula has a model.
//!
//! A clause outside the matching kernel is satisfied by a variable of its own, which no kept clause has (Kullmann
//! 2003), so only the kernel is searched, and each of its parts by itself: they share no variable. A refuted part
//! refutes the formula. Models of all parts make one of the kernel, and the matching overrides it to one of the
//! formula. What is learned over a part is learned over the formula, since each other clause has a variable that
//! the part does not have.
ghost use Rattle.std.specs.Prelude.{◌≤◌, IfOk};
ghost use Rattle.kernel_solve.specs.Solutions.{IsSolved};

use crate::deciding::{decisions, gather};
use crate::kernel_parts::kernel_parts;
use crate::model::model_of;
use empty_clauses::{empty_round, first_empty};
use lk_model::{Budget, Decided, Formula, OutOfMemory};
use par_parts::Gate;
use part_formula::Decision;
use part_kernels::matching_by_parts;
use std::alloc::Global;
use std::marker::Sync;
use std::thread::Threads;

/// Whether a formula has a model, by at most `conflicts` learned clauses for each part of its matching kernel, and at
/// most `workers` threads. Steps are numbered from the formula's number of clauses plus 1. An empty clause refutes
/// by itself: then the answer is the one step of the first such clause. Else, in the order of the parts, the first
/// refuted one gives the refutation, and without one the first that stopped gives the open round. So it ends
/// unfinished only if the budget is below 3^n, for the n variables of the formula.
///
/// A model is a literal for each variable, ascending. Of a refutation no step is needless. It has at most as many steps
/// with a literal as clauses were allowed to be learned, and three for each literal of the formula. An open round has as
/// many learned clauses as were allowed, and is not at its end.
///
/// With two workers or more, two parts of the formula or more are worked on in halves: the left half enters the
/// gate as 0 and the right one as 1, each before its matching kernel is looked for. The parts of the kernel are
/// halved in the same way, each half before its search. (No clause speaks of halves and of the gate, or says that every
/// number of workers gives the same answer; tests do.) The error is that there is no memory; more steps than have
/// numbers of 64 bits count as that.
pub fn solve<R: Threads + Sync, G: Gate>(
    rt: &R,
    alloc: Global,
    gate: &G,
    f: &Formula,
    conflicts: Budget,
    workers: u32,
) -> Result<Decision, OutOfMemory>
    requires workers { 1 ≤ workers }
    ensures { IfOk result (IsSolved f.now conflicts) }
{
    if let Some(position) = first_empty(f) {
        return Ok(Decided::Refuted(empty_round(alloc, f, position)?));
    }
    // The document of an open round states in 63 bits how many clauses it learned. No budget is more.
    let _most = conflicts.get();
    let found = matching_by_parts(rt, alloc, gate, f, workers)?;
    let parts = kernel_parts(alloc, f, found.kept.as_slice())?;
    let decided = decisions(rt, alloc, gate, f, parts.as_slice(), conflicts, workers)?;
    match gather(alloc, decided)? {
        Decided::Model(models) => Ok(Decided::Model(model_of(alloc, f, &found, models)?)),
        Decided::Refuted(round) => Ok(Decided::Refuted(round)),
        Decided::Stopped(round) => Ok(Decided::Stopped(round)),
    }
}
