//! Whether the clauses of a part of a formula have a model.
//!
//! As for a kernel, the part is first copied into a formula of its own, so that the tables of the search are as
//! long as the part.
ghost use Rattle.std.specs.Prelude.{◌+◌, ◌<◌, IfOk, IsTrue};
ghost use Rattle.lk_model.specs.Formulas.Formula.{positions_of};
ghost use Rattle.lk_model.specs.Formulas.Lean.{are_positions};
ghost use Rattle.part_copy.specs.Found.{are_filled};
ghost use Rattle.part_formula.specs.Decisions.{IsDecided, IsDecision};

use crate::reducing::decide_by_elimination;
use cdcl_core::{Schedule, decide_by_schedule};
use general_kernel::set_of;
use lk_model::{Budget, Crossed, Decided, Formula, List, Lit, OutOfMemory, Round, VarSet};
use part_copy::PartCopy;
use std::alloc::Global;

/// What is decided of the clauses of a part of a formula: literals on variables of the part, ascending by variable, that
/// satisfy each clause; or a refutation, of which no step is needless; or an open round of as many learned clauses as
/// were allowed, which is not at its end. A refutation has at most as many steps with a literal as clauses were allowed
/// to be learned, and three for each literal of the formula.
pub type Decision = Decided<List<Lit>, Round, Round>;

/// A refutation of clauses of a formula, and the positions that it uses, ascending. Where the clauses are kept in a copy,
/// `mus_core` has there the places that it uses.
#[derive(Drop)]
pub struct Refuted {
    pub round: Round,
    pub used: List<u32>,
}

/// Looks for a model of the clauses of a formula at some positions, which ascend and count from 1, by at most
/// `conflicts` learned clauses. None of the clauses is empty. Variables, positions and steps have the formula's
/// numbers; steps are numbered from its number of clauses plus 1. Time and memory are those of the part's
/// clauses. The error is that there is no memory; more steps than have numbers of 64 bits count as that.
pub fn decide_part(
    alloc: Global,
    f: &Formula,
    part: &[u32],
    conflicts: Budget,
) -> Result<Decision, OutOfMemory>
    requires part { IsTrue (are_positions f.now part.now) }
    requires filled { IsTrue (are_filled f.now part.now) }
    ensures { IfOk result (IsDecision f.now part.now conflicts) }
{
    let copy = PartCopy::of(alloc, f, part)?;
    match decide_all(alloc, copy.clauses(), conflicts)? {
        Decided::Model(set) => Ok(Decided::Model(copy.literals(set))),
        Decided::Refuted(round) => Ok(Decided::Refuted(copy.refutation(alloc, round)?)),
        Decided::Stopped(round) => Ok(Decided::Stopped(copy.open(alloc, round)?)),
    }
}

/// Looks for a model of all clauses: first by elimination, and if that does not decide, in the formula as it is.
fn decide_all(alloc: Global, f: &Formula, conflicts: Budget) -> Result<Decision, OutOfMemory>
    requires { IsTrue (are_filled f.now (positions_of f.now)) }
    ensures { IfOk result (IsDecision f.now (positions_of f.now) conflicts) }
{
    if let Some(decision) = decide_by_elimination(alloc, f, conflicts)? {
        return Ok(decision);
    }
    match decide_clauses(alloc, f, &mut Schedule::new(), conflicts)? {
        Decided::Model(set) => Ok(Decided::Model(set)),
        Decided::Refuted(found) => Ok(Decided::Refuted(found.round)),
        Decided::Stopped(round) => Ok(Decided::Stopped(round)),
    }
}

/// Looks for a model of all clauses of a formula, none of which is empty, by at most `conflicts` learned clauses, in
/// tables as long as the formula is, and by the schedule that is handed in. A refutation comes with the positions
/// that it uses.
pub fn decide_clauses(
    alloc: Global,
    f: &Formula,
    schedule: &mut Schedule,
    conflicts: Budget,
) -> Result<Decided<List<Lit>, Refuted, Round>, OutOfMemory>
    requires { IsTrue (are_filled f.now (positions_of f.now)) }
    ensures { IfOk result (IsDecided f.now conflicts) }
{
    let all = f.positions(alloc)?;
    let blocked = VarSet::new(alloc, f.vars())?;
    let next = u64::from(f.len()) + 1;
    let over = Crossed {
        formula: f,
        part: all.as_slice(),
        blocked: &blocked,
    };
    match decide_by_schedule(alloc, &over, schedule, next, conflicts.get())? {
        Decided::Model(values) => Ok(Decided::Model(set_of(alloc, f, all.as_slice(), &values)?)),
        Decided::Refuted(log) => {
            let needed = log.trim_used(&over, next)?;
            Ok(Decided::Refuted(Refuted {
                round: needed.round,
                used: needed.used,
            }))
        }
        Decided::Stopped(log) => Ok(Decided::Stopped(log.into_round()?)),
    }
}
