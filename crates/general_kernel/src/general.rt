//! The kernel of the class general.
//!
//! A clause that a refutation uses has no variable that an autarky sets, and a model of the clauses without the
//! variables of such clauses is an autarky that satisfies the rest (Kullmann, "Investigations on Autark Assignments",
//! 2000). So refutations one by one, each over the clauses without the variables of those before, end at the largest
//! lean set.
//!
//! What unit propagation alone refutes comes first in each round, and then what the clauses around one refute. Only
//! where neither is found, all clauses of the part are searched, by orders of the variables that alternate; the one
//! that ended a search begins in the next such search. A refutation is kept with what it uses of it, so that the kernel
//! can be checked without a search.
ghost use Rattle.std.specs.Prelude.{◌≡◌, ◌<◌, ◌^◌, length, IfOk, IsTrue};
ghost use Rattle.lk_model.specs.Formulas.Lean.{are_positions};
ghost use Rattle.lk_model.specs.Formulas.Formula.{variable_occurs};
ghost use Rattle.lk_model.specs.Held.PartialValues.{assignment_by};
ghost use Rattle.occurrence_lists.specs.Occurrences.{AreOccurrences};
ghost use Rattle.general_laws.specs.Found.{IsFound};
ghost use Rattle.general_kernel.specs.Ends.{IsBegun, EndsRounds};
ghost use Rattle.general_kernel.specs.SetLiterals.{literals_on};
ghost use Rattle.unit_refutations.specs.Standing.{IsKept, IsWithin};

use crate::blocking::{covered, is_covered};
use crate::near::{Nearby, refute_near};
use crate::rounds::Rounds;
use crate::setting::literals_on;
use cdcl_core::{Schedule, decide_by_schedule};
use crossed_copy::CrossedRefutation;
use lk_model::{
    Budget, Crossed, Decided, Formula, General, GeneralResult, List, Lit, OutOfMemory, Round,
    VarSet,
};
use occurrence_lists::OccurrenceLists;
use partial_assign::Partial;
use std::alloc::Global;
use unit_refutations::{UnitRefutation, Units};

/// Looks for the general kernel in the part of a formula at some positions, which ascend and count from 1, by at most
/// `conflicts` learned clauses. The steps are numbered from the formula's number of clauses plus 1. It ends unfinished
/// only if `conflicts` is below n * 3^n for the n variables of the formula. The error is that there is no memory.
pub fn general_kernel(
    alloc: Global,
    f: &Formula,
    part: &[u32],
    conflicts: Budget,
) -> Result<General, OutOfMemory>
    requires part { IsTrue (are_positions f.now part.now) }
    ensures { IfOk result (IsFound f.now part.now conflicts) }
{
    general_kernel_by_lists(alloc, f, part, OccurrenceLists::new(alloc, f)?, conflicts)
}

/// As `general_kernel`, where the lists of the formula are there.
pub fn general_kernel_by_lists(
    alloc: Global,
    f: &Formula,
    part: &[u32],
    lists: OccurrenceLists,
    conflicts: Budget,
) -> Result<General, OutOfMemory>
    requires part { IsTrue (are_positions f.now part.now) }
    requires lists { AreOccurrences f.now lists }
    ensures { IfOk result (IsFound f.now part.now conflicts) }
{
    let mut rounds = Rounds::new(alloc, f, conflicts)?;
    match run(alloc, f, part, lists, &mut rounds)? {
        End::Kernel { kept, set } => Ok(General::Done(GeneralResult {
            kept,
            set,
            rounds: rounds.trimmed(alloc)?,
        })),
        End::Open(round) => Ok(General::Unfinished(rounds.with_open(alloc, round)?)),
    }
}

/// How the rounds end.
#[derive(Drop)]
pub(crate) enum End {
    /// With what is covered of the part, and literals that satisfy the rest.
    Kernel { kept: List<u32>, set: List<Lit> },
    /// With an open round after them.
    Open(Round),
}

// The rounds, to the end.
fn run(
    alloc: Global,
    f: &Formula,
    part: &[u32],
    lists: OccurrenceLists,
    rounds: &mut Rounds,
) -> Result<End, OutOfMemory>
    requires part { IsTrue (are_positions f.now part.now) }
    requires lists { AreOccurrences f.now lists }
    requires begun { IsBegun f.now rounds.old }
    requires some { 0 < rounds.old.budget }
    requires most { rounds.old.budget < 2 ^ 63 }
    ensures { IfOk result (EndsRounds f.now part.now rounds.old.budget rounds.new) }
{
    let mut units = Units::by_lists(alloc, f, part, lists)?;
    let mut nearby = Nearby::new(alloc, f, part)?;
    let mut schedule = Schedule::new();
    round_after_round(
        alloc,
        f,
        part,
        &mut units,
        &mut nearby,
        &mut schedule,
        rounds,
    )
}

// Round after round. What unit propagation alone refutes comes first: it learns nothing, and costs what it uses.
fn round_after_round(
    alloc: Global,
    f: &Formula,
    part: &[u32],
    units: &mut Units,
    nearby: &mut Nearby,
    schedule: &mut Schedule,
    rounds: &mut Rounds,
) -> Result<End, OutOfMemory>
    requires part { IsTrue (are_positions f.now part.now) }
    requires begun { IsBegun f.now rounds.old }
    requires some { 0 < rounds.old.budget }
    requires most { rounds.old.budget < 2 ^ 63 }
    requires kept { IsKept f.now rounds.old.blocked units.old }
    requires within { IsWithin part.now units.old }
    ensures { IfOk result (EndsRounds f.now part.now rounds.old.budget rounds.new) }
{
    let mut open = 0;
    'rounds: loop {
        let over = Crossed {
            formula: f,
            part,
            blocked: &rounds.blocked,
        };
        if let Some(UnitRefutation { round, used }) = units.refute(alloc, &over, rounds.next)? {
            rounds.push_round(alloc, round)?;
            units.block(f, used.as_slice(), &mut rounds.blocked)?;
            continue 'rounds;
        }
        if is_covered(f, part, &rounds.blocked, &mut open) {
            let kept = covered(alloc, f, part, &rounds.blocked)?;
            let set = List::new(alloc);
            return Ok(End::Kernel { kept, set });
        }
        if rounds.budget == 0 {
            let steps = List::new(alloc);
            return Ok(End::Open(Round { steps }));
        }
        if let Some(CrossedRefutation { round: near, used }) = refute_near(
            alloc,
            &over,
            units,
            nearby,
            rounds.next,
            rounds.budget,
        )? {
            rounds.push_round(alloc, near)?;
            units.block(f, used.as_slice(), &mut rounds.blocked)?;
            continue 'rounds;
        }
        nearby.note_whole(part);
        match decide_by_schedule(alloc, &over, schedule, rounds.next, rounds.budget)? {
            Decided::Model(values) => {
                let kept = covered(alloc, f, part, &rounds.blocked)?;
                let set = set_of(alloc, f, part, &values)?;
                return Ok(End::Kernel { kept, set });
            }
            Decided::Refuted(log) => {
                let used = log.used(&over)?;
                rounds.push(log)?;
                units.block(f, used.as_slice(), &mut rounds.blocked)?;
            }
            Decided::Stopped(log) => return Ok(End::Open(log.into_round()?)),
        }
    }
}

/// The true literals on the variables of the part of a formula at some positions, ascending by variable.
pub fn set_of(
    alloc: Global,
    f: &Formula,
    part: &[u32],
    values: &Partial,
) -> Result<List<Lit>, OutOfMemory>
    requires part { IsTrue (are_positions f.now part.now) }
    requires vars { length values.now ≡ f.now.vars }
    ensures { IfOk result
        (λ ls. ls ≡ literals_on (variable_occurs f.now part.now) (assignment_by values.now) f.now.vars) }
{
    let mut vars = VarSet::new(alloc, f.vars())?;
    vars.add_clauses(f, part);
    literals_on(alloc, &vars, values)
}
