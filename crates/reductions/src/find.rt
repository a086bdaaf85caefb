//! What the reducers of the classes find in a formula.
ghost use Rattle.std.specs.Prelude.{◌≡◌, ◌≤◌, Err, IfOk, IfErr, IsTrue};
ghost use Rattle.lk_model.specs.Formulas.Lean.{are_positions};
ghost use Rattle.lk_model.specs.declared.class.Class.TheVariants.{Pure, Matching, Linear};
ghost use Rattle.linear_kernel.specs.Answers.{AnswersRun};
ghost use Rattle.reductions.specs.Founds.{EndsDone, IsFoundFor, IsKernelFound, IsStopOf, TellsReduction};

use crate::document::Found;
use crate::set_line::{set_of_order, set_of_stages};
use linear_kernel::{LinearStop, linear_kernel};
use lk_model::{Body, Budget, Formula, General, List, OutOfMemory, Round};
use lk_outside::Gate;
use matching_kernel::set_of_own;
use part_kernels::{general_by_parts, matching_by_parts};
use pure_strip::pure_kernel;
use std::alloc::Global;
use std::thread::Threads;

/// The pure kernel of a formula, with the order in which literals are made true and the least pairs. The error
/// is that there is no memory.
pub fn find_pure(alloc: Global, f: &Formula) -> Result<Found, OutOfMemory>
    ensures { IfOk result (IsFoundFor Pure f.now) }
{
    let found = pure_kernel(alloc, f)?;
    let set = set_of_order(alloc, found.order.as_slice())?;
    Ok(Found {
        kept: found.kept,
        set,
        body: Body::Pure {
            order: found.order,
            pairs: found.pairs,
        },
    })
}

/// The matching kernel of a formula, with own lines and rows, found by parts on at most `workers` threads, 1 or
/// more. The error is that there is no memory.
pub fn find_matching<R: Threads + Sync, G: Gate>(
    rt: &R,
    alloc: Global,
    gate: &G,
    f: &Formula,
    workers: u32,
) -> Result<Found, OutOfMemory>
    requires workers { 1 ≤ workers }
    ensures { IfOk result (IsFoundFor Matching f.now) }
{
    let found = matching_by_parts(rt, alloc, gate, f, workers)?;
    let set = set_of_own(alloc, f, found.own.as_slice())?;
    Ok(Found {
        kept: found.kept,
        set,
        body: Body::Matching {
            own: found.own,
            rows: found.rows,
        },
    })
}

/// The linear kernel of a formula, with the stages, duals and units of the linear run with at most `pivots` pivots. The
/// error says why there is none: the rows are too large, a number is too wide, the run wants one more pivot, or there
/// is no memory.
pub fn find_linear(alloc: Global, f: &Formula, pivots: u64) -> Result<Found, LinearStop>
    ensures done { IfOk result (λ _. EndsDone f.now pivots) }
    ensures positions { IfOk result (λ found. IsTrue (are_positions f.now found.kept)) }
    ensures reduces { IfOk result (TellsReduction Linear pivots f.now) }
    ensures stop { IfErr result (λ stop. AnswersRun f.now pivots (Err stop)) }
{
    let found = linear_kernel(alloc, f, pivots)?;
    match set_of_stages(alloc, f.vars(), found.stages.as_slice()) {
        Ok(set) => Ok(Found {
            kept: found.kept,
            set,
            body: Body::Linear {
                stages: found.stages,
                dual: found.dual,
                units: found.units,
            },
        }),
        Err(OutOfMemory) => Err(LinearStop::OutOfMemory),
    }
}

/// Why there is no general kernel.
#[derive(Drop)]
pub enum GeneralStop {
    /// A part of the formula was not finished when the budget was used up. The rounds over the first such part, in
    /// their order, with as many learned clauses as the budget; the last of them is open. Steps are numbered from
    /// the formula's number of clauses plus 1.
    Unfinished(List<Round>),
    /// There was no memory.
    OutOfMemory,
}

impl From<OutOfMemory> for GeneralStop {
    ghost use Rattle.std.specs.Prelude.{◌≡◌};
    ghost use Rattle.reductions.specs.declared.find.GeneralStop.TheVariants.{OutOfMemory as MemoryOut};

    ghost from_gives = { λ _ e. e ≡ MemoryOut };

    fn from(_e: OutOfMemory) -> GeneralStop {
        GeneralStop::OutOfMemory
    }
}

/// The general kernel of a formula, with literals that satisfy the other clauses and with rounds, found by parts on at
/// most `workers` threads, 1 or more, by at most `conflicts` learned clauses for each part. No clause speaks of
/// threads. The error says why there is none: a part was not finished with its budget, or memory ran out.
pub fn find_general<R: Threads + Sync, G: Gate>(
    rt: &R,
    alloc: Global,
    gate: &G,
    f: &Formula,
    conflicts: Budget,
    workers: u32,
) -> Result<Found, GeneralStop>
    requires workers { 1 ≤ workers }
    ensures found { IfOk result (IsKernelFound f.now conflicts) }
    ensures stop { IfErr result (IsStopOf f.now conflicts) }
{
    match general_by_parts(rt, alloc, gate, f, conflicts, workers)? {
        General::Done(found) => Ok(Found {
            kept: found.kept,
            set: found.set,
            body: Body::General {
                rounds: found.rounds,
            },
        }),
        General::Unfinished(rounds) => Err(GeneralStop::Unfinished(rounds)),
    }
}
