//! A formula, decided part by part.
//!
//! Parts share no variable. So a refuted part refutes the formula, and models of all parts make one of the formula. A
//! part that is easily refuted may stand behind a hard one, so all of them are first searched with a small budget.
ghost use Rattle.std.specs.Prelude.{◌≡◌, IfOk, IsTrue};
ghost use Rattle.lk_model.specs.Formulas.Formula.{positions_of};
ghost use Rattle.lk_model.specs.Formulas.Lean.{are_positions};
ghost use Rattle.lk_model.specs.Formulas.Parts.{AreParts};
ghost use Rattle.part_copy.specs.Found.{are_filled, sets_only};
ghost use Rattle.mus_core.specs.ByParts.{IsDecidedByParts, IsPartDecided};

use crate::mus::Mus;
use autarky_compose::join_general;
use cdcl_core::Schedule;
use lk_model::{Budget, Decided, Formula, GeneralResult, List, Lit, OutOfMemory};
use par_parts::parts;
use part_copy::{OpenRound, PartCopy};
use part_formula::{Refuted, decide_clauses};
use std::alloc::Global;

/// How many clauses each order may learn of a part when all parts are searched for the first time.
const FIRST_BUDGET: u64 = 1_000;

/// What is decided of a formula of which no clause is empty, if the search in each part may learn `conflicts` clauses.
pub(crate) fn decide_by_parts(
    alloc: Global,
    f: &Formula,
    conflicts: Budget,
) -> Result<Decided<List<Lit>, Refuted, Mus>, OutOfMemory>
    requires { IsTrue (are_filled f.now (positions_of f.now)) }
    ensures { IfOk result (IsDecidedByParts f.now conflicts) }
{
    let list = parts(alloc, f)?;
    if list.len() > 1 && conflicts.get() > FIRST_BUDGET {
        if let Some(first) = Budget::new(FIRST_BUDGET) {
            match decide_each(alloc, f, list.as_slice(), first)? {
                Decided::Model(set) => return Ok(Decided::Model(set)),
                Decided::Refuted(part) => return Ok(Decided::Refuted(part)),
                Decided::Stopped(_) => {}
            }
        }
    }
    decide_each(alloc, f, list.as_slice(), conflicts)
}

// The first refutation in the order of the parts, or else the first search that stopped, or else all models, joined.
fn decide_each(
    alloc: Global,
    f: &Formula,
    list: &[List<u32>],
    conflicts: Budget,
) -> Result<Decided<List<Lit>, Refuted, Mus>, OutOfMemory>
    requires parts { AreParts f.now list.now }
    requires filled { IsTrue (are_filled f.now (positions_of f.now)) }
    ensures { IfOk result (IsDecidedByParts f.now conflicts) }
{
    let mut models = List::new(alloc);
    let mut stopped: Option<Stop> = None;
    for part in list {
        match decide_part(alloc, f, part.as_slice(), conflicts)? {
            Decided::Model(set) => models.push(only_set(alloc, set))?,
            Decided::Refuted(refutation) => return Ok(Decided::Refuted(refutation)),
            Decided::Stopped(stop) => stopped = Some(stopped.unwrap_or(stop)),
        }
    }
    match stopped {
        Some(stop) => Ok(Decided::Stopped(Mus::Unfinished {
            part: stop.part,
            texts: stop.open.texts,
            round: stop.open.round,
        })),
        None => Ok(Decided::Model(join_general(alloc, f.len(), models)?.set)),
    }
}

/// A search over a part that stopped.
#[derive(Drop)]
pub(crate) struct Stop {
    pub part: List<u32>,
    pub open: OpenRound,
}

// What is decided of a part, in a copy of its own, by all orders of variables, which alternate.
fn decide_part(
    alloc: Global,
    f: &Formula,
    part: &[u32],
    conflicts: Budget,
) -> Result<Decided<List<Lit>, Refuted, Stop>, OutOfMemory>
    requires part { IsTrue (are_positions f.now part.now) }
    requires filled { IsTrue (are_filled f.now (positions_of f.now)) }
    ensures { IfOk result (IsPartDecided f.now conflicts part.now) }
{
    let copy = PartCopy::of(alloc, f, part)?;
    match decide_clauses(alloc, copy.clauses(), &mut Schedule::for_cores(), conflicts)? {
        Decided::Model(set) => Ok(Decided::Model(copy.literals(set))),
        Decided::Refuted(found) => Ok(Decided::Refuted(Refuted {
            round: copy.refutation(alloc, found.round)?,
            used: copy.positions(found.used),
        })),
        Decided::Stopped(round) => {
            let open = copy.open_alone(alloc, round)?;
            let part = copy.into_part();
            Ok(Decided::Stopped(Stop { part, open }))
        }
    }
}

// The result that keeps nothing and makes these literals true.
fn only_set(alloc: Global, set: List<Lit>) -> GeneralResult
    ensures { result ≡ sets_only set }
{
    GeneralResult {
        kept: List::new(alloc),
        set,
        rounds: List::new(alloc),
    }
}
