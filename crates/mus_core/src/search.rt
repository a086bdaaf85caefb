//! A minimally unsatisfiable core of a formula, or a model of it.
ghost use Rattle.std.specs.Prelude.{IfOk, IsTrue};
ghost use Rattle.lk_model.specs.Formulas.Formula.{positions_of};
ghost use Rattle.part_copy.specs.Found.{are_filled, IsPartModel};
ghost use Rattle.mus_core.specs.ByParts.{IsRefutedSet};
ghost use Rattle.mus_core.specs.Found.{IsMus, IsWholeModel, TakesEmpty};

use crate::by_parts::decide_by_parts;
use crate::mus::Mus;
use crate::shrinking::shrink;
use empty_clauses::{empty_core, first_empty};
use lk_model::{Budget, Decided, Formula, List, Lit, OutOfMemory};
use part_copy::PartCopy;
use part_formula::Refuted;
use partial_assign::{Partial, assignment_of, extend_total};
use std::alloc::Global;

/// A minimally unsatisfiable core of a formula, or a model of it, where each single decision may learn `conflicts`
/// clauses. The refutation of the core has at most that many learned clauses, and none of its steps is needless. The
/// search is unfinished only if `conflicts` is below 3^n, for the n variables of the formula, and no part of the
/// formula is refuted, or a core was being made smaller. If a clause is empty, the first such clause is the core. The
/// error is that there is no memory; more steps than have numbers of 64 bits count as that.
pub fn minimal(alloc: Global, f: &Formula, conflicts: Budget) -> Result<Mus, OutOfMemory>
    ensures found { IfOk result (IsMus f.now conflicts) }
    ensures empty { IfOk result (TakesEmpty f.now) }
{
    match first_empty(f) {
        Some(p) => Ok(Mus::Core(empty_core(alloc, f, p)?)),
        None => minimal_of_filled(alloc, f, conflicts),
    }
}

// Where no clause is empty.
fn minimal_of_filled(alloc: Global, f: &Formula, conflicts: Budget) -> Result<Mus, OutOfMemory>
    requires { IsTrue (are_filled f.now (positions_of f.now)) }
    ensures { IfOk result (IsMus f.now conflicts) }
{
    match decide_by_parts(alloc, f, conflicts)? {
        Decided::Model(set) => Ok(Mus::Model(whole_model(alloc, f, set.as_slice())?)),
        Decided::Refuted(found) => minimal_of_refuted(alloc, f, found, conflicts),
        Decided::Stopped(mus) => Ok(mus),
    }
}

// A literal for each variable, negative where the model has none.
fn whole_model(alloc: Global, f: &Formula, set: &[Lit]) -> Result<List<Lit>, OutOfMemory>
    requires { IsPartModel f.now (positions_of f.now) set.now }
    ensures { IfOk result (IsWholeModel f.now) }
{
    let values = assignment_of(alloc, f.vars(), set)?;
    let none = Partial::new(alloc, f.vars())?;
    extend_total(alloc, &values, &none)
}

// From the clauses that a refutation names.
fn minimal_of_refuted(
    alloc: Global,
    f: &Formula,
    found: Refuted,
    conflicts: Budget,
) -> Result<Mus, OutOfMemory>
    requires filled { IsTrue (are_filled f.now (positions_of f.now)) }
    requires refuted { IsRefutedSet f.now conflicts found }
    ensures { IfOk result (IsMus f.now conflicts) }
{
    let core = PartCopy::of(alloc, f, found.used.as_slice())?;
    let used = core.clauses().positions(alloc)?;
    let round = found.round;
    shrink(alloc, &core, Refuted { round, used }, conflicts)
}
