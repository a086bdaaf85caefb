//! The checks of an unfinished document.
ghost use Rattle.std.specs.Prelude.{◌≡◌, ◌≤◌, ◌<◌, ◌==◌, not, None, filter, find, length, IfOk, IsTrue};
ghost use Rattle.std.specs.List.{list_all};
ghost use Rattle.lk_model.specs.Lists.{is_empty};
ghost use Rattle.lk_model.specs.Documents.Documents.{steps_of};
ghost use Rattle.lk_model.specs.Formulas.Formula.{clause_at, positions_of};
ghost use Rattle.lk_model.specs.Formulas.Literal.{is_same_list};
ghost use Rattle.lk_model.specs.Formulas.Crossed.{no_variable};
ghost use Rattle.lk_model.specs.Documents.Form.{are_steps, is_open_in_form};
ghost use Rattle.lk_model.specs.Checks.Check.{first_of};
ghost use Rattle.lk_model.specs.Checks.Checks.{first_failure};
ghost use Rattle.lk_model.specs.Checks.RoundChecks.{learned_steps};
ghost use Rattle.lk_model.specs.declared.document.Document.TheVariants.{Unfinished};
ghost use Rattle.lk_model.specs.declared.document.Step.{Step as AStep};
ghost use Rattle.lk_model.specs.declared.document.Round.{Round as ARound};
ghost use Rattle.check_rounds.specs.Learned.{are_open_but_last};
ghost use Rattle.lean_checker.specs.Unfinished.{HasOpenSizes, text_checks, step_checks};

use crate::common::{failure, is_same_list, other_formula};
use crate::protected::without_protected;
use check_rounds::{bad_step, blocks_of, not_learned};
use check_tables::Workers;
use lk_model::{Formula, Kind, OpenDocument, OutOfMemory, Round, Step, Why};
use lk_outside::Gate;
use std::alloc::Global;
use std::thread::Threads;

/// The first failing check of an unfinished document.
pub(crate) fn open_failure<R: Threads + Sync, G: Gate>(
    workers: &Workers<R, G>,
    alloc: Global,
    f: &Formula,
    d: &OpenDocument,
) -> Result<Option<Why>, OutOfMemory>
    requires form { IsTrue (is_open_in_form d.now) }
    ensures { IfOk result (λ why. why ≡ first_failure f.now (Unfinished d.now)) }
{
    if let Some(why) = text_failure(workers, f, d)? {
        return Ok(Some(why));
    }
    match without_protected(alloc, f, &d.protect)? {
        Some(rest) => step_failure(workers, alloc, &rest, d.rounds.as_slice()),
        None => step_failure(workers, alloc, f, d.rounds.as_slice()),
    }
}

/// The first failing check of those of the numbers and the clause lines.
fn text_failure<R: Threads + Sync, G: Gate>(
    workers: &Workers<R, G>,
    f: &Formula,
    d: &OpenDocument,
) -> Result<Option<Why>, OutOfMemory>
    requires { IsTrue (is_open_in_form d.now) }
    ensures first { IfOk result (λ why. why ≡ first_of (text_checks f.now d.now)) }
    ensures sizes { IfOk result (λ why. why ≡ None → HasOpenSizes f.now d.now) }
{
    if let Some(place) = other_formula(f, d.vars, d.clauses) {
        return Ok(failure(Kind::OtherFormula, place));
    }
    if let Some(place) = every_clause(workers, f, &d.texts)? {
        return Ok(failure(Kind::KeptClause, place));
    }
    if !has_learned(d.rounds.as_slice(), d.learned) {
        return Ok(failure(Kind::BadCount, 0));
    }
    Ok(None)
}

/// The first failing check of those of the steps, where no variable is protected.
fn step_failure<R: Threads + Sync, G: Gate>(
    workers: &Workers<R, G>,
    alloc: Global,
    f: &Formula,
    rounds: &[Round],
) -> Result<Option<Why>, OutOfMemory>
    requires steps { IsTrue (are_steps f.now.vars (length f.now.clauses) (steps_of rounds.now)) }
    requires rounds { IsTrue (list_all (λ (r : ARound). are_open_but_last r.steps) rounds.now) }
    ensures { IfOk result (λ why. why ≡ first_of (step_checks no_variable f.now rounds.now)) }
{
    let part = f.positions(alloc)?;
    let blocks = blocks_of(alloc, f, rounds)?;
    if let Some(number) = bad_step(workers, alloc, f, part.as_slice(), rounds, &blocks)? {
        return Ok(Some(Why {
            kind: Kind::BadStep,
            place: number,
        }));
    }
    match not_learned(workers, alloc, f, part.as_slice(), rounds, &blocks)? {
        Some(number) => Ok(Some(Why {
            kind: Kind::NotLearned,
            place: number,
        })),
        None => Ok(None),
    }
}

/// The first position whose clause line is not the formula's clause.
fn every_clause<R: Threads + Sync, G: Gate>(
    workers: &Workers<R, G>,
    f: &Formula,
    texts: &Formula,
) -> Result<Option<u32>, OutOfMemory>
    requires { length texts.now.clauses ≡ length f.now.clauses }
    ensures { IfOk result
        (λ place. place ≡ find (λ p. not (is_same_list (clause_at texts.now p) (clause_at f.now p)))
        (positions_of f.now)) }
{
    workers.least_place(f.len(), &|p| is_other_clause(f, texts, p))
}

/// Whether two formulas have other clauses at a position.
fn is_other_clause(f: &Formula, texts: &Formula, p: u32) -> bool
    requires first { 0 < p }
    requires last { p ≤ length f.now.clauses }
    requires lines { length texts.now.clauses ≡ length f.now.clauses }
    ensures { result ≡ not (is_same_list (clause_at texts.now p) (clause_at f.now p)) }
{
    !is_same_list(texts.clause(p), f.clause(p))
}

/// Whether exactly `learned` steps have a clause that is not empty.
fn has_learned(rounds: &[Round], learned: u64) -> bool
    ensures { result ≡ (length (learned_steps rounds.now) == learned) }
{
    let mut remaining = learned;
    for k in 0..rounds.len() {
        let count = learned_count(rounds[k].steps.as_slice());
        if count as u64 > remaining {
            return false;
        }
        remaining -= count as u64;
    }
    remaining == 0
}

/// How many steps have a clause that is not empty.
fn learned_count(steps: &[Step]) -> usize
    ensures { result ≡ length (filter (λ (s : AStep). not (is_empty s.clause)) steps.now) }
{
    let mut count = 0;
    for i in 0..steps.len() {
        if steps[i].clause.len() > 0 {
            count += 1;
        }
    }
    count
}
