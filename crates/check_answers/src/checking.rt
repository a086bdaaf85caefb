//! The check of an answer.
ghost use Rattle.std.specs.Prelude.{◌≡◌, not, find, length, IfOk, IsTrue};
ghost use Rattle.lk_model.specs.Documents.Form.{are_steps};
ghost use Rattle.lk_model.specs.Formulas.Assignment.{satisfies};
ghost use Rattle.lk_model.specs.Formulas.Formula.{clause_at, positions_of};
ghost use Rattle.lk_model.specs.Held.PartialValues.{assignment_by};
ghost use Rattle.lk_model.specs.Documents.Answers.{is_answer, is_total};
ghost use Rattle.check_answers.specs.AnswerChecks.{first_failure_of_answer};
ghost use Rattle.lk_model.specs.declared.answer.Answer.TheVariants.{Model, Refuted};

use crate::core_checking::core_failure;
use check_rounds::misstated_step;
use lk_model::{Answer, Formula, Kind, Lit, OutOfMemory, Round, Why};
use partial_assign::{Partial, assignment_of};
use std::alloc::Global;

/// The first failing check of an answer, which is in form for the formula's numbers of variables and clauses: the
/// least position whose clause a model does not satisfy, the first step of a refutation that does not state the
/// clause of its chain, or the first check of a core that fails. The error says that memory ran out.
pub fn check_answer(alloc: Global, f: &Formula, answer: &Answer) -> Result<Option<Why>, OutOfMemory>
    requires { IsTrue (is_answer f.now.vars (length f.now.clauses) answer.now) }
    ensures { IfOk result (λ why. why ≡ first_failure_of_answer f.now answer.now) }
{
    match answer {
        Answer::Model(lits) => model_failure(alloc, f, lits.as_slice()),
        Answer::Refuted(round) => round_failure(alloc, f, round),
        Answer::Core(core) => core_failure(alloc, f, core),
    }
}

/// The first failing check of a model.
fn model_failure(alloc: Global, f: &Formula, lits: &[Lit]) -> Result<Option<Why>, OutOfMemory>
    requires { IsTrue (is_total f.now.vars lits.now) }
    ensures { IfOk result (λ why. why ≡ first_failure_of_answer f.now (Model lits.now)) }
{
    let values = assignment_of(alloc, f.vars(), lits)?;
    match first_unsatisfied(f, &values) {
        Some(position) => Ok(Some(Why {
            kind: Kind::ModelFails,
            place: u64::from(position),
        })),
        None => Ok(None),
    }
}

/// The least position whose clause is not satisfied.
fn first_unsatisfied(f: &Formula, values: &Partial) -> Option<u32>
    requires { length values.now ≡ f.now.vars }
    ensures { result ≡ find (λ p. not (satisfies (assignment_by values.now) (clause_at f.now p))) (positions_of f.now) }
{
    (1..f.len() + 1).find(|p| !values.satisfies(f.clause(*p)))
}

/// The first failing check of a refutation.
fn round_failure(alloc: Global, f: &Formula, round: &Round) -> Result<Option<Why>, OutOfMemory>
    requires { IsTrue (are_steps f.now.vars (length f.now.clauses) round.now.steps) }
    ensures { IfOk result (λ why. why ≡ first_failure_of_answer f.now (Refuted round.now)) }
{
    let all = f.positions(alloc)?;
    match misstated_step(alloc, f, all.as_slice(), round)? {
        Some(number) => Ok(Some(Why {
            kind: Kind::BadStep,
            place: number,
        })),
        None => Ok(None),
    }
}
