//! How `solve` ends.
ghost use Rattle.std.specs.Prelude.{◌≡◌, ◌∷◌, ◌<◌, ◌^◌, [], None, IfOk, IsTrue};
ghost use Rattle.lk_model.specs.Documents.Text.{text_of};
ghost use Rattle.lk_model.specs.Formulas.Formula.{is_formula, IsWithinLimits};
ghost use Rattle.lk_model.specs.declared.document.Document.TheVariants.{Unfinished};
ghost use Rattle.lk_model.specs.Documents.Answers.{answer_text};
ghost use Rattle.command_words.specs.OptionRows.{values_of};
ghost use Rattle.reductions.specs.Founds.{open_document_of};
ghost use Rattle.command_endings.specs.Answering.{IsAnswer};
ghost use Rattle.status_lines.specs.RunLines.{conflicts_line};

use crate::reduce_general::unfinished;
use answer_check::{Answer, print_answer};
use command_words::{Command, Options};
use kernel_solve::solve;
use lk_model::{Budget, Decided, Formula, List, OutOfMemory, Round};
use lk_outside::Gate;
use reductions::open_document_of;
use status_lines::{Ending, Status};
use std::alloc::Global;
use std::thread::Threads;

/// A model of a formula, or a refutation, or the unfinished document of a search that used up its budget.
pub fn answer<R: Threads + Sync, G: Gate>(
    rt: &R,
    alloc: Global,
    gate: &G,
    formula: Formula,
    options: &Options<'_>,
) -> Result<Ending, OutOfMemory>
    ensures { IfOk result (IsAnswer Command.Solve (values_of options.now) (formula, tt)) }
{
    let conflicts = options.conflicts;
    let workers = options.workers.get();
    // (by it contracts see that the formula is one)
    let _vars = formula.vars();
    let solved = solve(rt, alloc, gate, &formula, conflicts, workers)?;
    match solved {
        Decided::Model(literals) => answered(alloc, Status::Satisfiable, Answer::Model(literals)),
        Decided::Refuted(round) => answered(alloc, Status::Unsatisfiable, Answer::Refuted(round)),
        Decided::Stopped(round) => unfinished_round(alloc, formula, conflicts, round),
    }
}

/// The ending with this status that writes an answer.
pub(crate) fn answered(alloc: Global, status: Status, answer: Answer) -> Result<Ending, OutOfMemory>
    ensures status { IfOk result (λ e. e.status ≡ status) }
    ensures written { IfOk result (λ e. e.written.items ≡ answer_text answer) }
    ensures said { IfOk result (λ e. e.said.items ≡ []) }
{
    Ok(Ending {
        status,
        written: print_answer(alloc, &answer)?,
        said: Vec::new(alloc),
    })
}

/// The ending of a search over a formula that used up its budget in its one round.
pub(crate) fn unfinished_round(
    alloc: Global,
    formula: Formula,
    conflicts: Budget,
    round: Round,
) -> Result<Ending, OutOfMemory>
    ensures status { IfOk result (λ e. e.status ≡ Status.Budget) }
    ensures written { IfOk result (λ e.
        e.written.items ≡ text_of (Unfinished (open_document_of formula None conflicts (round ∷ [])))) }
    ensures said { IfOk result (λ e. e.said.items ≡ conflicts_line conflicts) }
    ensures most { conflicts < 2 ^ 63 }
    ensures formula { IfOk result (λ _. IsTrue (is_formula formula)) }
    ensures limits { IfOk result (λ _. IsWithinLimits formula) }
{
    let learned = conflicts.get();
    match one_round(alloc, round) {
        Ok(rounds) => unfinished(alloc, open_document_of(formula, None, learned, rounds)),
        Err(OutOfMemory) => Err(OutOfMemory),
    }
}

/// A list of one round.
fn one_round(alloc: Global, round: Round) -> Result<List<Round>, OutOfMemory>
    ensures { IfOk result (λ rounds. rounds ≡ round ∷ []) }
{
    let mut rounds = List::new(alloc);
    rounds.push(round)?;
    Ok(rounds)
}
