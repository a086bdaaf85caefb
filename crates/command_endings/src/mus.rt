//! How `mus` ends.
ghost use Rattle.std.specs.Prelude.{◌≡◌, IfOk, IsTrue};
ghost use Rattle.lk_model.specs.Formulas.Formula.{is_formula, IsWithinLimits};
ghost use Rattle.lk_model.specs.Formulas.Lean.{are_positions};
ghost use Rattle.answer_check.specs.AnswerLaw.{written_core};
ghost use Rattle.command_words.specs.OptionRows.{values_of};
ghost use Rattle.command_endings.specs.Answering.{IsAnswer};

use crate::solve::{answered, unfinished_round};
use answer_check::Answer;
use command_words::{Command, Options};
use lk_model::{Formula, MusAnswer, MusResult, OutOfMemory};
use mus_core::{Mus, minimal};
use status_lines::{Ending, Status};
use std::alloc::Global;

/// A minimally unsatisfiable core of a formula, whose refutation is within the budget, or a model; or the unfinished
/// document of a search that used up its budget, where no part of the formula is refuted or a core was being made
/// smaller.
pub fn answer(alloc: Global, formula: Formula, options: &Options<'_>) -> Result<Ending, OutOfMemory>
    ensures { IfOk result (IsAnswer Command.Mus (values_of options.now) (formula, tt)) }
{
    let conflicts = options.conflicts;
    let found = minimal(alloc, &formula, conflicts)?;
    match found {
        Mus::Core(core) => {
            let core = written_core(alloc, &formula, core)?;
            answered(alloc, Status::Done, Answer::Core(core))
        }
        Mus::Model(literals) => answered(alloc, Status::Satisfiable, Answer::Model(literals)),
        Mus::Unfinished {
            part: _,
            texts,
            round,
        } => unfinished_round(alloc, texts, conflicts, round),
    }
}

/// A core as it is written, with the clauses of the formula at its positions.
fn written_core(
    alloc: Global,
    formula: &Formula,
    found: MusResult,
) -> Result<MusAnswer, OutOfMemory>
    requires positions { IsTrue (are_positions formula.now found.core) }
    ensures answer { IfOk result (λ core. core ≡ written_core formula.now found.core found.round found.without) }
    ensures formula { IsTrue (is_formula formula.now) }
    ensures limits { IsWithinLimits formula.now }
{
    let vars = formula.vars();
    let texts = formula.clauses_at(alloc, found.core.as_slice())?;
    Ok(MusAnswer {
        vars,
        clauses: formula.len(),
        core: found.core,
        round: found.round,
        without: found.without,
        texts,
    })
}
