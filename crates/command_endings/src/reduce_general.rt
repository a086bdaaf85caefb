//! How `reduce general` ends.
ghost use Rattle.std.specs.Prelude.{◌≡◌, IfOk};
ghost use Rattle.lk_model.specs.Documents.Text.{text_of};
ghost use Rattle.lk_model.specs.declared.document.Document.TheVariants.{Unfinished};
ghost use Rattle.command_words.specs.OptionRows.{values_of};
ghost use Rattle.command_endings.specs.Answering.{IsAnswer};
ghost use Rattle.status_lines.specs.RunLines.{conflicts_line};

use crate::protect::problem_of;
use crate::reduce::{printed, reduced};
use command_words::{Command, Options};
use lk_model::{Document, Formula, OpenDocument, OutOfMemory};
use lk_outside::Gate;
use reductions::{GeneralStop, find_general};
use status_lines::{Ending, Status, conflicts_line};
use std::alloc::Global;
use std::thread::Threads;

/// The document of the general kernel of a formula, or an unfinished one.
pub fn answer<R: Threads + Sync, G: Gate>(
    rt: &R,
    alloc: Global,
    gate: &G,
    formula: Formula,
    options: &Options<'_>,
) -> Result<Ending, OutOfMemory>
    ensures { IfOk result (IsAnswer Command.ReduceGeneral (values_of options.now) (formula, tt)) }
{
    let problem = problem_of(alloc, formula, options.protect)?;
    let conflicts = options.conflicts;
    match find_general(
        rt,
        alloc,
        gate,
        problem.left(),
        conflicts,
        options.workers.get(),
    ) {
        Ok(found) => reduced(alloc, problem, found),
        Err(GeneralStop::Unfinished(rounds)) => {
            let document = problem.open_document(conflicts.get(), rounds);
            unfinished(alloc, document)
        }
        Err(GeneralStop::OutOfMemory) => {
            // A drop by a call is proved once. Each exit would spell it out.
            drop(problem);
            Err(OutOfMemory)
        }
    }
}

/// The ending that writes an unfinished document, and says how many clauses it learned.
pub(crate) fn unfinished(alloc: Global, document: OpenDocument) -> Result<Ending, OutOfMemory>
    ensures status { IfOk result (λ e. e.status ≡ Status.Budget) }
    ensures written { IfOk result (λ e. e.written.items ≡ text_of (Unfinished document)) }
    ensures said { IfOk result (λ e. e.said.items ≡ conflicts_line document.learned) }
{
    let learned = document.learned;
    Ok(Ending {
        status: Status::Budget,
        written: printed(alloc, Document::Unfinished(document))?,
        said: conflicts_line(alloc, learned)?,
    })
}
