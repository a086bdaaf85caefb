//! How `reduce` ends, but for the class general.
ghost use Rattle.std.specs.Prelude.{◌≡◌, [], IfOk, IsTrue};
ghost use Rattle.lk_model.specs.Documents.Text.{text_of};
ghost use Rattle.lk_model.specs.Formulas.Formula.{is_formula, IsWithinLimits};
ghost use Rattle.lk_model.specs.Formulas.Lean.{are_positions};
ghost use Rattle.lk_model.specs.declared.document.Document.TheVariants.{Done as Finished};
ghost use Rattle.reductions.specs.Founds.{document_of};
ghost use Rattle.reductions.specs.Protecting.{line_of};
ghost use Rattle.command_words.specs.OptionRows.{values_of};
ghost use Rattle.command_endings.specs.Answering.{IsAnswer};

use crate::protect::problem_of;
use cert_text::print;
use command_words::{Command, Options};
use lk_model::{Document, DoneDocument, Formula, OutOfMemory};
use lk_outside::Gate;
use reductions::{Found, Problem, find_linear, find_matching, find_pure};
use status_lines::{Ending, Status, ending_of_linear_stop};
use std::alloc::Global;
use std::thread::Threads;

/// The document of the pure kernel of a formula.
pub fn answer_pure(
    alloc: Global,
    formula: Formula,
    options: &Options<'_>,
) -> Result<Ending, OutOfMemory>
    ensures { IfOk result (IsAnswer Command.ReducePure (values_of options.now) (formula, tt)) }
{
    let problem = problem_of(alloc, formula, options.protect)?;
    match find_pure(alloc, problem.left()) {
        Ok(found) => reduced(alloc, problem, found),
        Err(OutOfMemory) => {
            // A drop by a call is proved once. Each exit would spell it out.
            drop(problem);
            Err(OutOfMemory)
        }
    }
}

/// The document of the matching kernel of a formula.
pub fn answer_matching<R: Threads + Sync, G: Gate>(
    rt: &R,
    alloc: Global,
    gate: &G,
    formula: Formula,
    options: &Options<'_>,
) -> Result<Ending, OutOfMemory>
    ensures { IfOk result (IsAnswer Command.ReduceMatching (values_of options.now) (formula, tt)) }
{
    let problem = problem_of(alloc, formula, options.protect)?;
    match find_matching(rt, alloc, gate, problem.left(), options.workers.get()) {
        Ok(found) => reduced(alloc, problem, found),
        Err(OutOfMemory) => {
            drop(problem);
            Err(OutOfMemory)
        }
    }
}

/// The document of the linear kernel of a formula, or why there is none.
pub fn answer_linear(
    alloc: Global,
    formula: Formula,
    options: &Options<'_>,
) -> Result<Ending, OutOfMemory>
    ensures { IfOk result (IsAnswer Command.ReduceLinear (values_of options.now) (formula, tt)) }
{
    let problem = problem_of(alloc, formula, options.protect)?;
    match find_linear(alloc, problem.left(), options.pivots) {
        Ok(found) => reduced(alloc, problem, found),
        Err(stop) => {
            drop(problem);
            ending_of_linear_stop(alloc, stop)
        }
    }
}

/// The ending that writes the document of what was found in what is left of a problem.
pub(crate) fn reduced(alloc: Global, problem: Problem, found: Found) -> Result<Ending, OutOfMemory>
    requires positions { IsTrue (are_positions problem.formula found.kept) }
    ensures status { IfOk result (λ e. e.status ≡ Status.Done) }
    ensures written { IfOk result (λ e.
        e.written.items ≡ text_of (Finished (document_of problem.formula (line_of problem) found))) }
    ensures said { IfOk result (λ e. e.said.items ≡ []) }
    ensures formula { IsTrue (is_formula problem.formula) }
    ensures limits { IsWithinLimits problem.formula }
{
    let document = problem.document(alloc, found)?;
    written(alloc, document)
}

/// The ending that writes a document.
fn written(alloc: Global, document: DoneDocument) -> Result<Ending, OutOfMemory>
    ensures status { IfOk result (λ e. e.status ≡ Status.Done) }
    ensures written { IfOk result (λ e. e.written.items ≡ text_of (Finished document)) }
    ensures said { IfOk result (λ e. e.said.items ≡ []) }
{
    Ok(Ending {
        status: Status::Done,
        written: printed(alloc, Document::Done(document))?,
        said: Vec::new(alloc),
    })
}

/// The text of a document.
pub(crate) fn printed(alloc: Global, document: Document) -> Result<Vec<u8>, OutOfMemory>
    ensures { IfOk result (λ text. text.items ≡ text_of document) }
{
    let text = print(alloc, &document);
    drop(document);
    text
}
