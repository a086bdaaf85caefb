//! How `demo` ends.
ghost use Rattle.std.specs.Prelude.{◌≡◌, ◌++◌, length, IfOk, OnOk, IsTrue};
ghost use Rattle.demo_formula.specs.Demo.{demo_formula};
ghost use Rattle.lean_checker.specs.Verdicts.{verdict_words};
ghost use Rattle.lean_checker.specs.declared.verdict.Verdict.TheVariants.{Accepted};
ghost use Rattle.lk_model.specs.Checks.Checks.{Accepts};
ghost use Rattle.lk_model.specs.Formulas.Formula.{is_formula};
ghost use Rattle.lk_model.specs.Texts.PlainText.{line};
ghost use Rattle.lk_model.specs.declared.class.Class.TheVariants.{Matching};
ghost use Rattle.command_endings.specs.Commands.Demo.{conflicts, Answers, WritesDemo};
ghost use Rattle.command_endings.specs.Commands.Report.{IsKernelSize};
ghost use Rattle.reductions.specs.Founds.{IsKernelFound};
ghost use Rattle.status_lines.specs.Statuses.{is_result};

use crate::reduce_general::unfinished;
use crate::rows::{Row, text_of};
use demo_formula::demo_formula;
use lean_checker::{Verdict, check, put_verdict};
use lk_model::{Budget, Document, DoneDocument, Formula, OutOfMemory};
use lk_outside::Gate;
use part_kernels::matching_by_parts;
use reductions::{Found, GeneralStop, document_of, find_general, open_document_of};
use status_lines::{Ending, Status};
use std::alloc::Global;
use std::thread::Threads;

/// How many clauses may be learned for the general kernel.
const CONFLICTS: u64 = 100_000;

/// Writes the sizes of the kernels of the formula of a number, and what the checks say of the document of the
/// general one; or, if that is not finished when the budget is used up, the unfinished document of one part, where the
/// parts before it can be finished.
pub fn answer<R: Threads + Sync, G: Gate>(
    rt: &R,
    alloc: Global,
    gate: &G,
    number: u64,
) -> Result<Ending, OutOfMemory>
    ensures answers { IfOk result (λ e. Answers number e.written.items e.said.items e.status) }
    ensures result { IfOk result (λ e. IsTrue (is_result e.status)) }
{
    let formula = demo_formula(alloc, number)?;
    let conflicts = Budget::new(CONFLICTS).unwrap();
    match find_general(rt, alloc, gate, &formula, conflicts, 1) {
        Ok(found) => Ok(Ending {
            status: Status::Done,
            written: lines_of(rt, alloc, gate, number, &formula, found)?,
            said: Vec::new(alloc),
        }),
        Err(GeneralStop::Unfinished(rounds)) => {
            let document = open_document_of(formula, None, CONFLICTS, rounds);
            unfinished(alloc, document)
        }
        Err(GeneralStop::OutOfMemory) => Err(OutOfMemory),
    }
}

/// The lines of a number: its formula, the sizes of both kernels, and the verdict on the document of the general
/// one.
fn lines_of<R: Threads + Sync, G: Gate>(
    rt: &R,
    alloc: Global,
    gate: &G,
    number: u64,
    f: &Formula,
    found: Found,
) -> Result<Vec<u8>, OutOfMemory>
    requires formula { f.now ≡ demo_formula number }
    requires vars { f.now.vars ≡ 2200 }
    requires clauses { length f.now.clauses ≡ 6400 }
    requires found { IsKernelFound f.now conflicts found }
    ensures { IfOk result (λ text. WritesDemo number text.items) }
{
    let vars = f.vars();
    let general = found.kept.len() as u64;
    let document = document_of(alloc, f, None, found)?;
    let verdict = verdict_on(rt, alloc, gate, f, document)?;
    let matching = matching_size(rt, alloc, gate, f)?;
    let mut text = text_of(
        alloc,
        &[
            Row {
                word: "demo",
                number,
            },
            Row {
                word: "variables",
                number: u64::from(vars),
            },
            Row {
                word: "clauses",
                number: u64::from(f.len()),
            },
            Row {
                word: "matching",
                number: matching,
            },
            Row {
                word: "general",
                number: general,
            },
        ],
    )?;
    put_line(&mut text, &verdict)?;
    Ok(text)
}

/// The size of the matching kernel of a formula.
fn matching_size<R: Threads + Sync, G: Gate>(
    rt: &R,
    alloc: Global,
    gate: &G,
    f: &Formula,
) -> Result<u64, OutOfMemory>
    requires formula { IsTrue (is_formula f.now) }
    ensures { IfOk result (IsKernelSize Matching f.now) }
{
    let found = matching_by_parts(rt, alloc, gate, f, 1)?;
    Ok(found.kept.len() as u64)
}

/// The verdict on a document that the checks accept.
fn verdict_on<R: Threads + Sync, G: Gate>(
    rt: &R,
    alloc: Global,
    gate: &G,
    f: &Formula,
    document: DoneDocument,
) -> Result<Verdict, OutOfMemory>
    requires accepted { Accepts f.now document }
    ensures { IfOk result (λ verdict. verdict ≡ Accepted) }
{
    let document = Document::Done(document);
    let verdict = check(rt, alloc, gate, f, &document, 1);
    drop(document);
    verdict
}

/// Appends the line of a verdict.
fn put_line(text: &mut Vec<u8>, verdict: &Verdict) -> Result<(), OutOfMemory>
    ensures { OnOk result (text.new.items ≡ text.old.items ++ line (verdict_words verdict.now)) }
{
    let told = put_verdict(verdict);
    text.extend_from_slice(&told.bytes[..told.len])?;
    Ok(())
}
