//! How `extend` ends.
ghost use Rattle.std.specs.Prelude.{◌≡◌, ◌≤◌, length, map, IfOk, IsTrue};
ghost use Rattle.lk_model.specs.Lists.{rises_within};
ghost use Rattle.lk_model.specs.Formulas.Literal.{variable};
ghost use Rattle.lk_model.specs.Formulas.Assignment.{assignment_of, extended, extended_literals};
ghost use Rattle.lk_model.specs.Held.PartialValues.{assignment_by};
ghost use Rattle.lk_model.specs.Documents.Form.{is_done_in_form, is_in_form};
ghost use Rattle.lk_model.specs.declared.document.Document.TheVariants.{Done as Finished};
ghost use Rattle.command_endings.specs.Commands.Extend.{Tells, failure_line};

use cert_text::print_model;
use lean_checker::{Verdict, check_extend, put_verdict};
use lk_model::{Document, DoneDocument, Formula, List, Lit, OutOfMemory, Why};
use partial_assign::{Partial, assignment_of, extend_total};
use status_lines::{Ending, Status};
use std::alloc::Global;

/// The ending that reports what comes of a model: 5 if the document is unfinished, 8 if a check fails,
/// and 0 if the model is extended.
pub fn answer(
    alloc: Global,
    f: &Formula,
    document: &Document,
    model: &Partial,
) -> Result<Ending, OutOfMemory>
    requires form { IsTrue (is_in_form document.now) }
    requires vars { length model.now ≡ f.now.vars }
    ensures { IfOk result (λ e.
        Tells f.now document.now (assignment_by model.now) e.status e.written.items e.said.items) }
{
    match document {
        Document::Done(done) => told_of_done(alloc, f, done, model),
        Document::Unfinished(_) => Ok(Ending {
            status: Status::Budget,
            written: Vec::new(alloc),
            said: Vec::from_slice(alloc, b"leank: unfinished document\n")?,
        }),
    }
}

/// The ending that reports what comes of a model by a finished document.
fn told_of_done(
    alloc: Global,
    f: &Formula,
    d: &DoneDocument,
    model: &Partial,
) -> Result<Ending, OutOfMemory>
    requires form { IsTrue (is_done_in_form d.now) }
    requires vars { length model.now ≡ f.now.vars }
    ensures { IfOk result (λ e.
        Tells f.now (Finished d.now) (assignment_by model.now) e.status e.written.items e.said.items) }
{
    if let Some(why) = check_extend(alloc, f, d, model)? {
        return Ok(Ending {
            status: Status::Refused,
            written: Vec::new(alloc),
            said: failure_line(alloc, why)?,
        });
    }
    let literals = extension(alloc, f.vars(), d.set.as_slice(), model)?;
    Ok(Ending {
        status: Status::Done,
        written: print_model(alloc, literals.as_slice())?,
        said: Vec::new(alloc),
    })
}

/// The line that reports the check that fails.
fn failure_line(alloc: Global, why: Why) -> Result<Vec<u8>, OutOfMemory>
    ensures { IfOk result (λ said. said.items ≡ failure_line why) }
{
    let line = put_verdict(&Verdict::No(why));
    let mut said = Vec::from_slice(alloc, b"leank: ")?;
    said.extend_from_slice(&line.bytes[..line.len])?;
    Ok(said)
}

/// A literal for each variable from 1 to n: that of a set line where it sets the variable, else that of the
/// model, else the negative one.
fn extension(alloc: Global, n: u32, set: &[Lit], model: &Partial) -> Result<List<Lit>, OutOfMemory>
    requires few { n ≤ 1000000 }
    requires rising { IsTrue (rises_within 0 n (map variable set.now)) }
    requires vars { length model.now ≡ n }
    ensures literals { IfOk result (λ ls. ls ≡ extended_literals (assignment_of set.now) (assignment_by model.now) n) }
    ensures values { IfOk result
        (λ ls. assignment_of ls ≡ extended (assignment_of set.now) (assignment_by model.now) n) }
{
    let values = assignment_of(alloc, n, set)?;
    extend_total(alloc, &values, model)
}
