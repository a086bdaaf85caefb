//! Models that are to be extended by documents of any class.
ghost use Rattle.std.specs.Prelude.{◌≡◌, length, IsTrue};
ghost use Rattle.lk_model.specs.Documents.Form.{is_in_form};

use crate::built::split;
use crate::documents::{document_of, put_line};
use lean_checker::{Verdict, check_extend};
use lk_model::{Document, Formula, OutOfMemory, Why};
use lk_samples::{assignment_of_text, formula_of_text, number_of};
use partial_assign::Partial;
use std::alloc::Global;
use std::test::Fail;

/// The first failing check of a finished document and a model.
fn failure_of(
    alloc: Global,
    f: &Formula,
    d: &Document,
    psi: &Partial,
) -> Result<Option<Why>, OutOfMemory>
    requires form { IsTrue (is_in_form d.now) }
    requires vars { length psi.now ≡ f.now.vars }
{
    match d {
        Document::Done(done) => check_extend(alloc, f, done, psi),
        Document::Unfinished(_) => Err(OutOfMemory),
    }
}

/// Writes the first failing check of a document and a model.
fn put_failure(
    alloc: Global,
    f: &Formula,
    d: &Document,
    psi: &Partial,
    out: &mut String,
) -> Result<(), OutOfMemory>
    requires form { IsTrue (is_in_form d.now) }
    requires vars { length psi.now ≡ f.now.vars }
{
    match failure_of(alloc, f, d, psi)? {
        Some(why) => Ok(put_line(&Verdict::No(why), out)?),
        None => Ok(out.push_str("= none fails\n")?),
    }
}

/// Reports the first failing check of the document of a text, over the formula and the model that the pieces have.
pub(crate) fn tell_extension(
    alloc: Global,
    text: &str,
    parts: &str,
    out: &mut String,
) -> Result<(), Fail> {
    let (vars, parts) = split(parts);
    let (clauses, model) = split(parts);
    let f = formula_of_text(alloc, number_of(vars), clauses)?;
    let psi = assignment_of_text(alloc, f.vars(), model)?;
    match document_of(alloc, text.as_bytes()) {
        Ok(d) => Ok(put_failure(alloc, &f, &d, &psi, out)?),
        Err(_) => Err(Fail::from("no document in form")),
    }
}
