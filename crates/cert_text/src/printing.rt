//! Printing documents: their lines, in their order.
ghost use Rattle.std.specs.Prelude.{◌≡◌, ◌++◌, OnOk, IfOk};
ghost use Rattle.std.specs.List.{flat_map};
ghost use Rattle.lk_model.specs.Texts.PlainText.{line};
ghost use Rattle.lk_model.specs.Documents.Documents.{class_of};
ghost use Rattle.lk_model.specs.Documents.Text.{class_lines, class_word, document_lines, text_of};
ghost use Rattle.lk_model.specs.declared.document.Document.TheVariants.{Done};
ghost use Rattle.cert_text.specs.Printed.{found_lines};

mod entry;
mod front;
mod linear;
mod matching;
mod pure;
mod unfinished;

use self::front::put_first_lines;
use self::linear::put_linear;
use self::matching::put_matching;
use self::pure::put_pure;
use self::unfinished::put_unfinished;
use formula_text::put_formula;
use line_text::{put_literal_line, put_number_line};
use lk_model::{Body, Document, DoneDocument, OutOfMemory};
use round_text::put_rounds;
use std::alloc::Global;

/// The one text of a document. Fails only if memory for the text runs out.
#[tactic(auto, using(crate::proofs::PrintedTexts::text_in_row))]
pub fn print(alloc: Global, d: &Document) -> Result<Vec<u8>, OutOfMemory>
    ensures { IfOk result (λ text. text.items ≡ text_of d.now) }
{
    let mut out = Vec::new(alloc);
    match d {
        Document::Done(done) => put_done(&mut out, done)?,
        Document::Unfinished(unfinished) => put_unfinished(&mut out, unfinished)?,
    }
    Ok(out)
}

/// Appends the lines of a finished document.
fn put_done(out: &mut Vec<u8>, d: &DoneDocument) -> Result<(), OutOfMemory>
    ensures { OnOk result (out.new.items
        ≡ out.old.items ++ flat_map line (document_lines (Done d.now))) }
{
    put_first_lines(out, class_name(&d.body), d.vars, d.clauses, &d.protect)?;
    put_found(out, d)
}

/// Appends the lines after the first ones of a finished document.
fn put_found(out: &mut Vec<u8>, d: &DoneDocument) -> Result<(), OutOfMemory>
    ensures { OnOk result (out.new.items ≡ out.old.items ++ flat_map line (found_lines d.now)) }
{
    put_number_line(out, b"keep", d.kept.as_slice())?;
    put_literal_line(out, b"set", d.set.as_slice())?;
    put_body(out, &d.body)?;
    put_formula(out, &d.texts)
}

/// Appends the lines of the class.
fn put_body(out: &mut Vec<u8>, body: &Body) -> Result<(), OutOfMemory>
    ensures { OnOk result (out.new.items
        ≡ out.old.items ++ flat_map line (class_lines body.now)) }
{
    match body {
        Body::Pure { order, pairs } => put_pure(out, order.as_slice(), pairs.as_slice()),
        Body::Matching { own, rows } => put_matching(out, own.as_slice(), rows.as_slice()),
        Body::Linear {
            stages,
            dual,
            units,
        } => put_linear(out, stages.as_slice(), dual.as_slice(), units.as_slice()),
        Body::General { rounds } => put_rounds(out, rounds.as_slice()),
    }
}

/// The word for the class.
fn class_name(body: &Body) -> &'static [u8]
    ensures { result.now ≡ class_word (class_of body.now) }
{
    match body {
        Body::Pure { .. } => b"pure",
        Body::Matching { .. } => b"matching",
        Body::Linear { .. } => b"linear",
        Body::General { .. } => b"general",
    }
}
