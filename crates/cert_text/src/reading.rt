//! Reading documents, line by line.
//!
//! The lines before it say what a line has to be, so the first one with which no document goes on is known when it
//! ends. What is read is put where the document has it: no line is kept.
ghost use Rattle.std.specs.Prelude.{◌≡◌, ◌<◌, ◌==◌, ◌&&◌, IfOk, IfErr, false, length};
ghost use Rattle.lk_model.specs.declared.document.Document.TheVariants.{Done, Unfinished};
ghost use Rattle.cert_text.specs.Parts.{is_finished};
ghost use Rattle.cert_text.specs.Drafts.{clause_count, document_by, done_by, open_by, finished, fresh_draft};
ghost use Rattle.cert_text.specs.Drafts.{is_at_clauses, lines_read};
ghost use Rattle.cert_text.specs.Completing.{IsCompletedBy, IsRead};
ghost use Rattle.lk_model.specs.Documents.Reading.{IsTextOfDocument};
ghost use Rattle.cert_text.specs.ReadTexts.{IsStopAt, ReadsDocuments};
ghost use Rattle.line_text.specs.LineReading.{CanComplete};

use crate::draft::{Draft, LineDue};
use crate::part::{Part, body_of, is_finished, rounds_of};
use crate::read_pure::PurePart;
use crate::steps::{clause_count, take_line};
use line_text::{LineReader, read_lines};
use lk_model::{
    Document, DoneDocument, Formula, FormulaError, List, OpenClause, OpenDocument, OutOfMemory,
    ReadStop,
};
use std::alloc::Global;

/// Reads a document line by line. It keeps what was read, and the clause that grows while a clause line is
/// read.
#[derive(Drop)]
pub struct DocumentReader {
    draft: Draft,
    growing: OpenClause,
}

impl LineReader for DocumentReader {
    type Value = Document;

    ghost fits = { λ r. IsRead r.draft r.growing };

    ghost count = { λ r. length (lines_read r.draft) };

    ghost completes = { λ r. IsCompletedBy r.draft };

    fn take(&mut self, alloc: Global, line: &[u8]) -> Result<bool, OutOfMemory> {
        take_line(alloc, &mut self.draft, &mut self.growing, line)
    }

    fn finish(self) -> Result<Option<Document>, OutOfMemory> {
        finish(self.draft)
    }
}

/// The document that has this text. Other bytes are refused with the first line in which no document's
/// text can go on, counted from 1. A last line without its byte 10 is such a line; if the text ends too
/// early, so is the line after its last one. The other error says that memory ran out.
pub fn read(alloc: Global, bytes: &[u8]) -> Result<Document, ReadStop>
    ensures document { IfOk result (IsTextOfDocument bytes.now) }
    ensures stop { IfErr result (IsStopAt bytes.now) }
{
    read_lines(alloc, document_reader(alloc)?, bytes)
}

/// A reader that has read no line. The texts that it reads are those of documents, and it stops where they do.
pub fn document_reader(alloc: Global) -> Result<DocumentReader, OutOfMemory>
    ensures fits { IfOk result (λ r. ⟦<DocumentReader as LineReader>⟧.fits r) }
    ensures first { IfOk result (λ r. ⟦<DocumentReader as LineReader>⟧.count r ≡ 0) }
    ensures completed { IfOk result (λ r. CanComplete (⟦<DocumentReader as LineReader>⟧.completes r)) }
    ensures documents { IfOk result (λ r. ReadsDocuments (⟦<DocumentReader as LineReader>⟧.completes r)) }
{
    Ok(DocumentReader {
        growing: OpenClause::new(alloc, 0)?,
        draft: fresh(alloc)?,
    })
}

/// The document of a draft, if all its lines were read.
fn finish(draft: Draft) -> Result<Option<Document>, OutOfMemory>
    ensures { IfOk result (λ document. document ≡ finished draft) }
{
    if has_ended(&draft) {
        Ok(Some(document_of(draft)?))
    } else {
        drop(draft);
        Ok(None)
    }
}

/// Whether all lines of a draft were read.
fn has_ended(draft: &Draft) -> bool
    ensures { result ≡ (is_at_clauses draft.now.due && length draft.now.texts.clauses == clause_count draft.now) }
{
    match draft.due {
        LineDue::Clauses => draft.texts.len() as usize == clause_count(draft),
        _ => false,
    }
}

/// The document of a draft whose lines were all read.
fn document_of(draft: Draft) -> Result<Document, OutOfMemory>
    ensures { IfOk result (λ document. document ≡ document_by draft) }
{
    if is_finished(&draft.part) {
        done_document(draft)
    } else {
        open_document(draft)
    }
}

/// The finished document of a draft.
fn done_document(draft: Draft) -> Result<Document, OutOfMemory>
    ensures { IfOk result (λ document. document ≡ Done (done_by draft)) }
{
    let body = body_of(draft.part)?;
    Ok(Document::Done(DoneDocument {
        vars: draft.vars,
        clauses: draft.clauses,
        protect: draft.protect,
        kept: draft.kept,
        set: draft.set,
        body,
        texts: draft.texts,
    }))
}

/// The unfinished document of a draft.
fn open_document(draft: Draft) -> Result<Document, OutOfMemory>
    requires { is_finished draft.part ≡ false }
    ensures { IfOk result (λ document. document ≡ Unfinished (open_by draft)) }
{
    let rounds = rounds_of(draft.part)?;
    Ok(Document::Unfinished(OpenDocument {
        vars: draft.vars,
        clauses: draft.clauses,
        protect: draft.protect,
        learned: draft.learned,
        rounds,
        texts: draft.texts,
    }))
}

/// The draft of which no line was read.
fn fresh(alloc: Global) -> Result<Draft, OutOfMemory>
    ensures { IfOk result (λ draft. draft ≡ fresh_draft) }
{
    let texts = match Formula::new(alloc, 0) {
        Ok(texts) => texts,
        Err(FormulaError::Limit) => unreachable!(),
        Err(FormulaError::OutOfMemory) => return Err(OutOfMemory),
    };
    Ok(Draft {
        due: LineDue::Format,
        vars: 0,
        clauses: 0,
        protect: None,
        kept: List::new(alloc),
        set: List::new(alloc),
        learned: 0,
        part: Part::Pure(PurePart {
            ordered: false,
            order: List::new(alloc),
            pairs: List::new(alloc),
        }),
        texts,
    })
}
