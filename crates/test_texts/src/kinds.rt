//! What is said of one text, by its kind: read whole, and in pieces.
ghost use Rattle.std.specs.Prelude.{◌≡◌, ◌≤◌};
ghost use Rattle.line_text.specs.LineReading.{CanComplete};
ghost use Rattle.lk_model.specs.Limits.{max_vars, max_clauses};

use crate::answers::put_checked;
use crate::models::{put_values, read_values};
use answer_check::{Answer, answer_reader, print_answer, read_answer};
use cert_text::{document_reader, print, read};
use line_pieces::PieceReader;
use line_text::LineReader;
use lk_model::{Document, Formula, OutOfMemory, ReadStop};
use std::alloc::{AllocError, Global};

/// How many bytes the pieces have in which each text is read again.
pub(crate) const SIZES: [usize; 5] = [1, 2, 3, 7, 65_536];

/// What a text is read as.
#[derive(Clone, Copy)]
pub(crate) enum Kind<'a> {
    Document,
    /// An answer for the formula, which is then checked.
    Answer(&'a Formula),
    /// An answer for these numbers of variables and clauses.
    Form(u32, u32),
    /// A model over this many variables.
    Model(u32),
}

/// What is said of a text, if it is the same in pieces of any of the sizes.
pub(crate) fn told_of(alloc: Global, kind: Kind, text: &[u8]) -> Result<String, AllocError> {
    let mut told = told_in(alloc, kind, text, 0)?;
    for size in SIZES {
        let in_pieces = told_in(alloc, kind, text, size)?;
        if in_pieces.as_str() != told.as_str() {
            return format!(in alloc; "otherwise in pieces of {size}");
        }
    }
    if let Kind::Answer(f) = kind {
        if told.as_str() == "again" {
            told = String::new(alloc);
            put_checked(alloc, f, text, &mut told)?;
        }
    }
    Ok(told)
}

/// What is said of a text in pieces of `size` bytes, or whole for the size 0.
fn told_in(alloc: Global, kind: Kind, text: &[u8], size: usize) -> Result<String, AllocError> {
    let mut out = String::new(alloc);
    match kind {
        Kind::Document => put_document(alloc, text, size, &mut out)?,
        Kind::Answer(f) => put_answer(alloc, f.vars(), f.len(), text, size, &mut out)?,
        Kind::Form(n, m) => put_answer(alloc, n, m, text, size, &mut out)?,
        Kind::Model(n) => put_values(read_values(alloc, n, text, size), &mut out)?,
    }
    Ok(out)
}

fn put_document(
    alloc: Global,
    text: &[u8],
    size: usize,
    out: &mut String,
) -> Result<(), AllocError> {
    match read_document(alloc, text, size) {
        Ok(document) => put_printed(print(alloc, &document), text, out),
        Err(stop) => put_stop(stop, out),
    }
}

fn put_answer(
    alloc: Global,
    n: u32,
    m: u32,
    text: &[u8],
    size: usize,
    out: &mut String,
) -> Result<(), AllocError> {
    if n > 1_000_000 || m > 4_000_000 {
        return out.push_str("past the limits");
    }
    match read_form(alloc, n, m, text, size) {
        Ok(answer) => put_printed(print_answer(alloc, &answer), text, out),
        Err(stop) => put_stop(stop, out),
    }
}

fn read_document(alloc: Global, text: &[u8], size: usize) -> Result<Document, ReadStop> {
    if size == 0 {
        return read(alloc, text);
    }
    read_in_pieces(alloc, document_reader(alloc)?, text, size)
}

fn read_form(alloc: Global, n: u32, m: u32, text: &[u8], size: usize) -> Result<Answer, ReadStop>
    requires vars { n ≤ max_vars }
    requires clauses { m ≤ max_clauses }
{
    if size == 0 {
        return read_answer(alloc, text, n, m);
    }
    read_in_pieces(alloc, answer_reader(n, m), text, size)
}

/// Reads a text in pieces of `size` bytes, up to the first piece that is refused.
fn read_in_pieces<R: LineReader + Drop>(
    alloc: Global,
    reader: R,
    text: &[u8],
    size: usize,
) -> Result<R::Value, ReadStop>
    requires fits { R.fits reader }
    requires first { R.count reader ≡ 0 }
    requires completed { CanComplete (R.completes reader) }
{
    let mut pieces = PieceReader::new(alloc, reader);
    for piece in text.chunks(size.max(1)) {
        pieces.feed(alloc, piece)?;
    }
    pieces.finish()
}

/// Writes whether what was read of a text is printed as this text.
fn put_printed(
    printed: Result<Vec<u8>, OutOfMemory>,
    text: &[u8],
    out: &mut String,
) -> Result<(), AllocError> {
    match printed {
        Ok(printed) if printed.as_slice() == text => out.push_str("again"),
        Ok(_) => out.push_str("printed otherwise"),
        Err(OutOfMemory) => out.push_str("out of memory"),
    }
}

/// Writes where the reading of a text stops.
pub(crate) fn put_stop(stop: ReadStop, out: &mut String) -> Result<(), AllocError> {
    match stop {
        ReadStop::Line(line) => write!(out, "line {line}"),
        ReadStop::OutOfMemory => out.push_str("out of memory"),
    }
}
