//! `@ texts`: what the readers of formulas and of documents return. The expected answers follow from the grammars: the
//! first fault of a text and its line, and nothing else where it is read in pieces.
//!
//! - `formula TEXT` reads the text of a formula, in one piece, in pieces of 1, 3 and 7 bytes, and in two
//!   pieces, cut at each byte. An answer stands there once if it does not change.
//! - `moment TEXT` feeds single bytes, and reports with which one the text is refused.
//! - `pieces TEXT|TEXT` feeds pieces, and reports the answer to each one and at the end.
//! - `document TEXT` reads the text of a document, whole and in pieces, compares it with what is printed of the
//!   document, and shows the document.
//! - `change OLD|NEW` reads the base as a document, with NEW in the place of OLD, and `cut` reads each beginning of it.
use crate::kinds::{Kind, told_of};
use crate::spelled::{bytes_of, changed};
use crate::variants::{Style, put_cuts};
use cert_text::read;
use dimacs_reader::{Reader, Refused};
use lk_model::{Body, Document, DoneDocument, Formula};
use lk_samples::put_literals;
use std::alloc::{AllocError, Global};

/// Writes what is returned for a line.
pub(crate) fn tell(
    alloc: Global,
    base: &str,
    line: &str,
    out: &mut String,
) -> Result<(), AllocError> {
    let (word, text) = line.split_once(" ").unwrap_or((line, ""));
    let bytes = match word {
        "change" => bytes_of(alloc, changed(alloc, base, text)?.as_str())?,
        _ => bytes_of(alloc, text)?,
    };
    match word {
        "formula" => tell_formula(alloc, bytes.as_slice(), out),
        "moment" => tell_moment(alloc, bytes.as_slice(), out),
        "pieces" => tell_pieces(alloc, text, out),
        "cut" => put_cuts(alloc, Kind::Document, Style::Lines, base, out),
        "base" => Ok(()),
        _ => tell_document(alloc, bytes.as_slice(), out),
    }
}

/// Reads a text of which a first piece has the bytes before a cut, and the others have `size` bytes each.
fn read_formula(alloc: Global, text: &[u8], cut: usize, size: usize) -> Result<Formula, Refused> {
    let (first, rest) = text.split_at(cut.min(text.len()));
    let mut reader = Reader::new(alloc);
    feed_pieces(&mut reader, first, rest, size)?;
    reader.finish()
}

fn feed_pieces(reader: &mut Reader, first: &[u8], rest: &[u8], size: usize) -> Result<(), Refused> {
    reader.feed(first)?;
    for piece in rest.chunks(size.max(1)) {
        reader.feed(piece)?;
    }
    Ok(())
}

/// Writes what the reader returns for a text in one piece and in smaller ones, and cut in two at each
/// byte, once if it is the same.
fn tell_formula(alloc: Global, text: &[u8], out: &mut String) -> Result<(), AllocError> {
    let mut last = String::new(alloc);
    for size in [text.len(), 1, 3, 7] {
        tell_new(alloc, read_formula(alloc, text, 0, size), &mut last, out)?;
    }
    for cut in 0..text.len() {
        tell_new(
            alloc,
            read_formula(alloc, text, cut, text.len()),
            &mut last,
            out,
        )?;
    }
    Ok(())
}

/// Writes an answer in a line of its own, unless it is the last one, which it becomes.
fn tell_new(
    alloc: Global,
    answer: Result<Formula, Refused>,
    last: &mut String,
    out: &mut String,
) -> Result<(), AllocError> {
    let mut told = String::new(alloc);
    put_answer(answer, &mut told)?;
    if told.as_str() != last.as_str() {
        writeln!(out, "= {told}")?;
    }
    *last = told;
    Ok(())
}

/// Writes a formula, or why a text is none.
fn put_answer(answer: Result<Formula, Refused>, out: &mut String) -> Result<(), AllocError> {
    match answer {
        Ok(f) => {
            write!(out, "p cnf {} {}:", f.vars(), f.len())?;
            put_clauses(&f, out)
        }
        Err(refused) => write!(out, "{refused:?}"),
    }
}

/// Writes the clauses of a formula, each with its 0 after it.
fn put_clauses(f: &Formula, out: &mut String) -> Result<(), AllocError> {
    for k in 1..f.len() + 1 {
        put_literals(f.clause(k), out)?;
        out.push_str(" 0")?;
    }
    Ok(())
}

/// How many bytes were fed when the reader refuses a text that comes in single bytes, and why.
pub(crate) fn first_refusal(reader: &mut Reader, text: &[u8]) -> Option<(usize, Refused)> {
    for i in 0..text.len() {
        if let Err(refused) = reader.feed(&text[i..i + 1]) {
            return Some((i + 1, refused));
        }
    }
    None
}

fn tell_moment(alloc: Global, text: &[u8], out: &mut String) -> Result<(), AllocError> {
    let mut reader = Reader::new(alloc);
    match first_refusal(&mut reader, text) {
        Some((count, refused)) => writeln!(out, "= with byte {count}: {refused:?}"),
        None => tell_end(reader, out),
    }
}

fn tell_end(reader: Reader, out: &mut String) -> Result<(), AllocError> {
    out.push_str("= at the end: ")?;
    put_answer(reader.finish(), out)?;
    out.push_str("\n")
}

fn tell_pieces(alloc: Global, text: &str, out: &mut String) -> Result<(), AllocError> {
    let mut reader = Reader::new(alloc);
    for piece in text.split("|") {
        tell_piece(alloc, &mut reader, piece, out)?;
    }
    tell_end(reader, out)
}

fn tell_piece(
    alloc: Global,
    reader: &mut Reader,
    piece: &str,
    out: &mut String,
) -> Result<(), AllocError> {
    let bytes = bytes_of(alloc, piece)?;
    match reader.feed(bytes.as_slice()) {
        Ok(()) => out.push_str("= taken\n"),
        Err(refused) => writeln!(out, "= {refused:?}"),
    }
}

fn tell_document(alloc: Global, text: &[u8], out: &mut String) -> Result<(), AllocError> {
    let told = told_of(alloc, Kind::Document, text)?;
    if told.as_str() != "again" {
        return writeln!(out, "= stops at {told}");
    }
    match read(alloc, text) {
        Ok(document) => put_document(&document, out),
        Err(_) => out.push_str("= unfinished\n"),
    }
}

fn put_document(document: &Document, out: &mut String) -> Result<(), AllocError> {
    match document {
        Document::Done(d) => put_parts(d, out),
        Document::Unfinished(_) => out.push_str("= unfinished\n"),
    }
}

/// Writes the entries of a document.
fn put_parts(d: &DoneDocument, out: &mut String) -> Result<(), AllocError> {
    let kept = d.kept.as_slice();
    write!(
        out,
        "= formula {} {}; keep {kept:?}; set",
        d.vars, d.clauses
    )?;
    put_literals(d.set.as_slice(), out)?;
    if let Body::Pure { order, pairs } = &d.body {
        out.push_str("; order")?;
        put_literals(order.as_slice(), out)?;
        write!(out, "; pairs {:?}", pairs.as_slice())?;
    }
    out.push_str("; clauses")?;
    put_clauses(&d.texts, out)?;
    out.push_str("\n")
}
