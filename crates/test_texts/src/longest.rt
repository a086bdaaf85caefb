//! `@ longest`: the readers of formulas and of edits over texts of 2^30 bytes, which are read, and one byte more, which is
//! too long. The expected answers follow from the limits and from how the texts are made, while they are fed.
//!
//! - `formula END|MORE` is comments with an end after them that makes the longest text, and more. The bytes of both
//!   come one by one; the answer is the first one that is refused, and what is returned at the end.
//! - `edits FIRST|MORE` is a first line of two bytes or none with comments after it that make the longest text, and
//!   more.
//! - `clauses END` adds the most clauses, and then comes an end.
use crate::spelled::bytes_of;
use crate::texts::first_refusal;
use dimacs_reader::{Reader, Refused};
use edit_text::{EditsReader, EditsRefused};
use lk_model::Formula;
use std::alloc::{AllocError, Global};
use std::test::Fail;

/// How many bytes the longest texts have.
const MOST: usize = 1 << 30;

/// How many clauses are ever held at most.
const MOST_CLAUSES: u32 = 4_000_000;

/// How many lines of comment are fed at a time, and how many lines that add a clause.
const COMMENTS: u32 = 32_768;

const CLAUSES: u32 = 1_000;

/// Writes what is returned for a line.
pub(crate) fn tell(alloc: Global, line: &str, out: &mut String) -> Result<(), Fail> {
    let (word, text) = line.split_once(" ").unwrap_or((line, ""));
    let (first, more) = text.split_once("|").unwrap_or((text, ""));
    let first = bytes_of(alloc, first)?;
    let more = bytes_of(alloc, more)?;
    match word {
        "formula" => tell_formula(alloc, first, more.as_slice(), out),
        "edits" => tell_edits(alloc, first.as_slice(), more.as_slice(), out),
        _ => tell_clauses(alloc, first.as_slice(), out),
    }
}

/// A line again and again.
fn lines(alloc: Global, line: &[u8], times: u32) -> Result<Vec<u8>, AllocError> {
    let mut piece = Vec::new(alloc);
    for _ in 0..times {
        piece.extend_from_slice(line)?;
    }
    Ok(piece)
}

fn tell_formula(
    alloc: Global,
    mut end: Vec<u8>,
    more: &[u8],
    out: &mut String,
) -> Result<(), Fail> {
    let before = MOST.saturating_sub(end.len());
    end.extend_from_slice(more)?;
    let piece = lines(alloc, b"c\n", COMMENTS)?;
    let mut reader = Reader::new(alloc);
    if let Err(refused) = feed_comments(&mut reader, piece.as_slice(), before) {
        writeln!(out, "in the comments: {refused:?}")?;
    }
    if let Some((k, refused)) = first_refusal(&mut reader, end.as_slice()) {
        writeln!(out, "with byte {}: {refused:?}", before.saturating_add(k))?;
    }
    writeln!(out, "at the end: {:?}", reader.finish().err())?;
    Ok(())
}

/// Feeds `count` bytes of comments, which are even.
fn feed_comments(reader: &mut Reader, piece: &[u8], count: usize) -> Result<(), Refused> {
    let size = piece.len().max(1);
    let (_, last) = piece.split_at(piece.len().saturating_sub(count % size));
    reader.feed(last)?;
    for _ in 0..count / size {
        reader.feed(piece)?;
    }
    Ok(())
}

fn tell_edits(alloc: Global, first: &[u8], more: &[u8], out: &mut String) -> Result<(), Fail> {
    let piece = lines(alloc, b"c\n", COMMENTS)?;
    let mut reader = EditsReader::new(alloc, &Formula::new(alloc, 1)?)?;
    if let Err(refused) = feed_longest(&mut reader, first, piece.as_slice()) {
        writeln!(out, "in the comments: {refused:?}")?;
    }
    if let Err(refused) = reader.feed(more) {
        writeln!(out, "with more: {refused:?}")?;
    }
    writeln!(out, "edits: {:?}", reader.finish().err())?;
    Ok(())
}

/// Feeds a first line of two bytes or none, and comments up to the last byte that a text may have.
fn feed_longest(reader: &mut EditsReader, first: &[u8], piece: &[u8]) -> Result<(), EditsRefused> {
    reader.feed(first)?;
    let (_, behind) = piece.split_at(first.len().min(piece.len()));
    reader.feed(behind)?;
    feed_times(reader, piece, (MOST / piece.len().max(1)).saturating_sub(1))
}

/// Feeds the same piece `times` times.
fn feed_times(reader: &mut EditsReader, piece: &[u8], times: usize) -> Result<(), EditsRefused> {
    for _ in 0..times {
        reader.feed(piece)?;
    }
    Ok(())
}

fn tell_clauses(alloc: Global, end: &[u8], out: &mut String) -> Result<(), Fail> {
    let piece = lines(alloc, b"a 0\n", CLAUSES)?;
    let mut reader = EditsReader::new(alloc, &Formula::new(alloc, 1)?)?;
    feed_times(
        &mut reader,
        piece.as_slice(),
        (MOST_CLAUSES / CLAUSES) as usize,
    )?;
    reader.feed(end)?;
    match reader.finish() {
        Ok(edits) => writeln!(out, "edits: {}", edits.len())?,
        Err(refused) => writeln!(out, "edits: {refused:?}")?,
    }
    Ok(())
}
