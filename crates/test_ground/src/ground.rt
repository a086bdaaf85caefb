//! What the lowest crates return for a line: a word and the pieces that the call is asked about, with ` | ` between
//! them.
use crate::assignments::put_assignment;
use crate::memory::{put_shelf, put_sink};
use crate::model::{put_formula, put_list, put_literal, put_set, put_variables};
use crate::numbers::{put_cut, put_number, put_spelling};
use crate::parts::{Parts, parts_of};
use crate::sinks::put_stream;
use lk_outside::{FileShelf, Shelf};
use std::alloc::{AllocError, Global};
use std::rt::Files;
use std::test::Fail;

/// Writes what is returned for a line, each answer after a blank.
pub(crate) fn tell<R: Files>(
    rt: &R,
    alloc: Global,
    line: &str,
    out: &mut String,
) -> Result<(), Fail> {
    let (word, rest) = line.split_once(" ").unwrap_or((line, ""));
    if word == "file" {
        return Ok(put_start(rt, alloc, rest, out)?);
    }
    put_outside(alloc, word, parts_of(rest), out)
}

/// `file NAME`: what a start of a file returns.
fn put_start<R: Files>(
    rt: &R,
    alloc: Global,
    name: &str,
    out: &mut String,
) -> Result<(), AllocError> {
    let mut shelf = FileShelf::new(rt, alloc);
    let answer = shelf.start(name);
    write!(out, " {answer:?}")
}

/// Writes what shelves and sinks return.
fn put_outside(alloc: Global, word: &str, parts: Parts, out: &mut String) -> Result<(), Fail> {
    match word {
        "shelf" => put_shelf(alloc, parts, out),
        "sink" => put_sink(alloc, parts, out),
        "stream" => put_stream(alloc, parts, out),
        "number" => Ok(put_number(parts, out)?),
        "spell" => put_spelling(alloc, parts, out),
        "line" => Ok(put_cut(alloc, word, parts, out)?),
        "word" => Ok(put_cut(alloc, word, parts, out)?),
        _ => put_model(alloc, word, parts, out),
    }
}

/// Writes what the types return.
fn put_model(alloc: Global, word: &str, parts: Parts, out: &mut String) -> Result<(), Fail> {
    match word {
        "literal" => Ok(put_literal(parts, out)?),
        "variables" => Ok(put_variables(alloc, parts, out)?),
        "list" => put_list(alloc, parts, out),
        "set" => put_set(alloc, word, parts, out),
        "listed" => put_set(alloc, word, parts, out),
        "formula" => put_formula(alloc, word, parts, out),
        "without" => put_formula(alloc, word, parts, out),
        "at" => put_formula(alloc, word, parts, out),
        "occurs" => put_formula(alloc, word, parts, out),
        _ => put_assignment(alloc, word, parts, out),
    }
}
