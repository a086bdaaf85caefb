//! `@ printing`: the texts of documents, in form or not. The expected texts were worked out by hand.
//!
//! A line is a document, in entries with semicolons between them; the answer is its text. The first entry is the class,
//! or `unfinished`. Each further entry is a word and what belongs to it:
//!
//! - `size N M`, `protect V ..`, `keep P ..`, `set L ..` and `learned COUNT`; `clauses L .., L ..` for all
//!   clauses, with 0 for an empty one, after `size`.
//! - `order L ..` and `pair V A B`; `own P V` and `row V M E R`; `stage V X ..`, `dual P Y` and
//!   `unit V D : P Z ..`.
//! - `round STEP, STEP` is a round, where a step is `K A : L .. : T B ..`: its number and that of its first
//!   clause, its clause, and its turns. Without a step, `round` is an empty round.
use crate::general::take_round;
use crate::linear::take_linear;
use cert_text::print;
use lk_model::{
    Body, Document, DoneDocument, Formula, List, Lit, MatchRow, OpenDocument, Own, Pair,
};
use lk_samples::{formula_of_text, literals_of_text, numbers_of_text};
use std::alloc::{AllocError, Global};
use std::str::from_utf8;
use std::test::Fail;

/// Writes the text of the document of a line.
pub(crate) fn tell(alloc: Global, line: &str, out: &mut String) -> Result<(), Fail> {
    let (kind, parts) = line.split_once(";").unwrap_or((line, ""));
    let mut document = empty(alloc, kind)?;
    let taken = take_parts(alloc, &mut document, parts);
    let text = print(alloc, &document);
    drop(document);
    taken?;
    put_text(text?, out)
}

fn put_text(text: Vec<u8>, out: &mut String) -> Result<(), Fail> {
    Ok(out.push_str(from_utf8(text.as_slice())?)?)
}

fn take_parts(alloc: Global, document: &mut Document, parts: &str) -> Result<(), Fail> {
    for part in parts.split(";") {
        take(alloc, document, part.trim())?;
    }
    Ok(())
}

/// The document with nothing in it of a class, or the unfinished one.
fn empty(alloc: Global, kind: &str) -> Result<Document, Fail> {
    if kind == "unfinished" {
        let texts = Formula::new(alloc, 0)?;
        return Ok(Document::Unfinished(OpenDocument {
            vars: 0,
            clauses: 0,
            protect: None,
            learned: 0,
            rounds: List::new(alloc),
            texts,
        }));
    }
    empty_of(alloc, body(alloc, kind)?)
}

/// The document with nothing in it but a certificate.
fn empty_of(alloc: Global, body: Body) -> Result<Document, Fail> {
    let texts = Formula::new(alloc, 0)?;
    Ok(Document::Done(DoneDocument {
        vars: 0,
        clauses: 0,
        protect: None,
        kept: List::new(alloc),
        set: List::new(alloc),
        body,
        texts,
    }))
}

/// The certificate of a class, with nothing in it.
fn body(alloc: Global, kind: &str) -> Result<Body, Fail> {
    match kind {
        "pure" => Ok(Body::Pure {
            order: List::new(alloc),
            pairs: List::new(alloc),
        }),
        "matching" => Ok(Body::Matching {
            own: List::new(alloc),
            rows: List::new(alloc),
        }),
        "linear" => Ok(Body::Linear {
            stages: List::new(alloc),
            dual: List::new(alloc),
            units: List::new(alloc),
        }),
        "general" => Ok(Body::General {
            rounds: List::new(alloc),
        }),
        _ => Err(Fail::from("no class")),
    }
}

/// The numbers that a text has, with blanks between them; other words count for nothing.
pub(crate) fn numbers(alloc: Global, text: &str) -> Result<Vec<i128>, AllocError> {
    let mut numbers = Vec::new(alloc);
    for word in text.split_whitespace() {
        if let Ok(number) = word.parse() {
            numbers.push(number)?;
        }
    }
    Ok(numbers)
}

/// The number at a place, counted from 0; 0 if there is none.
pub(crate) fn number_at(numbers: &[i128], place: usize) -> i128 {
    numbers.get(place).copied().unwrap_or(0)
}

/// The number at a place, counted from 0, as a variable or a position; 0 if there is none, or it does not fit.
pub(crate) fn small_at(numbers: &[i128], place: usize) -> u32 {
    u32::try_from(number_at(numbers, place)).unwrap_or(0)
}

/// The number at a place, counted from 0, as that of a step; 0 if there is none, or it does not fit.
pub(crate) fn large_at(numbers: &[i128], place: usize) -> u64 {
    u64::try_from(number_at(numbers, place)).unwrap_or(0)
}

/// Variables or positions.
fn positions(alloc: Global, text: &str) -> Result<List<u32>, AllocError> {
    Ok(List::from_vec(numbers_of_text(alloc, text)?))
}

/// Literals.
pub(crate) fn literals(alloc: Global, text: &str) -> Result<List<Lit>, Fail> {
    Ok(List::from_vec(literals_of_text(alloc, text)?))
}

/// Takes an entry of a document.
fn take(alloc: Global, document: &mut Document, part: &str) -> Result<(), Fail> {
    let (word, text) = part.split_once(" ").unwrap_or((part, ""));
    let numbers = numbers(alloc, text)?;
    match document {
        Document::Done(d) => take_done(alloc, d, word, text, numbers.as_slice()),
        Document::Unfinished(d) => take_open(alloc, d, word, text, numbers.as_slice()),
    }
}

fn take_done(
    alloc: Global,
    d: &mut DoneDocument,
    word: &str,
    text: &str,
    numbers: &[i128],
) -> Result<(), Fail> {
    match word {
        "size" => {
            d.vars = small_at(numbers, 0);
            d.clauses = small_at(numbers, 1);
        }
        "protect" => d.protect = Some(positions(alloc, text)?),
        "keep" => d.kept = positions(alloc, text)?,
        "set" => d.set = literals(alloc, text)?,
        "clauses" => d.texts = formula_of_text(alloc, d.vars, text)?,
        _ => return take_body(alloc, &mut d.body, word, text, numbers),
    }
    Ok(())
}

fn take_open(
    alloc: Global,
    d: &mut OpenDocument,
    word: &str,
    text: &str,
    numbers: &[i128],
) -> Result<(), Fail> {
    match word {
        "size" => {
            d.vars = small_at(numbers, 0);
            d.clauses = small_at(numbers, 1);
        }
        "protect" => d.protect = Some(positions(alloc, text)?),
        "learned" => d.learned = large_at(numbers, 0),
        "clauses" => d.texts = formula_of_text(alloc, d.vars, text)?,
        _ => return take_round(alloc, &mut d.rounds, word, text),
    }
    Ok(())
}

/// Takes an entry of a certificate.
fn take_body(
    alloc: Global,
    body: &mut Body,
    word: &str,
    text: &str,
    numbers: &[i128],
) -> Result<(), Fail> {
    match body {
        Body::Pure { order, pairs } => {
            if word == "order" {
                *order = literals(alloc, text)?;
            } else {
                pairs.push(pair(numbers))?;
            }
            Ok(())
        }
        Body::Matching { own, rows } => {
            if word == "own" {
                own.push(owned(numbers))?;
            } else {
                rows.push(row(numbers))?;
            }
            Ok(())
        }
        Body::Linear {
            stages,
            dual,
            units,
        } => take_linear(alloc, stages, dual, units, word, numbers),
        Body::General { rounds } => take_round(alloc, rounds, word, text),
    }
}

fn pair(numbers: &[i128]) -> Pair {
    Pair {
        var: small_at(numbers, 0),
        with: small_at(numbers, 1),
        against: small_at(numbers, 2),
    }
}

fn owned(numbers: &[i128]) -> Own {
    Own {
        pos: small_at(numbers, 0),
        var: small_at(numbers, 1),
    }
}

fn row(numbers: &[i128]) -> MatchRow {
    MatchRow {
        var: small_at(numbers, 0),
        own: small_at(numbers, 1),
        escape: small_at(numbers, 2),
        rank: small_at(numbers, 3),
    }
}
