//! What clause learning returns for a file's formula, for measuring (`bench/learning.py`). The one expected line is
//! that of the eight clauses on three variables, which can be followed by hand.
//!
//! A line is `WAY BUDGET FILE`, with the ways of drawn formulas (`learning`), or none. The answer is `sat`, `refuted` or
//! `stopped`, the number of steps, and that of the literals of their clauses.
use crate::asking::{Asked, Way, answer};
use crate::learning::way_of;
use crate::texts::number_of;
use dimacs_reader::Reader;
use lk_model::{Decided, Formula};
use lk_samples::positions;
use refutation_log::Log;
use std::alloc::{AllocError, Global};
use std::fs;
use std::test::Fail;

/// The formula that a text spells.
fn formula_of(alloc: Global, text: &[u8]) -> Option<Formula> {
    let mut reader = Reader::new(alloc);
    reader.feed(text).ok()?;
    reader.finish().ok()
}

/// How many literals the clauses of a log have.
fn literals_in(log: &Log) -> usize {
    let mut literals: usize = 0;
    let mut number = log.first();
    for _ in 0..log.len() {
        if log.has(number) {
            literals = literals.saturating_add(log.clause(number).len());
        }
        number = number.saturating_add(1);
    }
    literals
}

fn put_sizes(word: &str, log: &Log, out: &mut String) -> Result<(), AllocError> {
    writeln!(out, "{word} {} {}", log.len(), literals_in(log))
}

/// Writes what is decided of a formula.
fn put_answer(
    alloc: Global,
    f: &Formula,
    way: Way,
    budget: u32,
    out: &mut String,
) -> Result<(), Fail> {
    let part = positions(alloc, f)?;
    let asked = Asked {
        formula: f,
        part: part.as_slice(),
        blocked: &[],
    };
    let next = u64::from(f.len()) + 1;
    match answer(alloc, &asked, way, next, u64::from(budget))? {
        Decided::Model(_) => Ok(out.push_str("sat 0 0\n")?),
        Decided::Refuted(log) => Ok(put_sizes("refuted", &log, out)?),
        Decided::Stopped(log) => Ok(put_sizes("stopped", &log, out)?),
    }
}

/// Writes what is decided of the formula of a file.
pub(crate) fn tell(rt: &HostRuntime, line: &str, out: &mut String) -> Result<(), Fail> {
    let (words, file) = line.rsplit_once(" ").unwrap_or(("", line));
    let (way, budget) = words.rsplit_once(" ").unwrap_or(("", words));
    let text = fs::read(rt, file)?;
    match formula_of(rt.alloc(), text.as_slice()) {
        Some(f) => put_answer(rt.alloc(), &f, way_of(way), number_of(budget), out),
        None => Err(Fail::from("no formula")),
    }
}
