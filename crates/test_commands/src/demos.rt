//! `@ demos`: the formulas of numbers, by `demo_formula` itself. The expected clauses are computed by a separate program with
//! the published generator.
//!
//! A line is a number, and after it positions. The numbers of variables, clauses and literals of the number's formula
//! stand after it in a line that begins with `=`, and the clause at each of the positions in such a line.
use demo_formula::demo_formula;
use lk_model::Formula;
use lk_samples::{number_of, put_literals};
use std::alloc::{AllocError, Global};
use std::test::Fail;

/// How many literals the clauses have together.
fn literals(f: &Formula) -> usize {
    let mut count: usize = 0;
    for k in 0..f.len() {
        count = count.wrapping_add(f.clause(k + 1).len());
    }
    count
}

/// Writes the clause at a position.
fn put_clause(f: &Formula, position: u32, out: &mut String) -> Result<(), AllocError> {
    if position == 0 || position > f.len() {
        return writeln!(out, "= {position}: no clause");
    }
    write!(out, "= {position}:")?;
    put_literals(f.clause(position), out)?;
    out.push('\n')
}

/// Writes how large a formula is, and its clauses at the positions of a text.
fn put_formula(f: &Formula, positions: &str, out: &mut String) -> Result<(), AllocError> {
    let (vars, clauses) = (f.vars(), f.len());
    let count = literals(f);
    writeln!(out, "= variables {vars} clauses {clauses} literals {count}")?;
    for position in positions.split_whitespace() {
        put_clause(f, number_of(position), out)?;
    }
    Ok(())
}

/// Writes what a line asks of the formula of its number.
pub(crate) fn tell(alloc: Global, line: &str, out: &mut String) -> Result<(), Fail> {
    let (number, positions) = line.split_once(" ").unwrap_or((line, ""));
    let formula = demo_formula(alloc, number.parse()?)?;
    Ok(put_formula(&formula, positions, out)?)
}
