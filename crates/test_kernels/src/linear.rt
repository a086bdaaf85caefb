//! Linear runs of formulas. The expected answers are those of another program, which makes the run on whole rows of numbers
//! without bounds.
//!
//! Each line has how many pivots may be made.
//!
//! - `run N PIVOTS; CLAUSES` reports all numbers of the run of a formula. N is its number of variables, and there
//!   are commas between the clauses, 0 for an empty one. A number of a variable or a position stands after it
//!   and a colon.
//! - `sums N PIVOTS` reports how many stages there are, and of the first one how many weights and the first two,
//!   for the formula in which each variable from 3 to N equals the sum of the two before it, up to sign.
//! - `each N PIVOTS` reports the same for the formula whose clauses are the variables from 1 to N.
use crate::telling::put_linear;
use linear_kernel::linear_kernel;
use lk_model::Formula;
use lk_samples::{append, formula_of_text};
use std::alloc::Global;
use std::test::Fail;

/// Appends that a variable equals the sum of the two before it, up to sign.
fn push_sum(alloc: Global, f: &mut Formula, v: i32) -> Result<(), Fail> {
    let (one, two) = (v.saturating_sub(1), v.saturating_sub(2));
    append(alloc, f, &[v, one.saturating_neg(), two.saturating_neg()])?;
    append(alloc, f, &[v.saturating_neg(), one, two])
}

/// The formula over the variables from 1 to `vars` in which each one from 3 to n equals the sum of the two
/// before it, up to sign.
pub(crate) fn sums(alloc: Global, vars: u32, n: i32) -> Result<Formula, Fail> {
    let mut f = Formula::new(alloc, vars)?;
    for v in 3..n.saturating_add(1) {
        push_sum(alloc, &mut f, v)?;
    }
    Ok(f)
}

/// The clauses of one literal each, with the variables from 1 to n.
fn each(alloc: Global, n: u32) -> Result<Formula, Fail> {
    let mut clauses = String::new(alloc);
    write!(clauses, "1 * {n}")?;
    formula_of_text(alloc, n, clauses.as_str())
}

/// The formula that a word has, with this many variables.
fn formula_of(alloc: Global, word: &str, n: i32, clauses: &str) -> Result<Formula, Fail> {
    match word {
        "sums" => sums(alloc, n.unsigned_abs(), n),
        "each" => each(alloc, n.unsigned_abs()),
        _ => formula_of_text(alloc, n.unsigned_abs(), clauses),
    }
}

/// Writes what a line asks for.
pub(crate) fn tell(alloc: Global, line: &str, out: &mut String) -> Result<(), Fail> {
    let (word, text) = line.split_once(" ").unwrap_or((line, ""));
    let (numbers, clauses) = text.split_once(";").unwrap_or((text, ""));
    let (n, pivots) = numbers.split_once(" ").unwrap_or((numbers, ""));
    let f = formula_of(alloc, word, n.parse().unwrap_or(0), clauses)?;
    let end = linear_kernel(alloc, &f, pivots.parse().unwrap_or(0));
    Ok(put_linear(end, word == "run", out)?)
}
