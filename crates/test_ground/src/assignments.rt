//! Partial assignments.
ghost use Rattle.std.specs.Prelude.{◌≡◌, length, IfOk};

use crate::parts::{Parts, number_of};
use lk_model::Lit;
use lk_samples::{formula_of_text, literals_of_text, makes_clause, put_literals};
use partial_assign::{Partial, compose, extend_total};
use std::alloc::{AllocError, Global};
use std::test::Fail;

/// `values N | LITERALS`: how many variables the assignment has that makes these true, and the values of all. `copy`:
/// the same of its copy. `clause N | LITERALS | CLAUSE`: whether it touches and satisfies the clause.
/// `first N | LITERALS | CLAUSES`: the first position whose clause is touched and not satisfied. `compose` and `extend`
/// of N and two such assignments.
pub(crate) fn put_assignment(
    alloc: Global,
    word: &str,
    parts: Parts,
    out: &mut String,
) -> Result<(), Fail> {
    let n = number_of(parts.first);
    let assignment = assignment_of(alloc, n, parts.second)?;
    match word {
        "values" => Ok(put_values(&assignment, out)?),
        "copy" => Ok(put_values(&assignment.copy(alloc)?, out)?),
        "clause" => put_tests(alloc, &assignment, n, parts.third, out),
        "first" => put_first(alloc, &assignment, n, parts.third, out),
        _ => put_both(alloc, word, &assignment, n, parts.third, out),
    }
}

/// The assignment of the variables from 1 to n that makes these literals true, and no more.
fn assignment_of(alloc: Global, n: u32, literals: &str) -> Result<Partial, Fail>
    ensures { IfOk result (λ p. length p ≡ n) }
{
    let lits = literals_of_text(alloc, literals)?;
    if n > 1_000_000 {
        return Err(Fail::from("too many variables"));
    }
    let mut assignment = Partial::new(alloc, n)?;
    if !sets(&mut assignment, n, lits.as_slice()) {
        return Err(Fail::from("not unset"));
    }
    Ok(assignment)
}

/// Makes literals on unset variables from 1 to n true: whether they are such.
fn sets(assignment: &mut Partial, n: u32, lits: &[Lit]) -> bool
    requires { length assignment.old ≡ n }
    ensures { length assignment.new ≡ n }
{
    for l in lits {
        if l.var() > n || assignment.value(l.var()).is_some() {
            return false;
        }
        assignment.put(*l);
    }
    true
}

fn put_values(assignment: &Partial, out: &mut String) -> Result<(), AllocError> {
    write!(out, " {}:", assignment.vars())?;
    put_each(assignment, out)
}

fn put_each(assignment: &Partial, out: &mut String) -> Result<(), AllocError> {
    for v in 0..assignment.vars() {
        write!(out, " {:?}", assignment.value(v + 1))?;
    }
    Ok(())
}

fn put_tests(
    alloc: Global,
    assignment: &Partial,
    n: u32,
    text: &str,
    out: &mut String,
) -> Result<(), Fail>
    requires { length assignment.now ≡ n }
{
    let clause = literals_of_text(alloc, text)?;
    if makes_clause(n, clause.as_slice()) {
        let touches = assignment.touches(clause.as_slice());
        let satisfies = assignment.satisfies(clause.as_slice());
        write!(out, " {touches} {satisfies}")?;
    }
    Ok(())
}

fn put_first(
    alloc: Global,
    assignment: &Partial,
    n: u32,
    text: &str,
    out: &mut String,
) -> Result<(), Fail>
    requires { length assignment.now ≡ n }
{
    let f = formula_of_text(alloc, n, text)?;
    let first = assignment.first_unsatisfied_touched(&f);
    write!(out, " {first:?}")?;
    Ok(())
}

/// Writes the values that the first assignment gives, else the second; or a literal for each variable, by the first
/// one, else by the second, else negative.
fn put_both(
    alloc: Global,
    word: &str,
    first: &Partial,
    n: u32,
    text: &str,
    out: &mut String,
) -> Result<(), Fail>
    requires { length first.now ≡ n }
{
    let second = assignment_of(alloc, n, text)?;
    if word == "compose" {
        put_each(&compose(alloc, first, &second)?, out)?;
    } else {
        put_literals(extend_total(alloc, first, &second)?.as_slice(), out)?;
    }
    Ok(())
}
