//! Numbers, literals, formulas and parts from texts.
ghost use Rattle.std.specs.Prelude.{◌≡◌, IfOk, IsTrue};
ghost use Rattle.lk_model.specs.Formulas.Lean.{are_positions};

use crate::checked::{has_part, positions};
use crate::given::{push, push_literal};
use lk_model::{Formula, Lit};
use std::alloc::{AllocError, Global};
use std::test::Fail;

/// The number that a text writes, and 0 if it writes none.
pub fn number_of(text: &str) -> u32 {
    text.trim().parse().unwrap_or(0)
}

/// The numbers that a text has, with blanks between them, and 0 for a word that is no number.
pub fn numbers_of_text(alloc: Global, text: &str) -> Result<Vec<u32>, AllocError> {
    let mut numbers = Vec::new(alloc);
    for word in text.split_whitespace() {
        numbers.push(number_of(word))?;
    }
    Ok(numbers)
}

/// The number with a sign that a word writes.
fn signed_number_of(word: &str) -> Result<i32, Fail> {
    match word.parse() {
        Ok(number) => Ok(number),
        Err(_) => Err(Fail::from("no number")),
    }
}

/// The number that is `by` further from 0 than another one.
fn moved(number: i32, by: i32) -> i32 {
    if number > 0 {
        number.saturating_add(by)
    } else {
        number.saturating_sub(by)
    }
}

/// Appends the literals from the first number to the last, away from 0.
fn push_range(lits: &mut Vec<Lit>, first: i32, last: i32) -> Result<(), Fail> {
    let mut number = first;
    for _ in first.unsigned_abs()..last.unsigned_abs().saturating_add(1) {
        push_literal(lits, number)?;
        number = moved(number, 1);
    }
    Ok(())
}

/// Appends the literal that a word writes, or those from A to B for `A..B`; none for 0.
fn push_word(lits: &mut Vec<Lit>, word: &str) -> Result<(), Fail> {
    if word == "0" {
        return Ok(());
    }
    let (first, last) = word.split_once("..").unwrap_or((word, word));
    let first = signed_number_of(first)?;
    push_range(lits, first, signed_number_of(last)?)
}

/// The literals that a text has, with blanks between them, `A..B` for those from A to B. The word 0 stands for none,
/// so that it writes the empty clause.
pub fn literals_of_text(alloc: Global, text: &str) -> Result<Vec<Lit>, Fail> {
    let mut lits = Vec::new(alloc);
    for word in text.split_whitespace() {
        push_word(&mut lits, word)?;
    }
    Ok(lits)
}

/// Goes on to the next variables, or by -1 to those before.
fn go_on(lits: &mut [Lit], by: i32) {
    for l in lits.iter_mut() {
        if let Some(other) = Lit::new(moved(l.get(), by)) {
            *l = other;
        }
    }
}

/// Appends as many clauses as the count says, each over the variables after those of the one before, or before
/// them if the count is negative.
fn push_row(formula: &mut Formula, lits: &mut [Lit], count: i32) -> Result<(), Fail>
    ensures { formula.new.vars ≡ formula.old.vars }
{
    let by = count.signum();
    for _ in 0..count.unsigned_abs() {
        push(formula, lits)?;
        go_on(lits, by);
    }
    Ok(())
}

/// Appends the clause that a text has, or the clauses of `CLAUSE * COUNT`.
fn append_text(alloc: Global, formula: &mut Formula, text: &str) -> Result<(), Fail>
    ensures { formula.new.vars ≡ formula.old.vars }
{
    let (clause, count) = text.split_once("*").unwrap_or((text, "1"));
    let count = signed_number_of(count.trim())?;
    let mut lits = literals_of_text(alloc, clause)?;
    push_row(formula, lits.as_mut_slice(), count)
}

/// Appends the clauses that a text has, with commas between them; none where it is blank.
fn append_texts(alloc: Global, formula: &mut Formula, text: &str) -> Result<(), Fail>
    ensures { formula.new.vars ≡ formula.old.vars }
{
    if text.trim().is_empty() {
        return Ok(());
    }
    for clause in text.split(",") {
        append_text(alloc, formula, clause)?;
    }
    Ok(())
}

/// The formula over the variables from 1 to n with the clauses that a text has, with commas between
/// them. A blank text has no clause, and `CLAUSE * COUNT` has COUNT clauses, each over the variables after those
/// of the one before, or before them if the count is negative.
pub fn formula_of_text(alloc: Global, n: u32, text: &str) -> Result<Formula, Fail>
    ensures { IfOk result (λ f. f.vars ≡ n) }
{
    let mut formula = Formula::new(alloc, n)?;
    append_texts(alloc, &mut formula, text)?;
    Ok(formula)
}

/// The part that a text has, or all positions where it is blank.
pub fn part_of_text(alloc: Global, f: &Formula, text: &str) -> Result<Vec<u32>, Fail>
    ensures { IfOk result (λ part. IsTrue (are_positions f.now part.items)) }
{
    if text.trim().is_empty() {
        return Ok(positions(alloc, f)?);
    }
    let part = numbers_of_text(alloc, text)?;
    if !has_part(f, part.as_slice()) {
        return Err(Fail::from("no part"));
    }
    Ok(part)
}
