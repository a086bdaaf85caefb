//! Literals, lists, sets of variables, and formulas.
ghost use Rattle.std.specs.Prelude.{◌≡◌, length, IfOk, IfSome};

use crate::occurrences::put_lists;
use crate::parts::{Parts, number_of, put_numbers};
use lk_model::{Formula, FormulaError, List, Lit, OutOfMemory, VarSet, rise_within};
use lk_samples::{formula_of_text, numbers_of_text, put_literals, set_of};
use std::alloc::{AllocError, Global};
use std::test::Fail;

/// `literal NUMBER`: the literal of this number.
pub(crate) fn put_literal(parts: Parts, out: &mut String) -> Result<(), AllocError> {
    let number = literal_of(parts.first.parse().unwrap_or(0));
    write!(out, " {number:?}")
}

/// The number of the literal of a number.
fn literal_of(number: i32) -> Option<i32> {
    Some(Lit::new(number)?.get())
}

/// `variables N`: how many variables and clauses a new formula has.
pub(crate) fn put_variables(
    alloc: Global,
    parts: Parts,
    out: &mut String,
) -> Result<(), AllocError> {
    let sizes = sizes_of(alloc, number_of(parts.first));
    write!(out, " {sizes:?}")
}

fn sizes_of(alloc: Global, n: u32) -> Result<(u32, u32), FormulaError> {
    let f = Formula::new(alloc, n)?;
    Ok((f.vars(), f.len()))
}

/// `list NUMBERS`: the list of these.
pub(crate) fn put_list(alloc: Global, parts: Parts, out: &mut String) -> Result<(), Fail> {
    let list = list_of(alloc, parts.first)?;
    write!(out, " {:?} {}", list.as_slice(), list.len())?;
    Ok(())
}

fn list_of(alloc: Global, text: &str) -> Result<List<u32>, OutOfMemory> {
    let mut list = List::new(alloc);
    for word in text.split_whitespace() {
        list.push(number_of(word))?;
    }
    Ok(list)
}

/// `set N | VARIABLES` and `listed N | VARIABLES`: for each variable from 1 to N whether the set of these has it; as
/// listed they have to be ascending.
pub(crate) fn put_set(
    alloc: Global,
    word: &str,
    parts: Parts,
    out: &mut String,
) -> Result<(), Fail> {
    let n = number_of(parts.first);
    let vars = numbers_of_text(alloc, parts.second)?;
    match members_of(alloc, word, n, vars.as_slice())? {
        Some(set) => put_members(&set, n, out)?,
        None => out.push_str(" not ascending")?,
    }
    Ok(())
}

/// The set of these variables, of those from 1 to n.
fn members_of(alloc: Global, word: &str, n: u32, vars: &[u32]) -> Result<Option<VarSet>, Fail>
    ensures { IfOk result (λ answer. IfSome answer (λ s. length s ≡ n)) }
{
    if word == "set" {
        return Ok(Some(set_of(alloc, n, vars)?));
    }
    if rise_within(n, vars) {
        return Ok(Some(VarSet::of(alloc, n, vars)?));
    }
    Ok(None)
}

/// Writes for each variable from 1 to n whether the set has it.
fn put_members(set: &VarSet, n: u32, out: &mut String) -> Result<(), AllocError>
    requires { length set.now ≡ n }
{
    for v in 0..n {
        write!(out, " {}", set.has(v + 1))?;
    }
    Ok(())
}

/// `formula N | CLAUSES`: how many variables and clauses it has, and its clauses. `without N | CLAUSES | VARIABLES`:
/// the same of the formula without the literals on these. `at N | CLAUSES | POSITIONS`: the same of the clauses at
/// these, and the variables that occur in them. `occurs N | CLAUSES`: where the literals occur.
pub(crate) fn put_formula(
    alloc: Global,
    word: &str,
    parts: Parts,
    out: &mut String,
) -> Result<(), Fail> {
    let f = formula_of_text(alloc, number_of(parts.first), parts.second)?;
    let numbers = numbers_of_text(alloc, parts.third)?;
    match word {
        "without" => put_without(alloc, &f, numbers.as_slice(), out),
        "at" => Ok(put_part(alloc, &f, numbers.as_slice(), out)?),
        "occurs" => Ok(put_lists(alloc, &f, out)?),
        _ => Ok(put_whole(&f, out)?),
    }
}

fn put_without(alloc: Global, f: &Formula, vars: &[u32], out: &mut String) -> Result<(), Fail> {
    let set = set_of(alloc, f.vars(), vars)?;
    put_whole(&f.without(alloc, &set)?, out)?;
    Ok(())
}

fn put_part(
    alloc: Global,
    f: &Formula,
    positions: &[u32],
    out: &mut String,
) -> Result<(), OutOfMemory> {
    if !f.has_part(positions) {
        out.push_str(" no positions")?;
        return Ok(());
    }
    put_whole(&f.clauses_at(alloc, positions)?, out)?;
    put_numbers(f.occurring(alloc, positions)?.as_slice(), out)?;
    Ok(())
}

/// Writes how many variables and clauses a formula has, and its clauses.
fn put_whole(f: &Formula, out: &mut String) -> Result<(), AllocError> {
    write!(out, " {} {}", f.vars(), f.len())?;
    for k in 1..f.len() + 1 {
        out.push_str(";")?;
        put_literals(f.clause(k), out)?;
    }
    Ok(())
}
