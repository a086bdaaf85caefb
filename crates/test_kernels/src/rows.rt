//! Exact arithmetic and the pivots of linear runs. Numbers follow from arithmetic, and the runs were worked out outside the
//! program.
//!
//! | line | what it reports |
//! |---|---|
//! | `gcd X Y` | the greatest common divisor |
//! | `sign X ..` | the sign of the sum |
//! | `order A B C D` | the order of two fractions |
//! | `primitive X ..` | the row over its content |
//! | `sparse X ..` | of the row's entries that are not 0 the column and the number; how many columns there are; the number of each, and of the last one of all |
//! | `combine P F; ROW; OTHER` | how rows combine by two factors and the row then: of whole rows, and of their entries |
//! | `drawn COUNT` | in how many drawn combinations both are the same (`drawn`) |
//! | `run N; CLAUSES` | the pivots of a formula, as row and column, and how they end (`runs`) |
//! | `sums N` | the same for the formula over 200 variables in which each one from 3 to N is the sum of the two before it |
use crate::drawn::tell_drawn;
use crate::ranges::{are_in_range, is_in_range};
use crate::runs::{tell_run, tell_sums};
use crate::telling::put_wide;
use exact_rows::{
    Entry, SparseRow, SparseStop, Wide, combine, combine_sparse, compare_ratio, gcd, primitive,
    sign_of_sum,
};
use lk_model::OutOfMemory;
use std::alloc::{AllocError, Global};
use std::cmp::Ordering;
use std::test::Fail;

fn push_number(numbers: &mut Vec<i128>, word: &str) -> Result<(), Fail> {
    match word.parse() {
        Ok(number) => Ok(numbers.push(number)?),
        Err(_) => Err(Fail::from("no number")),
    }
}

/// The numbers that a text has.
fn numbers_of(alloc: Global, text: &str) -> Result<Vec<i128>, Fail> {
    let mut numbers = Vec::new(alloc);
    for word in text.split_whitespace() {
        push_number(&mut numbers, word)?;
    }
    Ok(numbers)
}

fn put_row(row: &[i128], out: &mut String) -> Result<(), AllocError> {
    writeln!(out, "= {row:?}")
}

fn put_order(order: Ordering, out: &mut String) -> Result<(), AllocError> {
    match order {
        Ordering::Less => out.push_str("= less\n"),
        Ordering::Equal => out.push_str("= equal\n"),
        Ordering::Greater => out.push_str("= greater\n"),
    }
}

fn put_none(out: &mut String) -> Result<(), AllocError> {
    out.push_str("= out of range\n")
}

/// Writes a greatest common divisor, or the order of two fractions.
fn tell_some(numbers: &[i128], out: &mut String) -> Result<(), AllocError> {
    match numbers {
        [x, y] if is_in_range(*x) && is_in_range(*y) => writeln!(out, "= {}", gcd(*x, *y)),
        [a, b, c, d] if *a >= 0 && *b > 0 && *c >= 0 && *d > 0 => {
            put_order(compare_ratio(*a, *b, *c, *d), out)
        }
        _ => put_none(out),
    }
}

/// Writes a row over its content.
fn tell_primitive(row: &mut [i128], out: &mut String) -> Result<(), AllocError> {
    if !are_in_range(row) {
        return put_none(out);
    }
    primitive(row);
    put_row(row, out)
}

fn put_entry(entry: &Entry, out: &mut String) -> Result<(), AllocError> {
    write!(out, " {}:{}", entry.column, entry.value)
}

/// Writes the entries of a row that are not 0.
fn put_entries(entries: &[Entry], out: &mut String) -> Result<(), AllocError> {
    out.push('=')?;
    for entry in entries {
        put_entry(entry, out)?;
    }
    out.push('\n')
}

/// Writes the number in each column of a row.
fn put_numbers(sparse: &SparseRow, out: &mut String) -> Result<(), AllocError> {
    let count = u32::try_from(sparse.columns()).unwrap_or(0);
    out.push('=')?;
    for k in 0..count {
        write!(out, " {}", sparse.entry(k + 1))?;
    }
    out.push('\n')
}

/// Writes what a row keeps.
fn tell_sparse(alloc: Global, row: &[i128], out: &mut String) -> Result<(), OutOfMemory> {
    if !are_in_range(row) {
        return Ok(put_none(out)?);
    }
    let sparse = SparseRow::of(alloc, row)?;
    Ok(put_sparse(&sparse, out)?)
}

fn put_sparse(sparse: &SparseRow, out: &mut String) -> Result<(), AllocError> {
    put_entries(sparse.entries(), out)?;
    writeln!(out, "= {} columns", sparse.columns())?;
    put_numbers(sparse, out)?;
    writeln!(out, "= {}", sparse.entry(u32::MAX))
}

/// Writes how a combination ends.
fn put_end(end: Result<(), Wide>, out: &mut String) -> Result<(), AllocError> {
    match end {
        Ok(()) => out.push_str("= combined\n"),
        Err(wide) => put_wide(wide, out),
    }
}

/// Writes the numbers of a row as `put_numbers` does.
fn put_whole(row: &[i128], out: &mut String) -> Result<(), AllocError> {
    out.push('=')?;
    for x in row {
        write!(out, " {x}")?;
    }
    out.push('\n')
}

/// Writes how whole rows in range combine, if these may be.
pub(crate) fn tell_whole(
    (p, f): (i128, i128),
    row: &mut [i128],
    other: &[i128],
    out: &mut String,
) -> Result<(), AllocError> {
    if p <= 0 || f == 0 || !is_in_range(p) || !is_in_range(f) {
        return put_none(out);
    }
    if row.len() != other.len() || !are_in_range(row) || !are_in_range(other) {
        return put_none(out);
    }
    let end = combine(row, other, p, f);
    put_end(end, out)?;
    put_whole(row, out)
}

/// Writes how rows combine by their entries, where there is memory.
fn put_ended(end: Result<(), SparseStop>, out: &mut String) -> Result<(), OutOfMemory> {
    match end {
        Ok(()) => Ok(put_end(Ok(()), out)?),
        Err(SparseStop::Wide(wide)) => Ok(put_wide(wide, out)?),
        Err(SparseStop::OutOfMemory) => Err(OutOfMemory),
    }
}

/// Writes how rows in range combine by their entries, if these may be.
pub(crate) fn tell_entries(
    alloc: Global,
    (p, f): (i128, i128),
    row: &[i128],
    other: &[i128],
    out: &mut String,
) -> Result<(), OutOfMemory> {
    if p <= 0 || f == 0 || !is_in_range(p) || !is_in_range(f) {
        return Ok(put_none(out)?);
    }
    if row.len() != other.len() || !are_in_range(row) || !are_in_range(other) {
        return Ok(put_none(out)?);
    }
    let mut now = SparseRow::of(alloc, row)?;
    let by = SparseRow::of(alloc, other)?;
    let end = combine_sparse(alloc, &mut now, &by, p, f);
    put_ended(end, out)?;
    Ok(put_numbers(&now, out)?)
}

/// Writes how rows combine.
fn tell_both(
    alloc: Global,
    factors: &[i128],
    row: &mut [i128],
    other: &[i128],
    out: &mut String,
) -> Result<(), OutOfMemory> {
    match factors {
        [p, f] => {
            tell_entries(alloc, (*p, *f), row, other, out)?;
            Ok(tell_whole((*p, *f), row, other, out)?)
        }
        _ => Ok(put_none(out)?),
    }
}

/// Writes how the rows of a text combine.
fn tell_combined(alloc: Global, text: &str, out: &mut String) -> Result<(), Fail> {
    let (factors, rows) = text.split_once(";").unwrap_or((text, ""));
    let (row, other) = rows.split_once(";").unwrap_or((rows, ""));
    let factors = numbers_of(alloc, factors)?;
    let mut row = numbers_of(alloc, row)?;
    let other = numbers_of(alloc, other)?;
    let (row, other) = (row.as_mut_slice(), other.as_slice());
    Ok(tell_both(alloc, factors.as_slice(), row, other, out)?)
}

/// Writes what is reported of the numbers of a text.
fn tell_numbers(alloc: Global, word: &str, text: &str, out: &mut String) -> Result<(), Fail> {
    let mut numbers = numbers_of(alloc, text)?;
    match word {
        "sign" => Ok(put_order(sign_of_sum(numbers.as_slice()), out)?),
        "primitive" => Ok(tell_primitive(numbers.as_mut_slice(), out)?),
        "sparse" => Ok(tell_sparse(alloc, numbers.as_slice(), out)?),
        _ => Ok(tell_some(numbers.as_slice(), out)?),
    }
}

/// Writes what a line asks for.
pub(crate) fn tell(alloc: Global, line: &str, out: &mut String) -> Result<(), Fail> {
    let (word, text) = line.split_once(" ").unwrap_or((line, ""));
    match word {
        "combine" => tell_combined(alloc, text, out),
        "drawn" => tell_drawn(alloc, text.parse().unwrap_or(0), out),
        "run" => tell_run(alloc, text, out),
        "sums" => tell_sums(alloc, text.parse().unwrap_or(0), out),
        _ => tell_numbers(alloc, word, text, out),
    }
}
