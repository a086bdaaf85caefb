//! Combinations of rows that keep only their entries that are not 0.
//!
//! The entries of both rows are met in the order of their columns, as in a merge of sorted lists. In a column where
//! neither row has one, both products and their difference are 0: so the first result that does not fit is that of the
//! whole rows.
ghost use Rattle.std.specs.Prelude.{◌≡◌, ◌≢◌, ℕ, pos, ◌<ℤ◌, length, map, IsTrue, IfOk, OnOk, OnErr};
ghost use Rattle.std.specs.List.{All};
ghost use Rattle.lk_model.specs.Limits.{is_in_range};
ghost use Rattle.lk_model.specs.Linear.Pivot.{combined, made_in_row};
ghost use Rattle.exact_rows.specs.Made.{made_by, mixed};
ghost use Rattle.exact_rows.specs.Sparse.{AreEntries, EndsBy, IsEntry, row_of};
ghost use Rattle.exact_rows.specs.Merged.{content_of, divided, first_number, next_column, past};

use crate::divisor::gcd;
use crate::row::{quotient, try_entry};
use crate::sparse::{Entry, SparseRow, SparseStop};
use std::alloc::Global;

/// The row becomes (p/g) times itself less (f/g) times the other, where g is the greatest common divisor of p and f,
/// divided by its content: as `combine` does on whole rows, in the time of the entries of both rows that are not 0.
///
/// The error is the first result past ±(2^127 - 1), with its operands: for each column from left to right the
/// product of the row's entry, that of the other's, and their difference. Or memory runs out. The row is then as it
/// was.
pub fn combine_sparse(
    alloc: Global,
    row: &mut SparseRow,
    other: &SparseRow,
    p: i128,
    f: i128,
) -> Result<(), SparseStop>
    requires lengths { length row.old ≡ length other.now }
    requires p_positive { pos 0 <ℤ p }
    requires f_nonzero { f ≢ pos 0 }
    requires p_range { IsTrue (is_in_range p) }
    requires f_range { IsTrue (is_in_range f) }
    ensures ends { EndsBy (made_in_row p f row.old other.now) result }
    ensures ok { OnOk result (row.new ≡ combined p f row.old other.now) }
    ensures err { OnErr result (row.new ≡ row.old) }
{
    let divisor = gcd(p, f);
    let (scale, share) = (quotient(p, divisor), quotient(f, divisor));
    let mut entries = mixed_entries(alloc, row.entries(), other.entries(), scale, share)?;
    divide(&mut entries);
    *row = SparseRow::with_entries(row.columns(), entries);
    Ok(())
}

// The entries of the scale times a row less the share times another.
fn mixed_entries(
    alloc: Global,
    row: &[Entry],
    other: &[Entry],
    scale: i128,
    share: i128,
) -> Result<Vec<Entry>, SparseStop>
    ensures ends { (n : ℕ) → AreEntries n row.now → AreEntries n other.now →
        EndsBy (made_by scale share (row_of n row.now) (row_of n other.now)) result }
    ensures entries { (n : ℕ) → AreEntries n row.now → AreEntries n other.now →
        IfOk result (λ es. AreEntries n es.items) }
    ensures value { (n : ℕ) → AreEntries n row.now → AreEntries n other.now →
        IfOk result (λ es. row_of n es.items ≡ mixed scale share (row_of n row.now) (row_of n other.now)) }
{
    let (mut left, mut right) = (row, other);
    let mut mixed = Vec::with_capacity(alloc, row.len() + other.len())?;
    while let Some(column) = next_column(left, right) {
        let (x, y) = (first_number(left, column), first_number(right, column));
        let value = try_entry(scale, x, share, y)?;
        if value != 0 {
            mixed.push(Entry { column, value })?;
        }
        (left, right) = (past(left, column), past(right, column));
    }
    Ok(mixed)
}

// The least column in which one of the rows has an entry.
fn next_column(left: &[Entry], right: &[Entry]) -> Option<usize>
    ensures { result ≡ next_column left.now right.now }
{
    match (left.first(), right.first()) {
        (Some(x), Some(y)) => Some(x.column.min(y.column)),
        (Some(x), None) => Some(x.column),
        (None, Some(y)) => Some(y.column),
        (None, None) => None,
    }
}

// The number in a column, if no entry is in an earlier one.
fn first_number(entries: &[Entry], column: usize) -> i128
    ensures { result ≡ first_number entries.now column }
{
    match entries.first() {
        Some(e) if e.column == column => e.value,
        _ => 0,
    }
}

// The entries after that column.
fn past(entries: &[Entry], column: usize) -> &[Entry]
    ensures { result.now ≡ past entries.now column }
{
    match entries.split_first() {
        Some((e, others)) if e.column == column => others,
        _ => entries,
    }
}

// Divides entries by their content.
fn divide(entries: &mut [Entry])
    requires { All IsEntry entries.old }
    ensures { entries.new ≡ map (divided (content_of entries.old)) entries.old }
{
    let divisor = content(entries);
    if divisor > 1 {
        for e in entries.iter_mut() {
            e.value = quotient(e.value, divisor);
        }
    }
}

// The greatest common divisor of all entries. It is known as soon as it is 1.
fn content(entries: &[Entry]) -> i128
    requires { All IsEntry entries.now }
    ensures value { result ≡ content_of entries.now }
    ensures range { IsTrue (is_in_range result) }
{
    let mut divisor = 0;
    for i in (0..entries.len()).rev() {
        if divisor == 1 {
            return 1;
        }
        divisor = gcd(entries[i].value, divisor);
    }
    divisor
}
