//! The rows at the start.
ghost use Rattle.std.specs.Prelude.{◌≡◌, ℕ, ◌<◌, ◌≤◌, ◌+◌, ◌-◌, ◌++◌, ◌∷◌, [], pos, ◌^◌, ◌-ℤ◌};
ghost use Rattle.std.specs.Prelude.{◌+ℤ◌, ◌*ℤ◌, length, map, replicate, slice_set, IsTrue};
ghost use Rattle.std.specs.Prelude.{IfOk, OnOk, unsigned_abs};
ghost use Rattle.std.specs.List.{All};
ghost use Rattle.lk_model.specs.Lists.{rises_within, up_to};
ghost use Rattle.lk_model.specs.Limits.{is_in_range};
ghost use Rattle.lk_model.specs.Formulas.Formula.{variables_at, IsWithinLimits};
ghost use Rattle.lk_model.specs.Linear.Rows.{Row, entry, sign_of, start_rows, less_column};
ghost use Rattle.exact_rows.specs.Sparse.{AreEntries, row_of};
ghost use Rattle.exact_pivot.specs.Small.{AreSmall, AreSmallEntries, cost_of};
ghost use Rattle.exact_pivot.specs.Scattered.{lack_of, sign_at, times_sign, start_entries, with_number};

use crate::equation::Equation;
use crate::incidences::incidences;
use crate::numbers::Numbers;
use exact_rows::{Entry, SparseRow};
use lk_model::{Formula, OutOfMemory};
use std::alloc::Global;

/// The rows of the variables, and the sign of each: it makes what the variable lacks at least 0.
pub fn start_rows(
    alloc: Global,
    f: &Formula,
    kept: &[u32],
    vars: &[u32],
) -> Result<(Vec<i128>, Vec<Equation>), OutOfMemory>
    requires kept { IsTrue (rises_within 0 (length f.now.clauses) kept.now) }
    requires vars { vars.now ≡ variables_at f.now kept.now }
    requires limits { IsWithinLimits f.now }
    ensures signs { IfOk result (λ p. p.0.items ≡ map (sign_of f.now kept.now) vars.now) }
    ensures rows { IfOk result (λ p. p.1.items ≡ start_rows f.now kept.now) }
{
    let incidences = incidences(alloc, f, kept)?;
    let mut signs = Vec::with_capacity(alloc, vars.len())?;
    let mut rows = Vec::with_capacity(alloc, vars.len())?;
    let right = kept.len() + vars.len() + 2;
    for (j, v) in vars.iter().enumerate() {
        let entries = incidences[*v as usize].as_slice();
        let artificial = kept.len() + j + 1;
        push_row(&mut signs, &mut rows, alloc, entries, artificial, right)?;
    }
    Ok((signs, rows))
}

// Appends the sign and the row of a variable with these entries in the columns of the clauses.
fn push_row(
    signs: &mut Vec<i128>,
    rows: &mut Vec<Equation>,
    alloc: Global,
    entries: &[Entry],
    artificial: usize,
    right: usize,
) -> Result<(), OutOfMemory>
    requires small { AreSmallEntries entries.now }
    requires fit { AreEntries right (start_entries entries.now artificial right) }
    requires column { artificial < 2 ^ 32 }
    ensures signs { OnOk result (signs.new.items ≡ signs.old.items ++ sign_at (lack_of entries.now) ∷ []) }
    ensures rows { OnOk result
        (rows.new.items ≡ rows.old.items ++ record {
          entries = row_of right
              (start_entries entries.now artificial right);
          basic = artificial;
        } ∷ []) }
{
    let numbers = start_numbers(alloc, entries, artificial, right)?;
    signs.push(sign_for(lack(entries)))?;
    rows.push(Equation::of(numbers, artificial as u32))?;
    Ok(())
}

// The row of a variable with these entries in the columns of the clauses.
fn start_numbers(
    alloc: Global,
    entries: &[Entry],
    artificial: usize,
    right: usize,
) -> Result<Numbers, OutOfMemory>
    requires small { AreSmallEntries entries.now }
    requires fit { AreEntries right (start_entries entries.now artificial right) }
    ensures { IfOk result (λ numbers. numbers ≡ row_of right (start_entries entries.now artificial right)) }
{
    let lack = lack(entries);
    let sign = sign_for(lack);
    let mut row = Vec::with_capacity(alloc, entries.len() + 2)?;
    push_times(&mut row, entries, sign)?;
    row.push(Entry {
        column: artificial,
        value: 1,
    })?;
    push_number(&mut row, right, signed(sign, lack))?;
    Ok(Numbers::of(SparseRow::with_entries(right, row)))
}

// What entries lack to 0.
fn lack(entries: &[Entry]) -> i128
    requires { AreSmallEntries entries.now }
    ensures value { result ≡ lack_of entries.now }
    ensures most { unsigned_abs result ≤ length entries.now }
{
    let mut lack = 0;
    for e in entries {
        lack = less(lack, e.value);
    }
    lack
}

// -1 for a number below 0, else 1.
fn sign_for(lack: i128) -> i128
    ensures value { result ≡ sign_at lack }
    ensures unit { unsigned_abs result ≡ 1 }
{
    if lack < 0 { -1 } else { 1 }
}

// A number times a sign.
fn signed(sign: i128, x: i128) -> i128
    requires sign { unsigned_abs sign ≡ 1 }
    requires x { unsigned_abs x < 2 ^ 100 }
    ensures value { result ≡ sign *ℤ x }
    ensures range { IsTrue (is_in_range result) }
{
    if sign < 0 { -x } else { x }
}

// Appends entries times a sign.
fn push_times(row: &mut Vec<Entry>, entries: &[Entry], sign: i128) -> Result<(), OutOfMemory>
    requires small { AreSmallEntries entries.now }
    requires sign { unsigned_abs sign ≡ 1 }
    ensures { OnOk result (row.new.items ≡ row.old.items ++ map (times_sign sign) entries.now) }
{
    for e in entries {
        row.push(Entry {
            column: e.column,
            value: signed(sign, e.value),
        })?;
    }
    Ok(())
}

// Appends a number in a column behind all entries, if it is not 0.
fn push_number(row: &mut Vec<Entry>, column: usize, value: i128) -> Result<(), OutOfMemory>
    ensures { OnOk result (row.new.items ≡ with_number row.old.items column value) }
{
    if value != 0 {
        row.push(Entry { column, value })?;
    }
    Ok(())
}

/// The cost row, for m clauses.
pub fn start_cost(alloc: Global, m: u32, rows: &[Equation]) -> Result<Numbers, OutOfMemory>
    requires size { m + length rows.now + 2 < 2 ^ 32 }
    requires widths { All (λ (row : Row). length row.entries ≡ m + length rows.now + 2) rows.now }
    requires small { All (λ (row : Row). AreSmall row.entries) rows.now }
    ensures { IfOk result (λ cost. cost ≡ cost_of m rows.now) }
{
    let mut cost = vec![in alloc; 0; m as usize + rows.len() + 2]?;
    write_cost(&mut cost, m as usize, rows);
    Ok(Numbers::of(SparseRow::of(alloc, &cost)?))
}

// Writes the cost row of m clauses over zeros. The sums stay in the columns of the clauses and on the right side;
// each variable's own column is 0, and the cost unit 1.
fn write_cost(cost: &mut [i128], m: usize, rows: &[Equation])
    requires none { cost.old ≡ replicate (m + length rows.now + 2) (pos 0) }
    requires count { length rows.now < 2 ^ 32 }
    requires widths { All (λ (row : Row). length row.entries ≡ m + length rows.now + 2) rows.now }
    requires small { All (λ (row : Row). AreSmall row.entries) rows.now }
    ensures { cost.new ≡ cost_of m rows.now }
{
    subtract_rows(cost, rows);
    let unit = m + rows.len();
    cost[m..unit].fill(0);
    cost[unit] = 1;
}

// Subtracts all rows from a row of zeros.
fn subtract_rows(sums: &mut [i128], rows: &[Equation])
    requires none { sums.old ≡ replicate (length sums.old) (pos 0) }
    requires count { length rows.now < 2 ^ 32 }
    requires widths { All (λ (row : Row). length row.entries ≡ length sums.old) rows.now }
    requires small { All (λ (row : Row). AreSmall row.entries) rows.now }
    ensures { sums.new ≡ map (less_column rows.now) (up_to (length sums.old)) }
{
    for row in rows {
        subtract(sums, row.entries());
    }
}

// Subtracts a row, in the time of its entries that are not 0.
fn subtract(sums: &mut [i128], row: &Numbers)
    requires width { length row.now ≡ length sums.old }
    requires small { AreSmall row.now }
    requires far { All (λ x. unsigned_abs x < 2 ^ 99) sums.old }
    ensures { sums.new ≡ map (λ k. entry sums.old k -ℤ entry row.now k) (up_to (length sums.old)) }
{
    let entries = row.entries();
    for e in entries {
        subtract_at(sums, e.column, e.value);
    }
}

// Subtracts a number in a column.
fn subtract_at(sums: &mut [i128], column: usize, x: i128)
    requires first { 0 < column }
    requires last { column ≤ length sums.old }
    requires far { unsigned_abs (entry sums.old column) < 2 ^ 99 }
    requires x { unsigned_abs x < 2 ^ 99 }
    ensures { sums.new ≡ slice_set sums.old (column - 1) (entry sums.old column -ℤ x) }
{
    let k = column - 1;
    sums[k] = less(sums[k], x);
}

// The difference of numbers that are far from the limits.
fn less(x: i128, y: i128) -> i128
    requires x { unsigned_abs x < 2 ^ 100 }
    requires y { unsigned_abs y < 2 ^ 100 }
    ensures value { result ≡ x -ℤ y }
    ensures most { unsigned_abs result ≤ unsigned_abs x + unsigned_abs y }
{
    x - y
}
