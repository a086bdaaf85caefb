//! The numbers of a linear run that ends lean: a dual for each clause, and a unit for each variable.
//!
//! Either some weights of the variables have no balance below 0 and one above 0, or positive numbers of the clauses
//! balance to 0 in each variable: of the two exactly one holds (Farkas, "Theorie der einfachen Ungleichungen", 1902,
//! in the form of Stiemke, 1915). The duals are such numbers, so every weighting without a balance below 0 has only
//! balances 0.
//!
//! Here a unit for each variable shows the rest: its shares balance to a number that is not 0 in that variable and to
//! 0 in the others, so a weighting with only balances 0 is 0. Both are read off the rows in which a run ends, over the
//! common denominator of a column.
ghost use Rattle.std.specs.Prelude.{◌≡◌, ◌+◌, ◌<◌, ◌^◌, pos, negsuc, ◌<ℤ◌, ◌*ℤ◌, ◌⊎◌, int_div, length, map, IsTrue};
ghost use Rattle.std.specs.Prelude.{IfOk, OnOk};
ghost use Rattle.std.specs.List.{All, flat_map};
ghost use Rattle.std.specs.Result.{result_err};
ghost use Rattle.lk_model.specs.Limits.{is_in_range};
ghost use Rattle.lk_model.specs.Linear.Arithmetic.{first_wide, gcd_of, reduced, made};
ghost use Rattle.lk_model.specs.Linear.Rows.{TableauRows, right_column};
ghost use Rattle.lk_model.specs.Linear.Ends.{numerator, denominator, made_in_dual, dual_at_end, made_in_units};
ghost use Rattle.lk_model.specs.Linear.Ends.{units_at_end};
ghost use Rattle.exact_rows.specs.Made.{IsMade};
ghost use Rattle.exact_pivot.specs.Moves.{Gives};
ghost use Rattle.exact_pivot.specs.Shape.{IsRow};
ghost use Rattle.exact_pivot.specs.Placed.{IsBasic, signed_of, made_in_multiple, sum_with, made_in_sum, placed};
ghost use Rattle.exact_pivot.specs.Placed.{common_of, made_in_common, duals_with, shares_with, unit_in, made_in_unit};
ghost use Rattle.lk_model.specs.declared.wide.Op.{Op};

use crate::equation::Equation;
use crate::stop::PivotStop;
use exact_rows::{gcd, product, sum};
use lk_model::{Dual, List, Share, Unit, Wide};
use std::alloc::{AllocError, Global};

// x over the gcd of x and y.
fn reduced(x: i128, y: i128) -> i128
    requires x { IsTrue (is_in_range x) }
    requires y { IsTrue (is_in_range y) }
    requires some { pos 0 <ℤ gcd_of x y }
    ensures value { result ≡ reduced x y }
    ensures range { IsTrue (is_in_range result) }
    ensures positive { pos 0 <ℤ x → pos 0 <ℤ result }
{
    quotient(x, gcd(x, y))
}

fn quotient(x: i128, divisor: i128) -> i128
    requires x { IsTrue (is_in_range x) }
    requires divisor { pos 0 <ℤ divisor }
    ensures value { result ≡ int_div x divisor }
    ensures range { IsTrue (is_in_range result) }
{
    x / divisor
}

// The quotient of a row's entry by its basic entry, in lowest terms.
fn numerator(row: &Equation, column: u32) -> i128
    requires { IsBasic row.now }
    ensures value { result ≡ numerator column row.now }
    ensures range { IsTrue (is_in_range result) }
{
    reduced(row.entry(column), row.entry(row.basic()))
}

fn denominator(row: &Equation, column: u32) -> i128
    requires { IsBasic row.now }
    ensures value { result ≡ denominator column row.now }
    ensures range { IsTrue (is_in_range result) }
    ensures positive { pos 0 <ℤ result }
{
    reduced(row.entry(row.basic()), row.entry(column))
}

// The least common multiple of two numbers.
fn joined(l: i128, q: i128) -> Result<i128, Wide>
    requires l { IsTrue (is_in_range l) }
    requires l_positive { pos 0 <ℤ l }
    requires q { IsTrue (is_in_range q) }
    requires q_positive { pos 0 <ℤ q }
    ensures made { IsMade Op.Product (reduced l q) q result }
    ensures positive { IfOk result (λ x. pos 0 <ℤ x) }
{
    product(reduced(l, q), q)
}

/// The common denominator of a column: the least common multiple of the denominators of its quotients.
pub fn common(rows: &[Equation], column: u32) -> Result<i128, Wide>
    requires { All IsBasic rows.now }
    ensures wide { result_err result ≡ first_wide (made_in_common column rows.now) }
    ensures value { IfOk result (λ l. l ≡ common_of column rows.now) }
    ensures positive { IfOk result (λ l. pos 0 <ℤ l) }
    ensures range { IfOk result (λ l. IsTrue (is_in_range l)) }
{
    let mut common = 1;
    for row in rows {
        common = joined(common, denominator(row, column))?;
    }
    Ok(common)
}

/// A row's quotient in a column, as a multiple of the inverse of the common denominator.
pub fn multiple(common: i128, row: &Equation, column: u32) -> Result<i128, Wide>
    requires row { IsBasic row.now }
    requires common { IsTrue (is_in_range common) }
    ensures { IsMade Op.Product (int_div common (denominator column row.now)) (numerator column row.now) result }
{
    product(
        quotient(common, denominator(row, column)),
        numerator(row, column),
    )
}

// The common denominator and a row's multiple, added.
fn sum_with(common: i128, row: &Equation, column: u32) -> Result<i128, Wide>
    requires row { IsBasic row.now }
    requires common { IsTrue (is_in_range common) }
    ensures wide { result_err result ≡ first_wide (made_in_sum common column row.now) }
    ensures value { IfOk result (λ x. x ≡ sum_with common column row.now) }
{
    sum(common, multiple(common, row, column)?)
}

// A row's multiple, times a sign.
fn signed_multiple(sign: i128, common: i128, row: &Equation, column: u32) -> Result<i128, Wide>
    requires sign { (sign ≡ pos 1) ⊎ (sign ≡ negsuc 0) }
    requires row { IsBasic row.now }
    requires common { IsTrue (is_in_range common) }
    ensures wide { result_err result ≡ first_wide (made_in_multiple common column row.now) }
    ensures value { IfOk result (λ x. x ≡ signed_of sign common column row.now) }
{
    Ok(signed(sign, multiple(common, row, column)?))
}

/// A number times a sign, which is 1 or -1.
pub fn signed(sign: i128, x: i128) -> i128
    requires sign { (sign ≡ pos 1) ⊎ (sign ≡ negsuc 0) }
    requires x { IsTrue (is_in_range x) }
    ensures value { result ≡ sign *ℤ x }
    ensures range { IsTrue (is_in_range result) }
{
    if sign < 0 { -x } else { x }
}

// Writes these sums, of all rows.
fn write_sums(values: &mut [i128], rows: &[Equation], common: i128, column: u32) -> Result<(), Wide>
    requires lengths { length values.old ≡ length rows.now }
    requires rows { All IsBasic rows.now }
    requires common { IsTrue (is_in_range common) }
    ensures wide { result_err result ≡ first_wide (flat_map (made_in_sum common column) rows.now) }
    ensures value { OnOk result (values.new ≡ map (sum_with common column) rows.now) }
    ensures length { OnOk result (length values.new ≡ length rows.now) }
{
    for (i, row) in rows.iter().enumerate() {
        values[i] = sum_with(common, row, column)?;
    }
    Ok(())
}

// Writes the multiples of all rows, times a sign.
fn write_multiples(
    values: &mut [i128],
    rows: &[Equation],
    sign: i128,
    common: i128,
    column: u32,
) -> Result<(), Wide>
    requires lengths { length values.old ≡ length rows.now }
    requires rows { All IsBasic rows.now }
    requires sign { (sign ≡ pos 1) ⊎ (sign ≡ negsuc 0) }
    requires common { IsTrue (is_in_range common) }
    ensures wide { result_err result ≡ first_wide (flat_map (made_in_multiple common column) rows.now) }
    ensures value { OnOk result (values.new ≡ map (signed_of sign common column) rows.now) }
    ensures length { OnOk result (length values.new ≡ length rows.now) }
{
    for (i, row) in rows.iter().enumerate() {
        values[i] = signed_multiple(sign, common, row, column)?;
    }
    Ok(())
}

// For each clause column the value beside the first row whose basic column it is, in one pass over the rows.
fn placed(
    alloc: Global,
    clause_count: usize,
    rows: &[Equation],
    values: &[i128],
    elsewhere: i128,
) -> Result<Vec<i128>, AllocError>
    requires lengths { length rows.now ≡ length values.now }
    requires rows { All IsBasic rows.now }
    ensures { IfOk result (λ numbers. numbers.items ≡ placed elsewhere clause_count rows.now values.now) }
{
    let mut numbers = vec![in alloc; elsewhere; clause_count]?;
    for i in (0..rows.len()).rev() {
        let column = rows[i].basic() as usize;
        if column <= clause_count {
            numbers[column - 1] = values[i];
        }
    }
    Ok(numbers)
}

fn with_positions(
    alloc: Global,
    positions: &[u32],
    numbers: &[i128],
) -> Result<Vec<Dual>, AllocError>
    ensures { IfOk result (λ duals. duals.items ≡ duals_with positions.now numbers.now) }
{
    positions
        .iter()
        .zip(numbers)
        .map(|(pos, y)| Dual { pos: *pos, y: *y })
        .collect(alloc)
}

fn shares_of(alloc: Global, positions: &[u32], numbers: &[i128]) -> Result<Vec<Share>, AllocError>
    ensures { IfOk result (λ shares. shares.items ≡ shares_with positions.now numbers.now) }
{
    positions
        .iter()
        .zip(numbers)
        .map(|(pos, z)| Share { pos: *pos, z: *z })
        .filter(|share| share.z != 0)
        .collect(alloc)
}

/// The duals of rows that end lean, with the right side in this column. At the basic clause of a row it is the
/// common denominator and the row's multiple, added, at each other clause the common denominator.
pub fn duals(
    alloc: Global,
    positions: &[u32],
    rows: &[Equation],
    column: u32,
) -> Result<List<Dual>, PivotStop>
    requires { All (IsRow column) rows.now }
    ensures { (t : TableauRows) → t.positions ≡ positions.now → t.rows ≡ rows.now → right_column t ≡ column →
        Gives (made_in_dual t) (dual_at_end t) result }
{
    let common = common(rows, column)?;
    let mut values = vec![in alloc; 0; rows.len()]?;
    write_sums(&mut values, rows, common, column)?;
    let numbers = placed(alloc, positions.len(), rows, &values, common)?;
    Ok(List::from_vec(with_positions(alloc, positions, &numbers)?))
}

/// The units of rows that end lean, one for each variable, whose artificial columns follow those of the clauses.
pub fn units(
    alloc: Global,
    positions: &[u32],
    vars: &[u32],
    signs: &[i128],
    rows: &[Equation],
) -> Result<List<Unit>, PivotStop>
    requires size { length positions.now + length vars.now + 2 < 2 ^ 32 }
    requires rows { All (IsRow (length positions.now + length vars.now + 2)) rows.now }
    requires signs { length signs.now ≡ length vars.now }
    requires units { All (λ e. (e ≡ pos 1) ⊎ (e ≡ negsuc 0)) signs.now }
    ensures { (t : TableauRows) → t.positions ≡ positions.now → t.vars ≡ vars.now → t.signs ≡ signs.now →
        t.rows ≡ rows.now → Gives (made_in_units t) (units_at_end t) result }
{
    let mut units = Vec::with_capacity(alloc, vars.len())?;
    for (j, var) in vars.iter().enumerate() {
        let column = (positions.len() + j + 1) as u32;
        units.push(unit(alloc, positions, rows, column, signs[j], *var)?)?;
    }
    Ok(List::from_vec(units))
}

// The unit of one variable: in its artificial column the multiples of all rows, times its sign.
fn unit(
    alloc: Global,
    positions: &[u32],
    rows: &[Equation],
    column: u32,
    sign: i128,
    var: u32,
) -> Result<Unit, PivotStop>
    requires rows { All IsBasic rows.now }
    requires sign { (sign ≡ pos 1) ⊎ (sign ≡ negsuc 0) }
    ensures { Gives (made_in_unit column rows.now) (unit_in positions.now rows.now column sign var) result }
{
    let common = common(rows, column)?;
    let mut values = vec![in alloc; 0; rows.len()]?;
    write_multiples(&mut values, rows, sign, common, column)?;
    let numbers = placed(alloc, positions.len(), rows, &values, 0)?;
    let shares = shares_of(alloc, positions, &numbers)?;
    Ok(Unit {
        var,
        d: common,
        shares: List::from_vec(shares),
    })
}
