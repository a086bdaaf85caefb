//! Rows of whole numbers.
//!
//! A combination of two rows in whole numbers, as in elimination without fractions: the factors are divided by their
//! greatest common divisor first, and the result by its content, so that numbers stay as small as this allows.
//!
//! Here all results are tried before the first entry changes. So a row is as it was where one of them does not fit,
//! the first one is reported with its operands, and no copy of the row is made.
ghost use Rattle.std.specs.Prelude.{◌≡◌, ◌≢◌, pos, ◌<ℤ◌, ◌*ℤ◌, ◌-ℤ◌, int_div, length, IsTrue, IfOk, OnOk, OnErr, None};
ghost use Rattle.std.specs.Result.{result_err};
ghost use Rattle.lk_model.specs.Limits.{is_in_range};
ghost use Rattle.lk_model.specs.Linear.Arithmetic.{content, primitive, first_wide};
ghost use Rattle.lk_model.specs.Linear.Pivot.{combined, made_in_row};
ghost use Rattle.exact_rows.specs.Made.{AreInRange, made_at, made_by, mixed};

use crate::divisor::gcd;
use crate::result::{difference, product};
use lk_model::Wide;

/// Divides a row by its content, the greatest common divisor of its entries. A row of zeros stays. It takes no
/// memory.
pub fn primitive(row: &mut [i128])
    requires { AreInRange row.old }
    ensures value { row.new ≡ primitive row.old }
    ensures range { AreInRange row.new }
{
    let divisor = content(row);
    if divisor > 1 {
        for x in row.iter_mut() {
            *x = quotient(*x, divisor);
        }
    }
}

/// The greatest common divisor of all entries. It is known as soon as it is 1.
fn content(row: &[i128]) -> i128
    requires { AreInRange row.now }
    ensures { result ≡ content row.now }
{
    let mut divisor = 0;
    for i in (0..row.len()).rev() {
        if divisor == 1 {
            return 1;
        }
        divisor = gcd(row[i], divisor);
    }
    divisor
}

/// A quotient that leaves no remainder where the divisor divides.
pub fn quotient(x: i128, divisor: i128) -> i128
    requires x { IsTrue (is_in_range x) }
    requires divisor { pos 0 <ℤ divisor }
    ensures value { result ≡ int_div x divisor }
    ensures range { IsTrue (is_in_range result) }
{
    x / divisor
}

/// The row becomes (p/g) times itself less (f/g) times the other, where g is the greatest common divisor of p and f,
/// divided by its content.
///
/// The error is the first result past ±(2^127 - 1), with its operands: for each column from left to right the
/// product of the row's entry, that of the other's, and their difference. The row is then as it was. It takes no
/// memory.
pub fn combine(row: &mut [i128], other: &[i128], p: i128, f: i128) -> Result<(), Wide>
    requires lengths { length row.old ≡ length other.now }
    requires p_positive { pos 0 <ℤ p }
    requires f_nonzero { f ≢ pos 0 }
    requires p_range { IsTrue (is_in_range p) }
    requires f_range { IsTrue (is_in_range f) }
    requires row_range { AreInRange row.old }
    requires other_range { AreInRange other.now }
    ensures wide { result_err result ≡ first_wide (made_in_row p f row.old other.now) }
    ensures ok { OnOk result (row.new ≡ combined p f row.old other.now) }
    ensures err { OnErr result (row.new ≡ row.old) }
    ensures range { AreInRange row.new }
{
    let divisor = gcd(p, f);
    let (scale, share) = (quotient(p, divisor), quotient(f, divisor));
    try_mix(row, other, scale, share)?;
    mix(row, other, scale, share);
    primitive(row);
    Ok(())
}

/// Whether all results are in range with which the rows are mixed; or the first that is not.
fn try_mix(row: &[i128], other: &[i128], scale: i128, share: i128) -> Result<(), Wide>
    requires { length row.now ≡ length other.now }
    ensures { result_err result ≡ first_wide (made_by scale share row.now other.now) }
{
    for (i, y) in other.iter().enumerate() {
        try_entry(scale, row[i], share, *y)?;
    }
    Ok(())
}

/// The entry of the mixed row in one column, or the first result there that is not in range.
pub fn try_entry(scale: i128, x: i128, share: i128, y: i128) -> Result<i128, Wide>
    ensures wide { result_err result ≡ first_wide (made_at scale share x y) }
    ensures value { IfOk result (λ z. z ≡ scale *ℤ x -ℤ share *ℤ y) }
    ensures range { IfOk result (λ z. IsTrue (is_in_range z)) }
{
    difference(product(scale, x)?, product(share, y)?)
}

/// The row becomes the scale times itself less the share times the other.
fn mix(row: &mut [i128], other: &[i128], scale: i128, share: i128)
    requires lengths { length row.old ≡ length other.now }
    requires fits { first_wide (made_by scale share row.old other.now) ≡ None }
    ensures value { row.new ≡ mixed scale share row.old other.now }
    ensures range { AreInRange row.new }
{
    for (i, y) in other.iter().enumerate() {
        row[i] = entry(scale, row[i], share, *y);
    }
}

/// An entry of the mixed row.
fn entry(scale: i128, x: i128, share: i128, y: i128) -> i128
    requires { first_wide (made_at scale share x y) ≡ None }
    ensures value { result ≡ scale *ℤ x -ℤ share *ℤ y }
    ensures range { IsTrue (is_in_range result) }
{
    scale * x - share * y
}
