//! Comparison of fractions.
//!
//! By continued fractions, as in Euclid's algorithm: quotients first, and then what is left, the other way up.
ghost use Rattle.std.specs.Prelude.{◌≡◌, ◌*◌, ◌<◌, pos, ◌*ℤ◌, ◌≤ℤ◌, ◌<ℤ◌};
ghost use Rattle.std.specs.Ordering.{nat_cmp, int_cmp};

use std::cmp::Ordering;

/// The order of the fractions a/b and c/d, where a and c are not below 0 and b and d are above 0. It is exact for all
/// numbers that fit: the quotients are compared first, and no product is formed.
pub fn compare_ratio(a: i128, b: i128, c: i128, d: i128) -> Ordering
    requires a { pos 0 ≤ℤ a }
    requires b { pos 0 <ℤ b }
    requires c { pos 0 ≤ℤ c }
    requires d { pos 0 <ℤ d }
    ensures { result ≡ int_cmp (a *ℤ d) (c *ℤ b) }
{
    compare_unsigned(a as u128, b as u128, c as u128, d as u128)
}

/// Where the quotients are equal, the fractions that are left are compared the other way up.
fn compare_unsigned(a: u128, b: u128, c: u128, d: u128) -> Ordering
    requires b { 0 < b }
    requires d { 0 < d }
    ensures { result ≡ nat_cmp (a * d) (c * b) }
{
    let (mut w, mut x, mut y, mut z) = (a, b, c, d);
    'quotients: loop {
        let whole = (w / x).cmp(&(y / z));
        if whole != Ordering::Equal {
            return whole;
        }
        let (over, under) = (w % x, y % z);
        if over == 0 || under == 0 {
            return over.cmp(&under);
        }
        (w, x, y, z) = (z, under, x, over);
    }
}
