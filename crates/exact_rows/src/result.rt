//! Results of arithmetic, or their operands where they are too wide.
ghost use Rattle.std.specs.Prelude.{◌≡◌, ◌*ℤ◌, SomeIff, FitsSigned, IfSome, IsTrue};
ghost use Rattle.lk_model.specs.Limits.{is_in_range};
ghost use mir.Syntax.{w128};
ghost use Rattle.lk_model.specs.Linear.Arithmetic.{result_by};
ghost use Rattle.exact_rows.specs.Made.{IsMade};

use lk_model::{Op, Wide};

/// The product, or its operands where it lies outside ±(2^127 - 1).
pub fn product(left: i128, right: i128) -> Result<i128, Wide>
    ensures { IsMade Op.Product left right result }
{
    match short_product(left, right) {
        Some(x) => Ok(x),
        None => kept(left.checked_mul(right), Op::Product, left, right),
    }
}

// The product of numbers of 64 bits, which always fits.
fn short_product(left: i128, right: i128) -> Option<i128>
    ensures value { IfSome result (λ x. x ≡ left *ℤ right) }
    ensures range { IfSome result (λ x. IsTrue (is_in_range x)) }
{
    match (i64::try_from(left), i64::try_from(right)) {
        (Ok(x), Ok(y)) => Some(i128::from(x) * i128::from(y)),
        _ => None,
    }
}

/// The sum, or its operands where it lies outside ±(2^127 - 1).
pub fn sum(left: i128, right: i128) -> Result<i128, Wide>
    ensures { IsMade Op.Sum left right result }
{
    kept(left.checked_add(right), Op::Sum, left, right)
}

/// The difference, or its operands where it lies outside ±(2^127 - 1).
pub fn difference(left: i128, right: i128) -> Result<i128, Wide>
    ensures { IsMade Op.Difference left right result }
{
    kept(left.checked_sub(right), Op::Difference, left, right)
}

/// A result that fits and is not the least number of the type.
fn kept(found: Option<i128>, op: Op, left: i128, right: i128) -> Result<i128, Wide>
    requires { SomeIff found (FitsSigned w128 (result_by op left right)) (result_by op left right) }
    ensures { IsMade op left right result }
{
    match found {
        Some(x) if x != i128::MIN => Ok(x),
        _ => Err(Wide { op, left, right }),
    }
}
